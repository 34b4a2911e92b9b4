// What the faults of bodies tell.
use cases::{OpenCase, SealedCase};
use files::{Cause, Fault, RecordFault, read_body};
use refusals::Refusal;
use rules::PublishedPage;
use std::alloc::Global;
use std::test::Fail;

// A body that starts at the end is empty; one that starts past it has no head there.
#[test]
fn bodies_start_within_the_file(rt: HostRuntime) -> Result<(), Fail> {
    let mut case = OpenCase::new(rt.alloc())?.seal();
    assert_eq!(rt;
        read_body(&mut case, &PublishedPage, b"abc", 3, &mut []),
        Ok(())
    );
    let short = Cause::Record(RecordFault::ShortHead);
    let past = Fault {
        cause: short,
        offset: 4,
    };
    assert_eq!(rt;
        read_body(&mut case, &PublishedPage, b"abc", 4, &mut []),
        Err(past)
    );
    let at_zero = Fault {
        cause: short,
        offset: 0,
    };
    assert_eq!(rt;
        read_body(&mut case, &PublishedPage, b"abc", 0, &mut []),
        Err(at_zero)
    );
    Ok(())
}

// False, v0 and v1, of which the atoms are assumed: v0 at place 0, and v1 at place 1.
fn atoms(heap: Global) -> Result<SealedCase, Fail> {
    let mut case = OpenCase::new(heap)?;
    for (kind, field) in [(0, 0), (1, 0), (1, 1)] {
        case.form(kind, field, 0)?;
    }
    case.assume(1)?;
    case.assume(2)?;
    Ok(case.seal())
}

// The second assumption is false at position 2 first; the record, whose head is at 13, asks for position 3.
fn second_at_2() -> Fault {
    Fault {
        cause: Cause::Case(Refusal::AssumptionFalse {
            place: 1,
            position: 2,
        }),
        offset: 13,
    }
}

// A seal and ○v0, and behind them a table with a stem of 1 and a loop of 4: v0 is always true, v1 at 0, 1 and 3.
#[test]
fn tables_tell_which_assumption_is_false(rt: HostRuntime) -> Result<(), Fail> {
    let file = [
        0, 0, 3, 0, 5, 0, 1, 0, 3, 1, 0, 0, 0, 28, 0, 5, 0, 0, 0, 3, 0, 1, 0, 4, 0, 3, 0, 0, 0, 3,
        0, 0, 0, 1, 0, 0, 0, 3, 0, 0, 0, 1, 0, 0, 0,
    ];
    let mut case = atoms(rt.alloc())?;
    let answer = read_body(&mut case, &PublishedPage, &file, 4, &mut [0; 16]);
    assert_eq!(rt; answer, Err(second_at_2()));
    Ok(())
}

// The same with a loop of 4 alone: v0 is always true, v1 at 0 and 1.
#[test]
fn pulses_tell_which_assumption_is_false(rt: HostRuntime) -> Result<(), Fail> {
    let file = [
        0, 0, 3, 0, 5, 0, 1, 0, 3, 1, 0, 0, 0, 22, 0, 6, 0, 0, 0, 3, 0, 4, 0, 0, 0, 0, 0, 1, 0, 1,
        0, 1, 0, 0, 0, 4, 0, 2, 0,
    ];
    let mut case = atoms(rt.alloc())?;
    let answer = read_body(&mut case, &PublishedPage, &file, 4, &mut [0; 16]);
    assert_eq!(rt; answer, Err(second_at_2()));
    Ok(())
}

#[test]
fn false_assumptions_are_number_13_of_layer_3(rt: HostRuntime) {
    assert_eq!(rt; second_at_2().layer(), 3);
    assert_eq!(rt; second_at_2().number(), 13);
}
