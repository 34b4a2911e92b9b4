// Which refutations are held, and which are not.
use crate::samples::{NOTHING, ONCE, all_but, carry, full};
use cases::OpenCase;
use model::Refutation;
use refusals::Refusal;
use runs::TableRun;
use std::test::Fail;

// □v0 is false where no atom is ever true, and v0 → ○v0 is true.
#[test]
fn refutations_are_held(rt: HostRuntime) -> Result<(), Fail> {
    let mut case = carry(rt.alloc())?;
    let held = case.refute(&TableRun::new(&NOTHING), 4, 0, &mut [0; 24]);
    assert_eq!(rt; held, Ok(0));
    assert_eq!(rt; case.counts().refutations, 1);
    let refutation = Refutation {
        formula: 4,
        position: 0,
    };
    assert_eq!(rt; case.refutation(0), Ok(refutation));
    assert_eq!(rt; case.refutation(1), Err(Refusal::RefutationNotHeld));
    Ok(())
}

// v0 → □v0 is false at 0, but so is the assumption v0 → ○v0.
#[test]
fn runs_keep_the_assumptions(rt: HostRuntime) -> Result<(), Fail> {
    let mut case = carry(rt.alloc())?;
    let mut scratch = [0; 24];
    let run = TableRun::new(&ONCE);
    assert_eq!(rt; case.truth(&run, 5, 0, &mut scratch), Ok(false));
    assert_eq!(rt;
        case.refute(&run, 5, 0, &mut scratch),
        Err(Refusal::AssumptionFalse {
            place: 0,
            position: 0
        })
    );
    assert_eq!(rt; case.counts().refutations, 0);
    Ok(())
}

// They keep them all along, and not only from the position on: at 1 v0 is false, and the assumption true from there on.
#[test]
fn runs_keep_the_assumptions_before_the_position(rt: HostRuntime) -> Result<(), Fail> {
    let mut case = carry(rt.alloc())?;
    let mut scratch = [0; 24];
    let run = TableRun::new(&ONCE);
    assert_eq!(rt; case.truth(&run, 2, 1, &mut scratch), Ok(true));
    assert_eq!(rt;
        case.refute(&run, 0, 1, &mut scratch),
        Err(Refusal::AssumptionFalse {
            place: 0,
            position: 0
        })
    );
    Ok(())
}

// □v0 is false at 3, since 1 comes behind it: v0 is false there, and at no other position. In the stem that is no
// matter.
#[test]
fn always_is_refuted_around_the_loop(rt: HostRuntime) -> Result<(), Fail> {
    let heap = rt.alloc();
    let mut case = OpenCase::new(heap)?;
    case.form(1, 0, 0)?;
    case.form(4, 0, 0)?;
    let mut case = case.seal();
    let in_loop = all_but(heap, 1, 3, 1)?;
    assert_eq!(rt;
        case.refute(&TableRun::new(&in_loop), 1, 3, &mut [0; 8]),
        Ok(0)
    );
    let in_stem = all_but(heap, 1, 3, 0)?;
    assert_eq!(rt;
        case.refute(&TableRun::new(&in_stem), 1, 3, &mut [0; 8]),
        Err(Refusal::FormulaTrue)
    );
    Ok(())
}

// Of two assumptions that are false, the one that was taken first is told, though it is false later than the other.
#[test]
fn first_false_assumptions_are_told(rt: HostRuntime) -> Result<(), Fail> {
    let heap = rt.alloc();
    let mut case = OpenCase::new(heap)?;
    for (kind, left, right) in [(1, 0, 0), (1, 1, 0), (2, 0, 0)] {
        case.form(kind, left, right)?;
    }
    for formula in [2, 0, 1] {
        case.assume(formula)?;
    }
    let mut case = case.seal();
    let bytes = all_but(heap, 100, 100, 150)?;
    assert_eq!(rt;
        case.refute(&TableRun::new(&bytes), 1, 0, &mut [0; 12]),
        Err(Refusal::AssumptionFalse {
            place: 1,
            position: 150
        })
    );
    Ok(())
}

#[test]
fn sixty_four_refutations_are_held(rt: HostRuntime) -> Result<(), Fail> {
    let mut case = carry(rt.alloc())?;
    for number in 0..64u16 {
        let held = case.refute(&TableRun::new(&NOTHING), 4, 0, &mut [0; 24]);
        assert_eq!(rt; held, Ok(number));
    }
    let more = case.refute(&TableRun::new(&NOTHING), 4, 0, &mut [0; 24]);
    assert_eq!(rt; more, Err(Refusal::RefutationsFull));
    assert_eq!(rt; case.counts().refutations, 64);
    Ok(())
}

// Each at its own position: 100 and the number.
#[test]
fn full_cases_tell_each_refutation(rt: HostRuntime) -> Result<(), Fail> {
    let case = full(rt.alloc())?;
    for (number, position) in [
        (0, 100),
        (1, 101),
        (15, 115),
        (31, 131),
        (32, 132),
        (62, 162),
        (63, 163),
    ] {
        let held = Refutation {
            formula: 4,
            position,
        };
        assert_eq!(rt; case.refutation(number), Ok(held), "at {number}");
    }
    assert_eq!(rt; case.refutation(64), Err(Refusal::RefutationNotHeld));
    Ok(())
}
