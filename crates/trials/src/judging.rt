// What a run says of the formulas of a case.
use crate::samples::{LONGEST, NOTHING, ONCE, TOO_LONG, all_but, carry, full};
use cases::OpenCase;
use refusals::Refusal;
use runs::{PulseRun, TableRun};
use std::test::Fail;

// A loop of 4, and one pulse: atom 0, from position 1 on, in every period of 2 for a width of 1. So the stem is 1, and
// position 4 is the loop's last one, which position 1 follows.
#[test]
fn pulses_are_judged_to_the_last_position(rt: HostRuntime) -> Result<(), Fail> {
    let case = carry(rt.alloc())?;
    let run = PulseRun::new(&[4, 0, 0, 0, 1, 0, 2, 0, 1, 0]);
    let mut scratch = [0; 24];
    for (position, now, next) in [
        (0, false, true),
        (1, true, false),
        (2, false, true),
        (3, true, false),
        (4, false, true),
    ] {
        assert_eq!(rt; case.truth(&run, 0, position, &mut scratch), Ok(now));
        assert_eq!(rt; case.truth(&run, 1, position, &mut scratch), Ok(next));
        assert_eq!(rt; case.truth(&run, 4, position, &mut scratch), Ok(false));
    }
    assert_eq!(rt; case.truth(&run, 0, 5, &mut scratch), Err(Refusal::PastRun));
    Ok(())
}

// A stem and a loop have 256 positions at most, and the last one can be asked for.
#[test]
fn tables_have_256_positions(rt: HostRuntime) -> Result<(), Fail> {
    let heap = rt.alloc();
    let case = carry(heap)?;
    let mut scratch = [0; 24];
    let bytes = all_but(heap, 2, 254, 255)?;
    let most = TableRun::new(&bytes);
    assert_eq!(rt; case.truth(&most, 0, 254, &mut scratch), Ok(true));
    assert_eq!(rt; case.truth(&most, 0, 255, &mut scratch), Ok(false));
    assert_eq!(rt;
        case.truth(&most, 0, 256, &mut scratch),
        Err(Refusal::PastRun)
    );
    let bytes = all_but(heap, 2, 255, 255)?;
    assert_eq!(rt;
        case.truth(&TableRun::new(&bytes), 0, 0, &mut scratch),
        Err(Refusal::RunTooLong)
    );
    Ok(())
}

#[test]
fn pulses_have_256_positions(rt: HostRuntime) -> Result<(), Fail> {
    let case = carry(rt.alloc())?;
    let mut scratch = [0; 24];
    assert_eq!(rt;
        case.truth(&PulseRun::new(&LONGEST), 3, 255, &mut scratch),
        Ok(true)
    );
    assert_eq!(rt;
        case.truth(&PulseRun::new(&LONGEST), 3, 256, &mut scratch),
        Err(Refusal::PastRun)
    );
    assert_eq!(rt;
        case.truth(&PulseRun::new(&TOO_LONG), 3, 255, &mut scratch),
        Err(Refusal::RunTooLong)
    );
    Ok(())
}

#[test]
fn refutations_have_256_positions(rt: HostRuntime) -> Result<(), Fail> {
    let mut case = carry(rt.alloc())?;
    let mut scratch = [0; 24];
    assert_eq!(rt;
        case.refute(&PulseRun::new(&LONGEST), 4, 255, &mut scratch),
        Ok(0)
    );
    assert_eq!(rt;
        case.refute(&PulseRun::new(&TOO_LONG), 4, 255, &mut scratch),
        Err(Refusal::RunTooLong)
    );
    Ok(())
}

// An open case answers too, whether its assumptions are kept or not.
#[test]
fn open_cases_judge(rt: HostRuntime) -> Result<(), Fail> {
    let mut case = OpenCase::new(rt.alloc())?;
    let run = TableRun::new(&ONCE);
    assert_eq!(rt; case.truth(&run, 0, 0, &mut []), Err(Refusal::NotEntered));
    case.form(1, 0, 0)?;
    case.form(4, 0, 0)?;
    case.assume(1)?;
    assert_eq!(rt; case.truth(&run, 0, 0, &mut [0; 8]), Ok(true));
    assert_eq!(rt; case.truth(&run, 0, 1, &mut [0; 8]), Ok(false));
    assert_eq!(rt; case.truth(&run, 1, 0, &mut [0; 8]), Ok(false));
    Ok(())
}

// A case with 64 refutations still answers what is true, and takes formulas.
#[test]
fn full_cases_judge(rt: HostRuntime) -> Result<(), Fail> {
    let mut case = full(rt.alloc())?;
    let run = TableRun::new(&NOTHING);
    assert_eq!(rt; case.truth(&run, 4, 0, &mut [0; 24]), Ok(false));
    assert_eq!(rt; case.form(3, 5, 0), Ok(6));
    assert_eq!(rt; case.truth(&run, 6, 0, &mut [0; 28]), Ok(true));
    Ok(())
}
