// The order in which calls on runs are refused: each call is wrong in two ways that follow one another there.
use crate::samples::{NOTHING, ONCE, TOO_LONG, carry, full};
use refusals::Refusal;
use runs::{PulseRun, TableRun};
use std::test::Fail;

// The formula, then the run's length, then the position, then the scratch.
#[test]
fn truths_are_refused_in_order(rt: HostRuntime) -> Result<(), Fail> {
    let case = carry(rt.alloc())?;
    assert_eq!(rt;
        case.truth(&PulseRun::new(&TOO_LONG), 6, 0, &mut [0; 24]),
        Err(Refusal::NotEntered)
    );
    assert_eq!(rt;
        case.truth(&PulseRun::new(&TOO_LONG), 5, 257, &mut [0; 24]),
        Err(Refusal::RunTooLong)
    );
    assert_eq!(rt;
        case.truth(&TableRun::new(&NOTHING), 5, 1, &mut [0; 23]),
        Err(Refusal::PastRun)
    );
    Ok(())
}

#[test]
fn refutations_are_refused_in_order(rt: HostRuntime) -> Result<(), Fail> {
    let mut case = carry(rt.alloc())?;
    assert_eq!(rt;
        case.refute(&PulseRun::new(&TOO_LONG), 6, 0, &mut [0; 24]),
        Err(Refusal::NotEntered)
    );
    assert_eq!(rt;
        case.refute(&PulseRun::new(&TOO_LONG), 4, 257, &mut [0; 24]),
        Err(Refusal::RunTooLong)
    );
    assert_eq!(rt;
        case.refute(&TableRun::new(&NOTHING), 4, 1, &mut [0; 23]),
        Err(Refusal::PastRun)
    );
    Ok(())
}

// Behind the scratch comes whether 64 are held. On the second run v0 → □v0 is false at 0, and so is the
// assumption.
#[test]
fn full_cases_refuse_before_they_judge(rt: HostRuntime) -> Result<(), Fail> {
    let mut case = full(rt.alloc())?;
    assert_eq!(rt;
        case.refute(&TableRun::new(&NOTHING), 4, 0, &mut [0; 23]),
        Err(Refusal::ScratchTooShort)
    );
    assert_eq!(rt;
        case.refute(&TableRun::new(&ONCE), 5, 0, &mut [0; 24]),
        Err(Refusal::RefutationsFull)
    );
    Ok(())
}

// The assumptions are looked at before the formula, which is v0 → v0.
#[test]
fn assumptions_are_judged_first(rt: HostRuntime) -> Result<(), Fail> {
    let mut case = carry(rt.alloc())?;
    assert_eq!(rt;
        case.refute(&TableRun::new(&ONCE), 3, 0, &mut [0; 24]),
        Err(Refusal::AssumptionFalse {
            place: 0,
            position: 0
        })
    );
    assert_eq!(rt;
        case.refute(&TableRun::new(&NOTHING), 3, 0, &mut [0; 24]),
        Err(Refusal::FormulaTrue)
    );
    Ok(())
}
