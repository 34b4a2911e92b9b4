// How formulas stand.
use crate::samples::{NOTHING, ONCE, carry};
use cases::OpenCase;
use model::{Refutation, Standing};
use refusals::Refusal;
use runs::{PulseRun, TableRun};
use std::test::Fail;

// Of two refutations of a formula the first one counts.
#[test]
fn first_refutations_stand(rt: HostRuntime) -> Result<(), Fail> {
    let mut case = carry(rt.alloc())?;
    let mut scratch = [0; 24];
    let pulses = PulseRun::new(&[2, 0]);
    assert_eq!(rt; case.refute(&pulses, 4, 1, &mut scratch), Ok(0));
    assert_eq!(rt; case.refute(&pulses, 0, 1, &mut scratch), Ok(1));
    assert_eq!(rt; case.refute(&pulses, 0, 0, &mut scratch), Ok(2));
    let last = Refutation {
        formula: 0,
        position: 0,
    };
    assert_eq!(rt; case.refutation(2), Ok(last));
    assert_eq!(rt; case.standing(0), Ok(Standing::Refuted(1)));
    assert_eq!(rt; case.standing(4), Ok(Standing::Refuted(0)));
    assert_eq!(rt; case.standing(5), Ok(Standing::Open));
    assert_eq!(rt; case.standing(6), Err(Refusal::NotEntered));
    Ok(())
}

// What is refused leaves a formula as it stood.
#[test]
fn refused_formulas_stay_open(rt: HostRuntime) -> Result<(), Fail> {
    let mut case = carry(rt.alloc())?;
    let mut scratch = [0; 24];
    assert_eq!(rt;
        case.refute(&TableRun::new(&ONCE), 5, 0, &mut scratch),
        Err(Refusal::AssumptionFalse {
            place: 0,
            position: 0
        })
    );
    assert_eq!(rt; case.standing(5), Ok(Standing::Open));
    assert_eq!(rt;
        case.refute(&TableRun::new(&NOTHING), 5, 0, &mut scratch),
        Err(Refusal::FormulaTrue)
    );
    assert_eq!(rt; case.standing(5), Ok(Standing::Open));
    Ok(())
}

// An open case holds no refutation, so nothing stands otherwise than open in it.
#[test]
fn all_is_open_in_an_open_case(rt: HostRuntime) -> Result<(), Fail> {
    let mut case = OpenCase::new(rt.alloc())?;
    assert_eq!(rt; case.standing(0), Err(Refusal::NotEntered));
    case.form(0, 0, 0)?;
    assert_eq!(rt; case.standing(0), Ok(Standing::Open));
    assert_eq!(rt; case.refutation(0), Err(Refusal::RefutationNotHeld));
    assert_eq!(rt; case.counts().refutations, 0);
    Ok(())
}
