// What calls leave of the scratch.
use crate::samples::{NOTHING, ONCE, TOO_LONG, carry, full};
use refusals::Refusal;
use runs::{PulseRun, TableRun};
use std::test::Fail;

// The rows of the six formulas on v0 at position 0 alone, with a word of 7 behind them.
const ONCE_ROWS: [u64; 25] = [
    1, 0, 0, 0, 0, 0, 0, 0, 2, 0, 0, 0, 3, 0, 0, 0, 0, 0, 0, 0, 2, 0, 0, 0, 7,
];

// The rows on a run of one position without atoms.
const NOTHING_ROWS: [u64; 25] = [
    0, 0, 0, 0, 0, 0, 0, 0, 1, 0, 0, 0, 1, 0, 0, 0, 0, 0, 0, 0, 1, 0, 0, 0, 7,
];

#[test]
fn refused_truths_leave_the_scratch(rt: HostRuntime) -> Result<(), Fail> {
    let case = carry(rt.alloc())?;
    let mut scratch = [7; 25];
    let run = TableRun::new(&NOTHING);
    assert_eq!(rt;
        case.truth(&run, 6, 0, &mut scratch),
        Err(Refusal::NotEntered)
    );
    assert!(rt; scratch == [7; 25]);
    assert_eq!(rt;
        case.truth(&PulseRun::new(&TOO_LONG), 4, 0, &mut scratch),
        Err(Refusal::RunTooLong)
    );
    assert!(rt; scratch == [7; 25]);
    assert_eq!(rt; case.truth(&run, 4, 1, &mut scratch), Err(Refusal::PastRun));
    assert!(rt; scratch == [7; 25]);
    Ok(())
}

#[test]
fn early_refusals_leave_the_scratch(rt: HostRuntime) -> Result<(), Fail> {
    let heap = rt.alloc();
    let mut case = carry(heap)?;
    let mut scratch = [7; 25];
    let run = TableRun::new(&NOTHING);
    assert_eq!(rt;
        case.refute(&run, 6, 0, &mut scratch),
        Err(Refusal::NotEntered)
    );
    assert!(rt; scratch == [7; 25]);
    assert_eq!(rt;
        case.refute(&PulseRun::new(&TOO_LONG), 4, 0, &mut scratch),
        Err(Refusal::RunTooLong)
    );
    assert!(rt; scratch == [7; 25]);
    assert_eq!(rt;
        case.refute(&run, 4, 1, &mut scratch),
        Err(Refusal::PastRun)
    );
    assert!(rt; scratch == [7; 25]);
    assert_eq!(rt;
        full(heap)?.refute(&run, 4, 0, &mut scratch),
        Err(Refusal::RefutationsFull)
    );
    assert!(rt; scratch == [7; 25]);
    Ok(())
}

// One word too few for six rows.
#[test]
fn short_scratch_stays(rt: HostRuntime) -> Result<(), Fail> {
    let mut case = carry(rt.alloc())?;
    let mut short = [7; 23];
    let run = TableRun::new(&NOTHING);
    assert_eq!(rt;
        case.truth(&run, 4, 0, &mut short),
        Err(Refusal::ScratchTooShort)
    );
    assert!(rt; short == [7; 23]);
    assert_eq!(rt;
        case.refute(&run, 4, 0, &mut short),
        Err(Refusal::ScratchTooShort)
    );
    assert!(rt; short == [7; 23]);
    Ok(())
}

#[test]
fn four_words_suffice_for_each_formula(rt: HostRuntime) -> Result<(), Fail> {
    let mut case = carry(rt.alloc())?;
    let run = TableRun::new(&NOTHING);
    assert_eq!(rt; case.truth(&run, 4, 0, &mut [0; 24]), Ok(false));
    assert_eq!(rt; case.refute(&run, 4, 0, &mut [0; 24]), Ok(0));
    Ok(())
}

// A refused run's rows stay where they were written; words behind the rows are not touched.
#[test]
fn late_refusals_write_the_scratch(rt: HostRuntime) -> Result<(), Fail> {
    let mut case = carry(rt.alloc())?;
    let mut scratch = [7; 25];
    assert_eq!(rt;
        case.refute(&TableRun::new(&ONCE), 5, 0, &mut scratch),
        Err(Refusal::AssumptionFalse {
            place: 0,
            position: 0
        })
    );
    assert!(rt; scratch == ONCE_ROWS);
    assert_eq!(rt;
        case.refute(&TableRun::new(&NOTHING), 3, 0, &mut scratch),
        Err(Refusal::FormulaTrue)
    );
    assert!(rt; scratch == NOTHING_ROWS);
    Ok(())
}

// So do those of an answer.
#[test]
fn answers_write_the_scratch(rt: HostRuntime) -> Result<(), Fail> {
    let mut case = carry(rt.alloc())?;
    let mut scratch = [7; 25];
    assert_eq!(rt;
        case.truth(&TableRun::new(&ONCE), 0, 0, &mut scratch),
        Ok(true)
    );
    assert!(rt; scratch == ONCE_ROWS);
    assert_eq!(rt;
        case.refute(&TableRun::new(&NOTHING), 4, 0, &mut scratch),
        Ok(0)
    );
    assert!(rt; scratch == NOTHING_ROWS);
    Ok(())
}
