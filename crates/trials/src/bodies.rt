// What bodies leave of the scratch: the rows of the last refutation that was judged.
use crate::samples::{carry, refuted};
use cases::SealedCase;
use files::{Cause, Fault, PayloadFault, read_body};
use refusals::Refusal;
use rules::PublishedPage;
use std::alloc::Global;
use std::test::Fail;

// Two records that are held. □v0 at 255, by a stem of 2 and a loop of 254 where every atom is false; and v0 at 63, by a
// pulse that makes v0 true from 64 on, with a loop of one position there.
const HELD: [u8; 36] = [
    14, 0, 6, 0, 4, 0, 255, 0, 254, 0, 0, 0, 2, 0, 1, 0, 0, 0, 14, 0, 6, 0, 0, 0, 63, 0, 1, 0, 0,
    0, 64, 0, 1, 0, 1, 0,
];

// A word in which bit 63 alone is set, and one in which all are.
const LAST: u64 = 1 << 63;

const ALL: u64 = u64::MAX;

// The rows along the second of these runs, with a word of 9 behind them: v0 and □v0 are true at 64, ○v0 at 63 and 64,
// and the three implications at 0 to 64.
const HELD_ROWS: [u64; 25] = [
    0, 1, 0, 0, LAST, 1, 0, 0, ALL, 1, 0, 0, ALL, 1, 0, 0, 0, 1, 0, 0, ALL, 1, 0, 0, 9,
];

// How a body of these two records and a third one is read, and what this leaves.
fn read_three(
    heap: Global,
    case: &mut SealedCase,
    third: &[u8],
) -> Result<(Result<(), Fault>, [u64; 25]), Fail> {
    let mut body = Vec::new(heap);
    body.extend_from_slice(&HELD)?;
    body.extend_from_slice(third)?;
    let mut scratch = [9; 25];
    let answer = read_body(case, &PublishedPage, &body, 0, &mut scratch);
    Ok((answer, scratch))
}

// The third record is refused.
fn third_refused(cause: Cause) -> Result<(), Fault> {
    Err(Fault { cause, offset: 36 })
}

// Half a pulse.
#[test]
fn wrong_lengths_leave_the_rows(rt: HostRuntime) -> Result<(), Fail> {
    let heap = rt.alloc();
    let third = [10, 0, 6, 0, 4, 0, 0, 0, 1, 0, 0, 0, 0, 0];
    let (answer, scratch) = read_three(heap, &mut carry(heap)?, &third)?;
    let wrong_length = Cause::Payload(PayloadFault::WrongLength);
    assert_eq!(rt; answer, third_refused(wrong_length));
    assert!(rt; scratch == HELD_ROWS);
    Ok(())
}

// □v0 at position 1 of a table with one position.
#[test]
fn positions_past_the_run_leave_the_rows(rt: HostRuntime) -> Result<(), Fail> {
    let heap = rt.alloc();
    let third = [12, 0, 5, 0, 4, 0, 1, 0, 0, 0, 1, 0, 0, 0, 0, 0];
    let (answer, scratch) = read_three(heap, &mut carry(heap)?, &third)?;
    let past_run = Cause::Case(Refusal::PastRun);
    assert_eq!(rt; answer, third_refused(past_run));
    assert!(rt; scratch == HELD_ROWS);
    Ok(())
}

// 62 refutations are held before the body, so that its first two are the last ones.
#[test]
fn refutations_too_many_leave_the_rows(rt: HostRuntime) -> Result<(), Fail> {
    let heap = rt.alloc();
    let third = [12, 0, 5, 0, 4, 0, 0, 0, 0, 0, 1, 0, 0, 0, 0, 0];
    let (answer, scratch) = read_three(heap, &mut refuted(heap, 0..62)?, &third)?;
    let full = Cause::Case(Refusal::RefutationsFull);
    assert_eq!(rt; answer, third_refused(full));
    assert!(rt; scratch == HELD_ROWS);
    Ok(())
}

// □v0 where v0 is always true: the third record is judged, and all six formulas are true along its one position.
#[test]
fn judged_records_leave_their_own_rows(rt: HostRuntime) -> Result<(), Fail> {
    let heap = rt.alloc();
    let third = [12, 0, 5, 0, 4, 0, 0, 0, 0, 0, 1, 0, 1, 0, 0, 0];
    let (answer, scratch) = read_three(heap, &mut carry(heap)?, &third)?;
    let formula_true = Cause::Case(Refusal::FormulaTrue);
    assert_eq!(rt; answer, third_refused(formula_true));
    let rows = [
        1, 0, 0, 0, 1, 0, 0, 0, 1, 0, 0, 0, 1, 0, 0, 0, 1, 0, 0, 0, 1, 0, 0, 0, 9,
    ];
    assert!(rt; scratch == rows);
    Ok(())
}
