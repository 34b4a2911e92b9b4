// Runs of a supply that comes on late, by a run source of this crate: it has the three calls that one is asked for, and its rows
// are the default's.
#![tactic(auto)]

use cases::{OpenCase, SealedCase};
use source::Supply;
use std::alloc::{AllocError, Global};

mod source;

// The formulas of the case, by number.
const ON: u16 = 0;

const ALWAYS_ON: u16 = 1;

const STAYS_ON: u16 = 2;

const ON_NEXT: u16 = 3;

fn main(rt: HostRuntime) -> anyhow::Result<()> {
    let mut case = supplied_case(rt.alloc())?;
    let mut scratch = [0; 16];
    let late = Supply { first: 70 };
    // beside a word's end, and at the loop
    for position in [0, 62, 63, 64, 69, 70] {
        let on = case.truth(&late, ON, position, &mut scratch);
        let always_on = case.truth(&late, ALWAYS_ON, position, &mut scratch);
        let on_next = case.truth(&late, ON_NEXT, position, &mut scratch);
        println!(rt; "at {position}: on {on:?}, always on {always_on:?}, on next {on_next:?}")?;
    }
    let before = case.refute(&late, ON, 69, &mut scratch);
    let next_before = case.refute(&late, ON_NEXT, 68, &mut scratch);
    let next_at = case.refute(&late, ON_NEXT, 69, &mut scratch);
    let behind = case.refute(&late, ON, 70, &mut scratch);
    println!(rt; "refuted: {before:?}, {next_before:?}; not refuted: {next_at:?}, {behind:?}")?;
    let last = case.truth(&Supply { first: 255 }, ON, 255, &mut scratch);
    let too_late = case.truth(&Supply { first: 256 }, ON, 256, &mut scratch);
    println!(rt; "from 255 on: {last:?}; from 256 on: {too_late:?}")?;
    Ok(())
}

// A case that assumes of a supply which is on that it stays so.
fn supplied_case(heap: Global) -> Result<SealedCase, AllocError> {
    let mut case = OpenCase::new(heap)?;
    let _ = case.form(1, 0, 0);
    let _ = case.form(4, ON, 0);
    let _ = case.form(2, ON, ALWAYS_ON);
    let _ = case.form(3, ON, 0);
    let _ = case.assume(STAYS_ON);
    Ok(case.seal())
}
