// A full case: 1,024 formulas, 16 assumptions, and 64 refutations by runs of 256 positions, once tables and once pulses.
// It says what is held, and on standard error how long it took to judge and hold the refutations.
#![tactic(auto)]

use cases::{Counts, OpenCase, SealedCase};
use drawing::{pulse_bytes, table_bytes};
use runs::{PulseRun, TableRun};
use std::alloc::{AllocError, Global};
use std::time::{Duration, Instant};

mod drawing;

fn main(rt: HostRuntime) -> anyhow::Result<()> {
    refute_by_tables(&rt)?;
    refute_by_pulses(&rt)
}

fn refute_by_tables(rt: &HostRuntime) -> anyhow::Result<()> {
    let heap = rt.alloc();
    let mut runs = Vec::new(heap);
    for number in 0..64 {
        runs.push((4 * number, table_bytes(heap, 4 * number)?))?;
    }
    let mut case = full_case(heap)?;
    let mut scratch = vec![in heap; 0u64; 4096]?;
    let start = Instant::now(rt)?;
    for (position, bytes) in &runs {
        let _ = case.refute(&TableRun::new(bytes), 1023, *position, &mut scratch);
    }
    report(rt, "tables", start.elapsed(rt)?, case.counts())
}

fn refute_by_pulses(rt: &HostRuntime) -> anyhow::Result<()> {
    let heap = rt.alloc();
    let mut runs = Vec::new(heap);
    for number in 0..64 {
        runs.push((4 * number, pulse_bytes(heap, 4 * number)?))?;
    }
    let mut case = full_case(heap)?;
    let mut scratch = vec![in heap; 0u64; 4096]?;
    let start = Instant::now(rt)?;
    for (position, bytes) in &runs {
        let _ = case.refute(&PulseRun::new(bytes), 1023, *position, &mut scratch);
    }
    report(rt, "pulses", start.elapsed(rt)?, case.counts())
}

fn report(rt: &HostRuntime, by: &str, took: Duration, counts: Counts) -> anyhow::Result<()> {
    eprintln!(rt; "{by}: {} microseconds", took.as_micros())?;
    println!(rt;
        "{by}: formulas {}, assumptions {}, refutations {}",
        counts.formulas, counts.assumptions, counts.refutations
    )?;
    Ok(())
}

// False, the 32 atoms, and 974 formulas that share what stands before them; then 16 formulas A → A, which are assumed,
// and at last one that is false throughout.
fn full_case(heap: Global) -> Result<SealedCase, AllocError> {
    let mut case = OpenCase::new(heap)?;
    let _ = case.form(0, 0, 0);
    for atom in 0..32 {
        let _ = case.form(1, atom, 0);
    }
    for number in 33..1007 {
        let _ = match number % 4 {
            0 => case.form(3, number - 1, 0),
            1 => case.form(4, number - 2, 0),
            _ => case.form(2, number - 1, number - 32),
        };
    }
    for number in 1007..1023 {
        let _ = case.form(2, number - 64, number - 64);
        let _ = case.assume(number);
    }
    let _ = case.form(2, 1022, 0);
    Ok(case.seal())
}
