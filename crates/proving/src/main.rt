// A full case of lines: 512 tautologies over 1,000 formulas that share their parts, of twelve prime parts each.
// It says what is held, and on standard error how long it took to judge and hold the lines.
#![tactic(auto)]

use cases::{Line, OpenCase, SealedCase};
use rules::{DerivedPage, PublishedPage};
use std::alloc::{AllocError, Global};
use std::time::Instant;

// Each line states the last formula, by taut.
const TAUTOLOGY: Line = Line {
    rule: 1,
    formula: 999,
    first: None,
    second: None,
};

fn main(rt: HostRuntime) -> anyhow::Result<()> {
    let mut case = full_case(rt.alloc())?;
    let page = DerivedPage {
        below: PublishedPage,
    };
    let start = Instant::now(&rt)?;
    for _ in 0..512 {
        let _ = case.line(&page, TAUTOLOGY);
    }
    let took = start.elapsed(&rt)?;
    eprintln!(rt; "tautologies: {} microseconds", took.as_micros())?;
    let counts = case.counts();
    println!(rt; "formulas {}, lines {}", counts.formulas, counts.lines)?;
    Ok(())
}

// Twelve atoms, and 987 implications each from the formula before, over the one twelve before it; then the last one
// implies itself.
fn full_case(heap: Global) -> Result<SealedCase, AllocError> {
    let mut case = OpenCase::new(heap)?;
    for atom in 0..12 {
        let _ = case.form(1, atom, 0);
    }
    for number in 12..999 {
        let _ = case.form(2, number - 1, number - 12);
    }
    let _ = case.form(2, 998, 998);
    Ok(case.seal())
}
