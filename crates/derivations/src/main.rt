// Well-known derivations in the axiom system, entered line by line as they are commonly written down, with every propositional step
// written out. It says of each how many lines it has and which number the last one has, and ends with status 1 at the
// first line that is not held under the number that is due.
#![tactic(auto)]

use derivation::Derivation;
use entering::{Ending, entered};
use rules::{DerivedPage, PublishedPage, RulePage};

mod always;
mod deduction;
mod derivation;
mod entering;
mod formula;
mod induction;
mod next;
mod steps;

// In the axioms and rules 1 to 7 alone.
const PUBLISHED: [Derivation; 12] = [
    steps::PROP,
    next::LTL2_BACK,
    induction::LTL3_BACK,
    induction::IND1,
    induction::IND2_WRITTEN_OUT,
    always::ALW_WRITTEN_OUT,
    always::SOM,
    always::CHAIN,
    next::NEXT_OF_BOTH,
    deduction::BY_NEX,
    deduction::BY_IND,
    steps::ALWAYS_B_WRITTEN_OUT,
];

// With rules that are derived before.
const DERIVED: [Derivation; 3] = [induction::IND2, always::ALW, steps::ALWAYS_B];

fn main(rt: HostRuntime) -> anyhow::Result<()> {
    println!(rt; "under the published page:")?;
    for derivation in &PUBLISHED {
        show(&rt, &PublishedPage, derivation)?;
    }
    println!(rt; "under the derived page:")?;
    let page = DerivedPage {
        below: PublishedPage,
    };
    for derivation in &DERIVED {
        show(&rt, &page, derivation)?;
    }
    Ok(())
}

// Enters a derivation into a case of its own, and says what is held then.
fn show<P: RulePage>(rt: &HostRuntime, page: &P, derivation: &Derivation) -> anyhow::Result<()> {
    let Ending { lines, last } = entered(rt.alloc(), page, derivation)?;
    println!(rt;
        "{}: {lines} lines, the last one held as {last}",
        derivation.name
    )?;
    Ok(())
}
