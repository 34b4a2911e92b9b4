// The two stages of a case: it takes assumptions while it is open, and sealing it ends that.
// Edits of this program that do not compile, as they must not: `sealed.assume(0)` and `open.assume(0)` behind the seal,
// and `line` and `refute` on an open case.
#![tactic(auto)]

use cases::OpenCase;

fn main(rt: HostRuntime) -> anyhow::Result<()> {
    let mut open = OpenCase::new(rt.alloc())?;
    let atom = open.form(1, 0, 0);
    let assumed = open.assume(0);
    let mut sealed = open.seal();
    let next = sealed.form(3, 0, 0);
    let counts = sealed.counts();
    println!(rt; "atom {atom:?}, assumed {assumed:?}, next {next:?}")?;
    println!(rt;
        "formulas {}, assumptions {}",
        counts.formulas, counts.assumptions
    )?;
    Ok(())
}
