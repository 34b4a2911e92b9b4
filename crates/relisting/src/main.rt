// Lists the file on standard input over and over, by each call of the checker, and inputs of each length near the limits.
// No clause says that a call gives back the memory that it takes: the gate runs this with little memory (`.ci/memory`), so
// that where some is kept, a later call finds none.
#![tactic(auto)]

use again::{by_list_file, by_list_into, by_listing_of};
use checker::listing_of;
use lengths::{Answers, longest};
use std::io::Read;

mod again;
mod lengths;

fn main(rt: HostRuntime) -> anyhow::Result<()> {
    let heap = rt.alloc();
    let mut file = Vec::new(heap);
    rt.stdin().read_to_end(&mut file)?;
    let listing = listing_of(heap, &file)?;
    println!(rt;
        "list_file: the same {} times",
        by_list_file(heap, &file, &listing)?
    )?;
    println!(rt;
        "list_into: the same {} times",
        by_list_into(heap, &file, &listing)?
    )?;
    println!(rt;
        "listing_of: the same {} times",
        by_listing_of(heap, &file, &listing)
    )?;
    let input = longest(heap, &file)?;
    let mut answers = Answers::new();
    answers.count(heap, &input, 0, 256)?;
    answers.count(heap, &input, 16_300, 16_450)?;
    answers.report(&rt)
}
