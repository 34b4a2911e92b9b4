// Reads a case file from standard input and writes its listing to standard output.
#![tactic(auto)]

use checker::{INPUT_MOST, listing_of};
use std::io::{Read, Write};

fn main(rt: HostRuntime) -> anyhow::Result<()> {
    let heap = rt.alloc();
    let mut input = Vec::new(heap);
    rt.stdin().take(INPUT_MOST as u64).read_to_end(&mut input)?;
    let listing = listing_of(heap, &input)?;
    rt.stdout().write_all(&listing)?;
    Ok(())
}
