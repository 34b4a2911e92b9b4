// Lists the file on standard input cut at every length, and with each of its bytes changed.
// The file `expected` beside src/ is a plain reading of the format that stdout was made by.
#![tactic(auto)]

use checker::listing_of;
use std::io::{Read, Write};

fn main(rt: HostRuntime) -> anyhow::Result<()> {
    let mut file = Vec::new(rt.alloc());
    rt.stdin().read_to_end(&mut file)?;
    cut(&rt, &file)?;
    change(&rt, &mut file)
}

fn cut(rt: &HostRuntime, file: &[u8]) -> anyhow::Result<()> {
    for length in 0..=file.len() {
        println!(rt; "cut at {length}")?;
        list(rt, &file[..length])?;
    }
    Ok(())
}

fn change(rt: &HostRuntime, file: &mut [u8]) -> anyhow::Result<()> {
    // By index: each turn changes one byte, lists the whole file and puts the byte back.
    for at in 0..file.len() {
        for mask in [1, 128, 255] {
            println!(rt; "byte {at} changed by {mask}")?;
            file[at] ^= mask;
            list(rt, file)?;
            file[at] ^= mask;
        }
    }
    Ok(())
}

fn list(rt: &HostRuntime, file: &[u8]) -> anyhow::Result<()> {
    let listing = listing_of(rt.alloc(), file)?;
    rt.stdout().write_all(&listing)?;
    Ok(())
}
