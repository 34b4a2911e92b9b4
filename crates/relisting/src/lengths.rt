// Inputs of each length, listed into a buffer that is always long enough, and into one that is a byte too short.
use checker::{Unwritten, list_into};
use listing::LISTING_MOST;
use std::alloc::{AllocError, Global};

// A form record of atom 0, which any file may have any number of times.
const RECORD: [u8; 9] = [5, 0, 1, 0, 1, 0, 0, 0, 0];

// The file, and such records behind it: more than a file may have.
pub(crate) fn longest(heap: Global, file: &[u8]) -> Result<Vec<u8>, AllocError> {
    let mut input = Vec::new(heap);
    input.extend_from_slice(file)?;
    for _ in 0..2000 {
        input.extend_from_slice(&RECORD)?;
    }
    Ok(input)
}

// How many inputs there were, how many of them were listed, and how many were told that a byte was too few.
#[derive(Drop)]
pub(crate) struct Answers {
    inputs: u32,
    listed: u32,
    too_short: u32,
}

impl Answers {
    pub(crate) fn new() -> Answers {
        Answers {
            inputs: 0,
            listed: 0,
            too_short: 0,
        }
    }

    // Counts the answers for the input's first bytes, of each length from the least to the most.
    pub(crate) fn count(
        &mut self,
        heap: Global,
        input: &[u8],
        least: usize,
        most: usize,
    ) -> Result<(), AllocError> {
        let mut buffer = vec![in heap; 0u8; LISTING_MOST]?;
        for length in least..=most {
            let start = &input[..length.min(input.len())];
            self.inputs = self.inputs.wrapping_add(1);
            if let Ok(needed) = list_into(heap, start, &mut buffer) {
                self.listed = self.listed.wrapping_add(1);
                let room = needed.saturating_sub(1).min(buffer.len());
                let answer = list_into(heap, start, &mut buffer[..room]);
                let is_told = answer == Err(Unwritten::BufferTooShort);
                self.too_short = self.too_short.wrapping_add(u32::from(is_told));
            }
        }
        Ok(())
    }

    pub(crate) fn report(&self, rt: &HostRuntime) -> anyhow::Result<()> {
        println!(rt;
            "inputs {}, listed {}, a byte too short {}",
            self.inputs, self.listed, self.too_short
        )?;
        Ok(())
    }
}
