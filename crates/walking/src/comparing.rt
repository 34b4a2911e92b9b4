// What was walked, beside what a case answers and writes.
use crate::walk::{FORMULAS, Truths};
use cases::SealedCase;
use runs::RunSource;

// How many positions a row has, and how many of them a word has.
const POSITIONS: u16 = 256;

const WORD: usize = 64;

// How many answers, and how many bits of rows, were compared, and how many of each differ.
#[derive(Drop)]
pub(crate) struct Tally {
    pub answers: u64,
    pub different_answers: u64,
    pub bits: u64,
    pub different_bits: u64,
}

impl Tally {
    pub(crate) fn new() -> Tally {
        Tally {
            answers: 0,
            different_answers: 0,
            bits: 0,
            different_bits: 0,
        }
    }

    // Compares the answers for every formula at every position, and the row that the last of them has left.
    pub(crate) fn compare<R: RunSource>(
        &mut self,
        case: &SealedCase,
        source: &R,
        truths: &Truths,
        scratch: &mut [u64],
    ) {
        let positions = source.stem().wrapping_add(source.loop_length());
        for formula in 0..FORMULAS {
            if case.entry(formula).is_some() {
                for position in 0..positions {
                    let walked = truths.says(formula, usize::from(position));
                    let same = case.truth(source, formula, position, scratch) == Ok(walked);
                    self.answers = self.answers.wrapping_add(1);
                    self.different_answers = self.different_answers.wrapping_add(u64::from(!same));
                }
                self.compare_row(formula, truths, scratch);
            }
        }
    }

    // Compares the bits of one row. Those past the loop's end are not set.
    fn compare_row(&mut self, formula: u16, truths: &Truths, scratch: &[u64]) {
        for position in 0..POSITIONS {
            let position = usize::from(position);
            let same = bit(scratch, formula, position) == truths.says(formula, position);
            self.bits = self.bits.wrapping_add(1);
            self.different_bits = self.different_bits.wrapping_add(u64::from(!same));
        }
    }
}

// The bit of a position in the four words of a formula's row.
fn bit(scratch: &[u64], formula: u16, position: usize) -> bool {
    let place = usize::from(formula)
        .wrapping_mul(4)
        .wrapping_add(position / WORD);
    let word = scratch.get(place).copied().unwrap_or(0);
    (word >> (position % WORD)) % 2 == 1
}
