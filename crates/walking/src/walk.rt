// A run that is walked, and what formulas say along it.
use cases::SealedCase;
use formulas::Entry;
use refusals::Refusal;
use std::alloc::{AllocError, Global};

// The most formulas that a case has, and the most of them that it assumes.
pub(crate) const FORMULAS: u16 = 1024;

const ASSUMPTIONS: u16 = 16;

// The atoms at each position, in a word, and the position where the loop begins.
#[derive(Drop)]
pub(crate) struct Walk {
    pub stem: usize,
    pub words: Vec<u32>,
}

// What formulas say at each position, one formula behind the other.
#[derive(Drop)]
pub(crate) struct Truths {
    formulas: u16,
    positions: usize,
    said: Vec<bool>,
}

impl Truths {
    // How many formulas there are.
    pub(crate) fn formulas(&self) -> u16 {
        self.formulas
    }

    // What a formula says at a position. Past the loop's end it says nothing.
    pub(crate) fn says(&self, formula: u16, position: usize) -> bool {
        if position >= self.positions {
            return false;
        }
        let place = usize::from(formula)
            .wrapping_mul(self.positions)
            .wrapping_add(position);
        self.said.get(place).copied().unwrap_or(false)
    }

    // What is answered where a run is to refute a formula at a position, and this many refutations are held.
    pub(crate) fn refute(
        &self,
        case: &SealedCase,
        formula: u16,
        position: u16,
        held: u16,
    ) -> Result<u16, Refusal> {
        if let Some((place, at)) = self.first_false(case) {
            return Err(Refusal::AssumptionFalse {
                place,
                position: at,
            });
        }
        if self.says(formula, usize::from(position)) {
            return Err(Refusal::FormulaTrue);
        }
        Ok(held)
    }

    // The place of the first assumption that is false anywhere, with the first position where it is.
    fn first_false(&self, case: &SealedCase) -> Option<(u16, u16)> {
        for place in 0..ASSUMPTIONS {
            if let Some(formula) = case.assumption(place)
                && let Some(position) = self.fails_at(formula)
            {
                return Some((place, position));
            }
        }
        None
    }

    // The first position where a formula is false.
    fn fails_at(&self, formula: u16) -> Option<u16> {
        (0..self.positions)
            .find(|position| !self.says(formula, *position))
            .and_then(|position| u16::try_from(position).ok())
    }
}

impl Walk {
    // What all formulas of a case say. Operands come before what they are operands of.
    pub(crate) fn judge(&self, heap: Global, case: &SealedCase) -> Result<Truths, AllocError> {
        let positions = self.words.len();
        let mut truths = Truths {
            formulas: 0,
            positions,
            said: Vec::new(heap),
        };
        for number in 0..FORMULAS {
            if let Some(entry) = case.entry(number) {
                truths.formulas = truths.formulas.wrapping_add(1);
                for position in 0..positions {
                    let truth = self.holds(&truths, entry, position);
                    truths.said.push(truth)?;
                }
            }
        }
        Ok(truths)
    }

    fn holds(&self, truths: &Truths, entry: Entry, position: usize) -> bool {
        match entry {
            Entry::False => false,
            Entry::Atom(atom) => self.has(atom, position),
            Entry::Implies(left, right) => {
                !truths.says(left, position) || truths.says(right, position)
            }
            Entry::Next(part) => truths.says(part, self.following(position)),
            Entry::Always(part) => self.keeps(truths, part, position),
        }
    }

    fn has(&self, atom: u8, position: usize) -> bool {
        let word = self.words.get(position).copied().unwrap_or(0);
        word.checked_shr(u32::from(atom)).unwrap_or(0) % 2 == 1
    }

    // The loop's last position is followed by its first.
    fn following(&self, position: usize) -> usize {
        let next = position.wrapping_add(1);
        if next < self.words.len() {
            next
        } else {
            self.stem
        }
    }

    // Whether a formula holds from a position on: as many steps as there are positions meet all that follow.
    fn keeps(&self, truths: &Truths, formula: u16, position: usize) -> bool {
        let mut at = position;
        for _ in 0..self.words.len() {
            if !truths.says(formula, at) {
                return false;
            }
            at = self.following(at);
        }
        true
    }
}
