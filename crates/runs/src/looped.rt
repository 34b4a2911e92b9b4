// Runs that are read off up to the loop's end, whatever says which atoms are true there.
ghost use Rattle.std.specs.Prelude.{◌≡◌, ℕ, ◌<◌, Bool, true, ⊤};
ghost use Rattle.rows.specs.Row.{row_up_to};
ghost use Rattle.runs.specs.Looping.{looped};

use crate::source::RunSource;
use rows::{EMPTY, POSITIONS, Row, put};
use std::alloc::AllocError;
use std::cmp::min;

// The number of atoms.
pub(crate) const ATOMS: u16 = 32;

/// What says which atoms are true at which positions up to a loop's end.
pub trait Positions {
    // Whether a run may have a loop of this length.
    ghost fits: { ℕ → Self → Bool };

    // The truth of an atom at a position.
    ghost truths: { Self → ℕ → ℕ → Bool };

    /// Whether an atom, 0 to 31, is true at a position.
    fn is_true(&self, atom: u8, position: usize) -> bool
        requires atom { atom < 32 }
        requires fits { (loop : ℕ) × (fits loop self.now ≡ true) }
        ensures { result ≡ truths self.now atom position };

    /// The truths of an atom in a row, up to a position. One by one, where there is no faster way.
    fn row(&self, atom: u8, end: usize) -> Row
        requires atom { atom < 32 }
        requires fits { (loop : ℕ) × (fits loop self.now ≡ true) }
        ensures { result ≡ row_up_to end (truths self.now atom) }
    {
        let mut row = EMPTY;
        // A name for each longer row: the check proves no call whose result replaces the row that it reads.
        for position in 0..min(end, POSITIONS) {
            let more = put(row, position, self.is_true(atom, position));
            row = more;
        }
        row
    }
}

/// A run that is read off the positions up to its loop's end.
pub struct Looped<P: Positions> {
    pub(crate) stem: u16,
    pub(crate) loop_length: u16,
    pub(crate) positions: P,
    ghost turns: { 0 < loop_length },
    ghost fitting: { P.fits loop_length positions ≡ true },
}

// By hand: the check refuses a derive over these ghost fields (`derive-over-ghost-field`).
impl<P: Positions + Copy> Clone for Looped<P> {
    ghost is_clone = { λ run copy. copy ≡ run };

    ghost is_infallible = { λ _. ⊤ };

    fn clone(&self) -> Result<Self, AllocError> {
        Ok(*self)
    }
}

impl<P: Positions + Copy> Copy for Looped<P> {}

impl<P: Positions> Looped<P> {
    // The run that has one position, over and over.
    pub(crate) fn of_one_position(positions: P) -> Self
        requires { P.fits 1 positions ≡ true }
        ensures stem { result.stem ≡ 0 }
        ensures loops { result.loop_length ≡ 1 }
        ensures positions { result.positions ≡ positions }
    {
        Looped {
            stem: 0,
            loop_length: 1,
            positions,
        }
    }
}

impl<P: Positions> RunSource for Looped<P> {
    ghost meaning = { λ run. looped run.stem run.loop_length (P.truths run.positions) };

    fn stem(&self) -> u16 {
        self.stem
    }

    fn loop_length(&self) -> u16 {
        self.loop_length
    }

    #[tactic(auto, using(crate::proofs::SourceSays::source_says_tested, std::proofs::lemmas::Bool::Decides::nat_tests))]
    fn says(&self, atom: u8, position: usize) -> bool {
        u16::from(atom) < ATOMS
            && position < usize::from(self.stem) + usize::from(self.loop_length)
            && self.positions.is_true(atom, position)
    }

    fn row(&self, atom: u8) -> Row {
        if u16::from(atom) >= ATOMS {
            return EMPTY;
        }
        let end = usize::from(self.stem) + usize::from(self.loop_length);
        self.positions.row(atom, end)
    }
}
