// What every run source tells.
ghost use Rattle.std.specs.Prelude.{◌≡◌};
ghost use Rattle.rows.specs.Row.{row_of};
ghost use Rattle.logic.specs.Run.{Run};
ghost use Rattle.runs.specs.SourceSays.{source_says};

use rows::{EMPTY, POSITIONS, Row, put};

/// A source means one looped run, and tells its stem, its loop, and the truth of the atoms 0 to 31 up to the loop's end.
/// Of any other atom and any later position it says false.
pub trait RunSource {
    ghost meaning: { Self → Run };

    /// The number of positions before the loop.
    fn stem(&self) -> u16
        ensures { result ≡ (meaning self.now).stem };

    /// The number of positions in the loop, at least 1.
    fn loop_length(&self) -> u16
        ensures { result ≡ (meaning self.now).loop };

    /// Whether an atom is true at a position, for the atoms 0 to 31 up to the loop's end; false for any other.
    fn says(&self, atom: u8, position: usize) -> bool
        ensures { result ≡ source_says (meaning self.now) atom position };

    /// What the source says of an atom at the positions 0 to 255. Position by position, unless a source has a faster way.
    fn row(&self, atom: u8) -> Row
        ensures { result ≡ row_of (source_says (meaning self.now) atom) }
    {
        let mut row = EMPTY;
        for position in 0..POSITIONS {
            let more = put(row, position, self.says(atom, position));
            row = more;
        }
        row
    }
}
