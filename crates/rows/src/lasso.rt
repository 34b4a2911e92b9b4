// The shape of a run that has room in a row: a stem, and a loop that is not empty.
ghost use Rattle.std.specs.Prelude.{◌≡◌, ◌+◌, ◌-◌, ◌<◌, ◌≤◌, ◌==◌, nat_lt};
ghost use Rattle.rows.specs.Row.{row_of};

use crate::words::{mask, only_at};
use crate::{POSITIONS, Row};

/// A stem and a loop that is not empty, together at most 256 positions.
// The masks of its rows are made once, with it.
#[derive(Clone, Copy)]
pub struct Lasso {
    pub(crate) stem: usize,
    pub(crate) loop_length: usize,
    // all positions, those before the last, and the last
    pub(crate) all: Row,
    pub(crate) inner: Row,
    pub(crate) last: Row,
    ghost turns: { 0 < loop_length },
    ghost fits: { stem + loop_length ≤ 256 },
    ghost whole: { all ≡ row_of (λ i. nat_lt i (stem + loop_length)) },
    ghost before: { inner ≡ row_of (λ i. nat_lt i (stem + loop_length - 1)) },
    ghost end: { last ≡ row_of (λ i. i == stem + loop_length - 1) },
}

impl Lasso {
    ghost use Rattle.std.specs.Option.{option_map};
    ghost use Rattle.rows.specs.Shape.{lasso_of, shape};

    /// The lasso with this stem and this loop, in positions, or none if the loop is empty or both have more than 256.
    pub fn new(stem: u16, loop_length: u16) -> Option<Lasso>
        ensures { option_map shape result ≡ lasso_of stem loop_length }
    {
        let stem = usize::from(stem);
        let loop_length = usize::from(loop_length);
        if loop_length == 0 || stem + loop_length > POSITIONS {
            return None;
        }
        let positions = stem + loop_length;
        Some(Lasso {
            stem,
            loop_length,
            all: mask(positions),
            inner: mask(positions - 1),
            last: only_at(true, positions - 1),
        })
    }

    /// The number of positions up to the loop's end: 1 to 256.
    pub fn positions(self) -> usize
        ensures { result ≡ self.stem + self.loop_length }
    {
        self.stem + self.loop_length
    }
}
