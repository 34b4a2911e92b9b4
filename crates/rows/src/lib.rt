// Rows: the truth of one formula at the positions 0 to 255 of a run, in four words of 64 bits, lowest first.
#![tactic(auto)]

ghost use Rattle.std.specs.Prelude.{◌≡◌, ◌+◌, ◌-◌, min, not, ◌&&◌, ◌||◌, ◌==◌};
ghost use Rattle.rows.specs.Row.{bit, row_of, row_up_to, true_from, after};

use words::{earlier, end, minus, only_at};

mod lasso;
mod words;

pub use lasso::Lasso;
pub use words::{and, later, mask, or};

/// The number of words in a row.
pub const WORDS: usize = 4;

// The number of bits in a word.
pub(crate) const BITS: usize = 64;

/// The number of positions in a row: 256.
pub const POSITIONS: usize = WORDS * BITS;

/// The truth of one formula at the positions 0 to 255: bit i mod 64 of word i div 64.
pub type Row = [u64; WORDS];

/// The row that is nowhere true.
pub const EMPTY: Row = [0; WORDS];

/// Whether a row is true at a position. After position 255 it is not.
pub fn bit_at(row: Row, position: usize) -> bool
    ensures { result ≡ bit row position }
{
    let word = row.get(position / BITS).copied().unwrap_or(0);
    (word >> (position % BITS)) & 1 == 1
}

/// The row that is true where `row` is, and at `position` if `truth` is. A position above 255 changes nothing.
pub fn put(row: Row, position: usize, truth: bool) -> Row
    ensures { result ≡ row_of (λ j. bit row j || (truth && j == position)) }
{
    or(row, only_at(truth, position))
}

/// Where `a` is false or `b` is true, up to the loop's end.
pub fn implies(a: Row, b: Row, lasso: Lasso) -> Row
    ensures { result ≡ row_up_to (lasso.stem + lasso.loop_length) (λ i. not (bit a i) || bit b i) }
{
    minus(lasso.all, minus(a, b))
}

/// Whether a row is true at each position below `positions`. Of more than 256 positions it is not.
pub fn is_true_below(row: Row, positions: usize) -> bool
    ensures { result ≡ true_from positions 0 (bit row) }
{
    positions <= POSITIONS && end(minus(mask(positions), row)) == 0
}

/// Where `a` is true at the next position, up to the loop's end. The loop's first position follows its last.
pub fn next(a: Row, lasso: Lasso) -> Row
    ensures { result ≡ row_up_to (lasso.stem + lasso.loop_length) (λ i. bit a (after lasso.stem (lasso.stem + lasso.loop_length) i)) }
{
    let row = and(lasso.inner, earlier(a));
    if bit_at(a, lasso.stem) {
        or(row, lasso.last)
    } else {
        row
    }
}

/// Where `a` is true from there on, through the whole loop.
pub fn always(a: Row, lasso: Lasso) -> Row
    ensures { result ≡ row_up_to (lasso.stem + lasso.loop_length) (λ i. true_from (lasso.stem + lasso.loop_length - min i lasso.stem) (min i lasso.stem) (bit a)) }
{
    let fails = end(minus(lasso.all, a));
    if fails > lasso.stem {
        EMPTY
    } else {
        minus(lasso.all, mask(fails))
    }
}
