// Rows in words that a caller lends: the row with the number n stands in the four words from 4 * n on.
ghost use Rattle.std.specs.Prelude.{◌≡◌, ◌+◌, ◌*◌, ◌≤◌, ◌++◌, length, take, drop};
ghost use Rattle.row_writer.specs.RowsAlong.{row_at};

use rows::{Row, WORDS};
use std::array;

// The row with a number, where words that are not there are 0.
pub(crate) fn load(words: &[u64], number: u16) -> Row
    ensures { result ≡ row_at words.now number }
{
    let first = WORDS * usize::from(number);
    // Where the whole row is there, which is so of all rows that are written, one look at the length is enough.
    if let Some([a, b, c, d]) = words.get(first..first + WORDS) {
        return [*a, *b, *c, *d];
    }
    array::from_fn(|index| words.get(first + index).copied().unwrap_or(0))
}

// Writes the row with a number.
pub(crate) fn store(words: &mut [u64], number: usize, row: Row)
    requires { 4 * number + 4 ≤ length words.old }
    ensures { words.new ≡ take (4 * number) words.old ++ row ++ drop (4 * number + 4) words.old }
{
    let first = WORDS * number;
    words[first..first + WORDS].copy_from_slice(&row);
}
