// The words of rows: masks, what is common or not, a shift by one position, and where a row ends.
ghost use Rattle.std.specs.Prelude.{◌≡◌, ◌+◌, ◌-◌, ◌<◌, not, ◌&&◌, ◌||◌, ◌==◌, nat_lt, nat_le};
ghost use Rattle.rows.specs.Row.{low_ones, bit, row_of, word_behind, word_moved, Ends};

use crate::{BITS, Row, WORDS};
use std::array;

// The word whose `n` lowest bits are set, or all where it has no more.
fn ones(n: usize) -> u64
    ensures { result ≡ low_ones n }
{
    if n < BITS { (1 << n) - 1 } else { u64::MAX }
}

/// The row that is true at each position below `n`.
pub fn mask(n: usize) -> Row
    ensures { result ≡ row_of (λ i. nat_lt i n) }
{
    array::from_fn(|index| ones(n.saturating_sub(BITS * index)))
}

/// Where `a` and `b` are true.
pub fn and(a: Row, b: Row) -> Row
    ensures { result ≡ row_of (λ i. bit a i && bit b i) }
{
    array::from_fn(|index| a[index] & b[index])
}

/// Where `a` or `b` is true.
pub fn or(a: Row, b: Row) -> Row
    ensures { result ≡ row_of (λ i. bit a i || bit b i) }
{
    array::from_fn(|index| a[index] | b[index])
}

// Where `a` is true and `b` is not.
pub(crate) fn minus(a: Row, b: Row) -> Row
    ensures { result ≡ row_of (λ i. bit a i && not (bit b i)) }
{
    array::from_fn(|index| a[index] & !b[index])
}

// The row that is true at one position alone, if `truth` is.
pub(crate) fn only_at(truth: bool, position: usize) -> Row
    ensures { result ≡ row_of (λ j. truth && j == position) }
{
    array::from_fn(|index| {
        if truth && index == position / BITS {
            1 << (position % BITS)
        } else {
            0
        }
    })
}

// One past the last position where `row` is true, or 0.
pub(crate) fn end(row: Row) -> usize
    ensures { Ends row result }
{
    for index in (0..WORDS).rev() {
        if row[index] != 0 {
            return BITS * (index + 1) - row[index].leading_zeros() as usize;
        }
    }
    0
}

// Where `a` is true one position on.
pub(crate) fn earlier(a: Row) -> Row
    ensures { result ≡ row_of (λ i. bit a (i + 1)) }
{
    array::from_fn(|index| {
        let above = a.get(index + 1).copied().unwrap_or(0);
        (a[index] >> 1) | (above << (BITS - 1))
    })
}

// The word of a row that stands `words` below the one at an index, or 0 where there is none.
fn word_below(a: Row, index: usize, words: usize) -> u64
    requires { index < 4 }
    ensures { result ≡ word_behind a words index }
{
    if words <= index { a[index - words] } else { 0 }
}

// One word of a row that is moved up by `words` words and `bits` bits. Down by one bit first, and then by 63 at most.
#[tactic(auto, unfolding(crate::specs::Row::word_moved))]
fn moved_word(a: Row, index: usize, words: usize, bits: usize) -> u64
    requires there { index < 4 }
    requires within { bits < 64 }
    ensures { result ≡ word_moved a words bits index }
{
    let low = word_below(a, index, words) << bits;
    let high = (word_below(a, index, words.saturating_add(1)) >> 1) >> (BITS - 1 - bits);
    low | high
}

/// Where `a` is true `places` positions before.
pub fn later(a: Row, places: usize) -> Row
    ensures { result ≡ row_of (λ i. nat_le places i && bit a (i - places)) }
{
    array::from_fn(|index| moved_word(a, index, places / BITS, places % BITS))
}
