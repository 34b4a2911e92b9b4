// The search for a formula that is false somewhere, in the rows.
ghost use Rattle.std.specs.Prelude.{◌≡◌};
ghost use Rattle.rows.specs.Row.{true_from};
ghost use Rattle.row_writer.specs.RowsAlong.{row_says};
ghost use Rattle.row_writer.specs.Searching.{first_failing};

use crate::store::load;
use crate::truth_at;
use rows::is_true_below;

// Whether the row of a formula is true at each position below `positions`.
fn is_never_false(words: &[u64], formula: u16, positions: usize) -> bool
    ensures { result ≡ true_from positions 0 (row_says words.now formula) }
{
    is_true_below(load(words, formula), positions)
}

/// Of the formulas with these numbers, the place of the first that is false somewhere below `positions`, and the first
/// position where it is; none if all of them are true at each of these positions.
pub fn first_false(words: &[u64], formulas: &[u16], positions: usize) -> Option<(usize, usize)>
    ensures { result ≡ first_failing (row_says words.now) positions 0 formulas.now }
{
    let mut found = None;
    // The label leaves both loops at once.
    'search: for (place, formula) in formulas.iter().enumerate() {
        if is_never_false(words, *formula, positions) {
            continue;
        }
        for position in 0..positions {
            if !truth_at(words, *formula, position) {
                found = Some((place, position));
                break 'search;
            }
        }
    }
    found
}
