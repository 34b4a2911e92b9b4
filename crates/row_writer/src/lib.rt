// The rows of all formulas along a run, in words that a caller lends.
#![tactic(auto)]

ghost use Rattle.std.specs.Prelude.{◌≡◌, length};
ghost use Rattle.formulas.specs.Listed.{formulas_of};
ghost use Rattle.row_writer.specs.RowsAlong.{rows_fit, rows_after, row_says};

use formulas::FormulaList;
use rows::{WORDS, bit_at};
use runs::RunSource;
use steps::RunRows;
use store::{load, store};

mod searching;
mod steps;
mod store;

pub use searching::first_false;

/// Writes the rows of all formulas along a run to the front of the words, four words each, by rising number, and answers
/// whether there was room: a run has at most 256 positions, and each formula takes four words. Without room all words stay.
pub fn write_rows<R: RunSource>(formulas: &FormulaList, source: &R, words: &mut [u64]) -> bool
    ensures answer { result ≡ rows_fit (R.meaning source.now) (formulas_of formulas.now) (length words.old) }
    ensures after { words.new ≡ rows_after (R.meaning source.now) (formulas_of formulas.now) words.old }
{
    let Some(run_rows) = RunRows::new(source) else {
        return false;
    };
    let entries = formulas.entries();
    if words.len() < WORDS * entries.len() {
        return false;
    }
    for (number, entry) in entries.iter().enumerate() {
        let row = run_rows.row(*entry, words);
        store(words, number, row);
    }
    true
}

/// What the row of a formula says of a position. Words that are not there say false.
pub fn truth_at(words: &[u64], formula: u16, position: usize) -> bool
    ensures { result ≡ row_says words.now formula position }
{
    bit_at(load(words, formula), position)
}
