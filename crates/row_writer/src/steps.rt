// A run with the lasso that it has, and the rows of entries along it.
ghost use Rattle.std.specs.Prelude.{◌≡◌, ◌+◌, ◌≤◌, ◌↔◌, IsSome, IfSome};
ghost use Rattle.row_writer.specs.Steps.{entry_row};

use crate::store::load;
use formulas::Entry;
use rows::{EMPTY, Lasso, Row, always, implies, next};
use runs::RunSource;

// A source whose run has room in rows, with the run's stem and loop.
#[derive(Drop)]
pub(crate) struct RunRows<'a, R: RunSource> {
    source: &'a R,
    lasso: Lasso,
    ghost stem: { lasso.stem ≡ (R.meaning source.now).stem },
    ghost loops: { lasso.loop_length ≡ (R.meaning source.now).loop },
}

impl<'a, R: RunSource> RunRows<'a, R> {
    // The run of a source, if rows have room for it.
    pub(crate) fn new(source: &'a R) -> Option<RunRows<'a, R>>
        ensures room { IsSome result ↔ ((R.meaning source.now).stem + (R.meaning source.now).loop ≤ 256) }
        ensures same { IfSome result (λ run_rows. run_rows.source.now ≡ source.now) }
    {
        let lasso = Lasso::new(source.stem(), source.loop_length())?;
        Some(RunRows { source, lasso })
    }

    // The row of an entry, where those of its operands are in the words.
    pub(crate) fn row(&self, entry: Entry, words: &[u64]) -> Row
        ensures { result ≡ entry_row (R.meaning self.now.source.now) words.now entry }
    {
        match entry {
            Entry::False => EMPTY,
            Entry::Atom(atom) => self.source.row(atom),
            Entry::Implies(left, right) => {
                implies(load(words, left), load(words, right), self.lasso)
            }
            Entry::Next(part) => next(load(words, part), self.lasso),
            Entry::Always(part) => always(load(words, part), self.lasso),
        }
    }
}
