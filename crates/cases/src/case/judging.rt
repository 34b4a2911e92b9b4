// What a run says of the formulas of a case, and the runs that refute one.
ghost use Rattle.std.specs.Prelude.{◌≡◌, ◌+◌};

use crate::case::Case;
use crate::stage::{Sealed, Stage};
use model::Refutation;
use refusals::Refusal;
use row_writer::{first_false, truth_at, write_rows};
use rows::{POSITIONS, WORDS};
use runs::RunSource;

impl<S: Stage> Case<S> {
    ghost use Rattle.std.specs.Prelude.{◌≡◌, length, Ok};
    ghost use Rattle.row_writer.specs.RowsAlong.{with_rows};
    ghost use Rattle.model.specs.Judging.{check, truth, truth_scratch, judge};
    ghost use Rattle.cases.specs.Model.{modelled};

    /// The truth of a formula at a position of a run. The scratch words then hold the rows of all formulas, four words each;
    /// the words after these stay.
    /// Refuses, in this order, and leaves the scratch as it was: `NotEntered` (4); `RunTooLong` (10), of stem and loop above
    /// 256; `PastRun` (11), of a position at or past their sum; `ScratchTooShort` (12), of fewer than 4 words for each formula.
    pub fn truth<R: RunSource>(
        &self,
        source: &R,
        formula: u16,
        position: u16,
        scratch: &mut [u64],
    ) -> Result<bool, Refusal>
        ensures answer { result ≡ (truth (modelled self.now) (R.meaning source.now) formula position (length scratch.old)).answer }
        ensures words { scratch.new ≡ truth_scratch (modelled self.now) (R.meaning source.now) formula position scratch.old }
    {
        self.check(source, formula, position, scratch.len())?;
        // after the checks there is room, so that the answer is always yes
        write_rows(&self.formulas, source, scratch);
        Ok(truth_at(scratch, formula, usize::from(position)))
    }

    // Whether a formula can be judged at a position of a run, where there are this many scratch words.
    #[tactic(auto, using(model::proofs::Checks::check_unknown, model::proofs::Checks::check_long, model::proofs::Checks::check_past, model::proofs::Checks::check_short, model::proofs::Checks::check_passes), unfolding(crate::specs::Model::modelled))]
    fn check<R: RunSource>(
        &self,
        source: &R,
        formula: u16,
        position: u16,
        words: usize,
    ) -> Result<(), Refusal>
        ensures { result ≡ check (modelled self.now) (R.meaning source.now) formula position words }
    {
        let formulas = self.formulas.len();
        let positions = positions(source);
        if usize::from(formula) >= formulas {
            return Err(Refusal::NotEntered);
        }
        if positions > POSITIONS {
            return Err(Refusal::RunTooLong);
        }
        if usize::from(position) >= positions {
            return Err(Refusal::PastRun);
        }
        // by division, which no bound on the formulas is needed for
        if words / WORDS < formulas {
            return Err(Refusal::ScratchTooShort);
        }
        Ok(())
    }

    // Whether a run refutes a formula at a position, once the checks have passed, so that there is room for the rows.
    // The scratch words then hold all of them.
    fn judge<R: RunSource>(
        &self,
        source: &R,
        formula: u16,
        position: u16,
        scratch: &mut [u64],
    ) -> Result<(), Refusal>
        requires { check (modelled self.now) (R.meaning source.now) formula position (length scratch.old) ≡ Ok tt }
        ensures answer { result ≡ judge (modelled self.now) (R.meaning source.now) formula position }
        ensures words { scratch.new ≡ with_rows (R.meaning source.now) (modelled self.now).formulas scratch.old }
    {
        write_rows(&self.formulas, source, scratch);
        let positions = positions(source);
        if let Some((place, at)) = first_false(scratch, self.assumptions.as_slice(), positions) {
            return Err(Refusal::AssumptionFalse {
                place: place as u16,
                position: at as u16,
            });
        }
        if truth_at(scratch, formula, usize::from(position)) {
            return Err(Refusal::FormulaTrue);
        }
        Ok(())
    }
}

impl Case<Sealed> {
    ghost use Rattle.std.specs.Prelude.{◌≡◌, length};
    ghost use Rattle.model.specs.Judging.{refute, refute_scratch};
    ghost use Rattle.cases.specs.Model.{sealed};

    /// Holds that a run which keeps the assumptions breaks a formula at a position, and answers the refutation's number,
    /// from 0. The scratch words then hold the rows of all formulas, also where it is refused 13 or 14.
    /// Refuses, in this order: 4, 10, 11 and 12 as `truth`; `RefutationsFull` (15), where 64 are held; `AssumptionFalse` (13),
    /// with the place of the first assumption that is false somewhere and the first position where it is; `FormulaTrue` (14).
    pub fn refute<R: RunSource>(
        &mut self,
        source: &R,
        formula: u16,
        position: u16,
        scratch: &mut [u64],
    ) -> Result<u16, Refusal>
        ensures answer { result ≡ (refute (sealed self.old) (R.meaning source.now) formula position (length scratch.old)).answer }
        ensures after { sealed self.new ≡ (refute (sealed self.old) (R.meaning source.now) formula position (length scratch.old)).after }
        ensures words { scratch.new ≡ refute_scratch (sealed self.old) (R.meaning source.now) formula position scratch.old }
    {
        self.check(source, formula, position, scratch.len())?;
        if self.stage.refutations.is_full() {
            return Err(Refusal::RefutationsFull);
        }
        self.judge(source, formula, position, scratch)?;
        // the table is not full, so that this is a number
        self.stage
            .refutations
            .push(Refutation { formula, position })
            .ok_or(Refusal::RefutationsFull)
    }
}

// How many positions a run's stem and loop have.
fn positions<R: RunSource>(source: &R) -> usize
    ensures { result ≡ (R.meaning source.now).stem + (R.meaning source.now).loop }
{
    usize::from(source.stem()) + usize::from(source.loop_length())
}
