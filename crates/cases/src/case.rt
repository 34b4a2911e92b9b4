// A case at a stage: the formulas that are entered, those of them that are assumed, and what the stage holds.
ghost use Rattle.std.specs.Prelude.{◌≤◌, length};
ghost use Rattle.lists.specs.Adding.{Distinct};
ghost use Rattle.formulas.specs.Listed.{formulas_of};
ghost use Rattle.model.specs.Breaking.{HaveRuns, LinesFollow};
ghost use Rattle.model.specs.Limits.{AssumptionsEntered, LinesEntered};

use crate::stage::{Open, Sealed, Stage};
use formulas::FormulaList;
use lists::Table;
use refusals::Refusal;
use std::alloc::{AllocError, Global};

mod judging;
mod lines;
mod reading;

// The most assumptions that a case takes.
const ASSUMPTIONS: u16 = 16;

/// A case at a stage. Contracts name the model that it stands for by `modelled`.
#[derive(Drop)]
pub struct Case<S: Stage> {
    formulas: FormulaList,
    // the numbers of formulas
    assumptions: Table<u16, ASSUMPTIONS>,
    stage: S,
    ghost within: { length assumptions ≤ 16 },
    ghost distinct: { Distinct assumptions },
    ghost entered: { AssumptionsEntered (formulas_of formulas) assumptions },
    ghost stated: { LinesEntered (formulas_of formulas) (S.held stage).lines },
    ghost follow: { LinesFollow (formulas_of formulas) assumptions (S.held stage).lines },
    ghost have_runs: { HaveRuns (formulas_of formulas) assumptions (S.held stage).refutations },
}

/// A case that takes formulas and assumptions, and holds nothing yet.
pub type OpenCase = Case<Open>;

/// A case that takes formulas, lines and refutations, and no more assumptions.
pub type SealedCase = Case<Sealed>;

impl Case<Open> {
    ghost use Rattle.std.specs.Prelude.{◌≡◌, IfOk};
    ghost use Rattle.model.specs.Calls.{assume};
    ghost use Rattle.model.specs.Case.{empty};
    ghost use Rattle.model.specs.Promises.{Promises};
    ghost use Rattle.cases.specs.Model.{modelled, opened, sealed};

    /// An empty case, with memory for all that it will ever hold; an error where memory is lacking.
    // what every history of calls on it keeps is promised here
    #[tactic(auto, using(model::proofs::Promises::promises), unfolding(crate::specs::Model::modelled))]
    pub fn new(heap: Global) -> Result<OpenCase, AllocError>
        ensures empty { IfOk result (λ c. opened c ≡ empty) }
        ensures promised { Promises }
    {
        Ok(Case {
            formulas: FormulaList::new(heap)?,
            assumptions: Table::new(heap)?,
            stage: Open {
                lines: Table::new(heap)?,
                refutations: Table::new(heap)?,
            },
        })
    }

    /// Assumes an entered formula, and answers its place, from 0; the old place where it is assumed already.
    /// Refuses, in this order: `NotEntered` (4); `AssumptionsFull` (5), where it is new and 16 are there.
    pub fn assume(&mut self, formula: u16) -> Result<u16, Refusal>
        ensures answer { result ≡ (assume (modelled self.old) formula).answer }
        ensures after { modelled self.new ≡ (assume (modelled self.old) formula).after }
    {
        if usize::from(formula) >= self.formulas.len() {
            return Err(Refusal::NotEntered);
        }
        self.assumptions
            .enter(formula)
            .ok_or(Refusal::AssumptionsFull)
    }

    /// The case at its second stage, which takes no more assumptions. It never refuses.
    pub fn seal(self) -> SealedCase
        ensures { sealed result ≡ opened self }
    {
        let Case {
            formulas,
            assumptions,
            stage: Open { lines, refutations },
        } = self;
        Case {
            formulas,
            assumptions,
            stage: Sealed { lines, refutations },
        }
    }
}

impl<S: Stage> Case<S> {
    ghost use Rattle.std.specs.Prelude.{◌≡◌};
    ghost use Rattle.model.specs.Calls.{form};
    ghost use Rattle.cases.specs.Model.{modelled};

    /// Enters a formula, by its kind and two fields, and answers its number, from 0; the old number where it is there.
    /// Refuses, by `Form` and in this order: `UnknownKind` (1), `BadField` (2); `FormulasFull` (3), where it is new and
    /// 1,024 are entered.
    // three numbers and no `Entry`, since they come from a file, where they need not describe a formula
    pub fn form(&mut self, kind: u8, left: u16, right: u16) -> Result<u16, Refusal>
        ensures answer { result ≡ (form (modelled self.old) kind left right).answer }
        ensures after { modelled self.new ≡ (form (modelled self.old) kind left right).after }
    {
        Ok(self.formulas.form(kind, left, right)?)
    }
}
