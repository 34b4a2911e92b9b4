// What is read of a case.
use crate::case::{ASSUMPTIONS, Case};
use crate::stage::{LINES, REFUTATIONS, Stage};
use formulas::{Entry, FORMULAS};
use model::{Counts, Line, Refutation, Standing};
use refusals::Refusal;

impl<S: Stage> Case<S> {
    ghost use Rattle.std.specs.Prelude.{◌≡◌, ◌<◌, ◌≤◌, length, IfSome};
    ghost use Rattle.model.specs.Reads.{counts_of, entry_in, assumption_in, line_in, refutation_in, standing_in, first_line, first_refutation_of};
    ghost use Rattle.cases.specs.Model.{modelled};

    /// How many formulas, assumptions, lines and refutations the case has: at most 1,024, 16, 512 and 64.
    #[tactic(auto, using(formulas::proofs::Decoded::decoded_length), unfolding(crate::specs::Model::modelled))]
    pub fn counts(&self) -> Counts
        ensures value { result ≡ counts_of (modelled self.now) }
        ensures few_formulas { result.formulas ≤ FORMULAS }
        ensures few_assumptions { result.assumptions ≤ ASSUMPTIONS }
        ensures few_lines { result.lines ≤ LINES }
        ensures few_refutations { result.refutations ≤ REFUTATIONS }
    {
        Counts {
            formulas: self.formulas.len(),
            assumptions: self.assumptions.as_slice().len(),
            lines: self.lines().len(),
            refutations: self.refutations().len(),
        }
    }

    /// The entry of the formula with a number, none past the last.
    #[tactic(auto, using(model::proofs::Entries::entry_read), unfolding(crate::specs::Model::modelled))]
    pub fn entry(&self, number: u16) -> Option<Entry>
        ensures { result ≡ entry_in (modelled self.now) number }
    {
        self.formulas.get(number)
    }

    /// The number of the formula that is assumed at a place, none past the last.
    #[tactic(auto, unfolding(crate::specs::Model::modelled))]
    pub fn assumption(&self, place: u16) -> Option<u16>
        ensures { result ≡ assumption_in (modelled self.now) place }
    {
        self.assumptions.get(place)
    }

    /// The lines that are held, by number; at most 512. An open case has none.
    #[tactic(auto, unfolding(crate::specs::Model::modelled))]
    pub fn lines(&self) -> &[Line]
        ensures held { result.now ≡ (modelled self.now).lines }
        ensures within { length result.now ≤ LINES }
    {
        self.stage.lines()
    }

    /// The refutations that are held, by number; at most 64. An open case has none.
    #[tactic(auto, unfolding(crate::specs::Model::modelled))]
    pub fn refutations(&self) -> &[Refutation]
        ensures held { result.now ≡ (modelled self.now).refutations }
        ensures within { length result.now ≤ REFUTATIONS }
    {
        self.stage.refutations()
    }

    /// The line with a number. Refuses `LineNotHeld` (6) where none with it is held.
    #[tactic(auto, unfolding(crate::specs::Model::modelled))]
    pub fn held_line(&self, number: u16) -> Result<Line, Refusal>
        ensures { result ≡ line_in (modelled self.now) number }
    {
        self.lines()
            .get(usize::from(number))
            .copied()
            .ok_or(Refusal::LineNotHeld)
    }

    /// The refutation with a number. Refuses `RefutationNotHeld` (16) where none with it is held.
    #[tactic(auto, unfolding(crate::specs::Model::modelled))]
    pub fn refutation(&self, number: u16) -> Result<Refutation, Refusal>
        ensures { result ≡ refutation_in (modelled self.now) number }
    {
        self.refutations()
            .get(usize::from(number))
            .copied()
            .ok_or(Refusal::RefutationNotHeld)
    }

    /// How a formula stands: derived, by its first line; else refuted, by its first refutation; else open.
    /// Refuses `NotEntered` (4).
    #[tactic(auto, unfolding(crate::specs::Model::modelled))]
    pub fn standing(&self, formula: u16) -> Result<Standing, Refusal>
        ensures { result ≡ standing_in (modelled self.now) formula }
    {
        if usize::from(formula) >= self.formulas.len() {
            return Err(Refusal::NotEntered);
        }
        if let Some(number) = self.first_line(formula) {
            return Ok(Standing::Derived(number as u16));
        }
        match self.first_refutation(formula) {
            Some(number) => Ok(Standing::Refuted(number as u16)),
            None => Ok(Standing::Open),
        }
    }

    // The number of the first line of a formula.
    #[tactic(auto, unfolding(crate::specs::Model::modelled))]
    fn first_line(&self, formula: u16) -> Option<usize>
        ensures number { result ≡ first_line (modelled self.now) formula }
        ensures within { IfSome result (λ n. n < LINES) }
    {
        self.lines().iter().position(|line| line.formula == formula)
    }

    // The number of the first refutation of a formula.
    #[tactic(auto, unfolding(crate::specs::Model::modelled))]
    fn first_refutation(&self, formula: u16) -> Option<usize>
        ensures number { result ≡ first_refutation_of (modelled self.now) formula }
        ensures within { IfSome result (λ n. n < REFUTATIONS) }
    {
        self.refutations()
            .iter()
            .position(|refutation| refutation.formula == formula)
    }
}
