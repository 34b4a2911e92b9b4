// What every page of rules is asked and answers.
ghost use Rattle.std.specs.Prelude.{◌≡◌};
ghost use Rattle.calculus.specs.Pages.{Page};
ghost use Rattle.formulas.specs.Listed.{formulas_of};
ghost use Rattle.rules.specs.Questions.{all_entered, premise_entered, verdict_on};

use calculus::Verdict;
use formulas::FormulaList;

/// What a page is asked: whether a rule gives a conclusion from premises.
#[derive(Clone, Copy)]
pub struct Question {
    /// The number of the rule; [`crate::numbers`] has those of the pages here.
    pub rule: u16,
    /// The number of a formula in the list.
    pub conclusion: u16,
    /// The number of a formula in the list, or none where there is no first premise.
    pub first: Option<u16>,
    /// The number of a formula in the list, or none where there is no second premise.
    pub second: Option<u16>,
}

impl Question {
    // Whether all its formulas are in the list.
    pub(crate) fn is_entered(self, formulas: &FormulaList) -> bool
        ensures { result ≡ all_entered (formulas_of formulas.now) self }
    {
        usize::from(self.conclusion) < formulas.len()
            && is_premise(self.first, formulas)
            && is_premise(self.second, formulas)
    }
}

// Whether a premise is empty or in the list.
fn is_premise(number: Option<u16>, formulas: &FormulaList) -> bool
    ensures { result ≡ premise_entered (formulas_of formulas.now) number }
{
    number.is_none_or(|number| usize::from(number) < formulas.len())
}

/// A page of rules has one fixed verdict for each rule, conclusion and premises, whatever the numbers of these formulas
/// are. What it admits holds throughout every looped run on which its premises do; the meaning has the proof.
pub trait RulePage {
    ghost meaning: { Self → Page };

    /// Answers the page's verdict on the formulas with these numbers. Answers [`Verdict::NotAdmitted`] where one of them
    /// is not in the list.
    fn verdict(&self, formulas: &FormulaList, question: Question) -> Verdict
        ensures { result ≡ verdict_on (meaning self.now).verdict (formulas_of formulas.now) question };
}
