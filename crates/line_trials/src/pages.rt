// Pages of the trials' own.
use formulas::FormulaList;
use rules::{PublishedPage, Question, RulePage, Verdict};

// A page that admits nothing.
#[derive(Clone, Copy)]
pub(crate) struct NothingPage;

impl RulePage for NothingPage {
    ghost use Rattle.line_trials.specs.Admitting.{nothing, nothing_lawful};

    ghost meaning = { λ _. record { verdict = nothing; lawful = nothing_lawful } };

    fn verdict(&self, _formulas: &FormulaList, _question: Question) -> Verdict {
        Verdict::NotAdmitted
    }
}

// A page on which every rule is taut, whatever its number.
#[derive(Clone, Copy)]
pub(crate) struct TautPage;

impl RulePage for TautPage {
    ghost use Rattle.line_trials.specs.Admitting.{always_taut, always_taut_lawful};

    ghost meaning = { λ _. record { verdict = always_taut; lawful = always_taut_lawful } };

    fn verdict(&self, formulas: &FormulaList, question: Question) -> Verdict {
        PublishedPage.verdict(
            formulas,
            Question {
                rule: 1,
                ..question
            },
        )
    }
}
