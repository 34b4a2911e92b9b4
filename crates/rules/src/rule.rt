// Questions by one rule: whether formulas are an instance of it.
ghost use Rattle.std.specs.Prelude.{◌≡◌, option_map};
ghost use Rattle.formulas.specs.Listed.{entries_of, formulas_of};
ghost use Rattle.rules.specs.Matching.{formula_of, premise_matched_in, letters_in};
ghost use Rattle.rules.specs.Rules.{rule_schema, instance_verdict};

use crate::letters::{LETTERS, Letters};
use crate::page::Question;
use crate::schema::{Rule, Schema, matched};
use calculus::Verdict;
use formulas::FormulaList;

impl Rule {
    // Whether the formulas of a question are an instance of the rule.
    pub(crate) fn verdict(&self, formulas: &FormulaList, question: Question) -> Verdict
        ensures { result ≡ instance_verdict (rule_schema self.now) (formulas_of formulas.now) question }
    {
        if question.is_entered(formulas) && self.letters(formulas, question).is_some() {
            Verdict::Admitted
        } else {
            Verdict::NotAdmitted
        }
    }

    // What stands for the letters, if they are an instance.
    fn letters(&self, formulas: &FormulaList, question: Question) -> Option<Letters>
        ensures { result ≡ letters_in LETTERS (entries_of formulas.now) (rule_schema self.now) question.conclusion question.first question.second }
    {
        let of_conclusion = matched(
            &self.conclusion,
            formulas,
            question.conclusion,
            [None; LETTERS],
        )?;
        let of_first = premise_matched(self.first, formulas, question.first, of_conclusion)?;
        premise_matched(self.second, formulas, question.second, of_first)
    }
}

// The letters with what stands for those of a premise, which is empty where the rule has none.
fn premise_matched(
    schema: Option<Schema<'static>>,
    formulas: &FormulaList,
    number: Option<u16>,
    letters: Letters,
) -> Option<Letters>
    ensures { result ≡ premise_matched_in (entries_of formulas.now) (option_map formula_of schema.entry) number letters }
{
    match (schema, number) {
        (Some(schema), Some(number)) => matched(&schema, formulas, number, letters),
        (None, None) => Some(letters),
        _ => None,
    }
}
