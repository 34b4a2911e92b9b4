// The published page: the axioms and rules of the standard axiom system.
ghost use Rattle.std.specs.Prelude.{◌≡◌, nat_eq, option_map};
ghost use Rattle.formulas.specs.Listed.{formulas_of};
ghost use Rattle.std.specs.Map.{lookup};
ghost use Rattle.calculus.specs.Published.{published_schemas};
ghost use Rattle.rules.specs.Rules.{rule_schema, taut_on};

use crate::numbers;
use crate::page::{Question, RulePage};
use crate::schema::{A, ALWAYS_A, B, FALSE, NEXT_A, NEXT_B, Rule, Schema};
use calculus::Verdict;
use formulas::FormulaList;
use tautologies::taut_verdict;

const NOT_A: Schema<'static> = Schema::Implies(&A, &FALSE);

const A_TO_B: Schema<'static> = Schema::Implies(&A, &B);

const ALWAYS_B: Schema<'static> = Schema::Always(&B);

// ltl1, ¬○A ↔ ○¬A
const NOT_NEXT_A: Schema<'static> = Schema::Implies(&NEXT_A, &FALSE);

const NEXT_NOT_A: Schema<'static> = Schema::Next(&NOT_A);

const OUTWARDS: Schema<'static> = Schema::Implies(&NOT_NEXT_A, &NEXT_NOT_A);

const INWARDS: Schema<'static> = Schema::Implies(&NEXT_NOT_A, &NOT_NEXT_A);

const NOT_INWARDS: Schema<'static> = Schema::Implies(&INWARDS, &FALSE);

const NOT_BOTH: Schema<'static> = Schema::Implies(&OUTWARDS, &NOT_INWARDS);

const LTL1: Rule = Rule {
    conclusion: Schema::Implies(&NOT_BOTH, &FALSE),
    first: None,
    second: None,
};

// ltl2, ○(A → B) → (○A → ○B)
const NEXT_A_TO_B: Schema<'static> = Schema::Next(&A_TO_B);

const NEXT_A_TO_NEXT_B: Schema<'static> = Schema::Implies(&NEXT_A, &NEXT_B);

const LTL2: Rule = Rule {
    conclusion: Schema::Implies(&NEXT_A_TO_B, &NEXT_A_TO_NEXT_B),
    first: None,
    second: None,
};

// ltl3, □A → (A ∧ ○□A)
const NEXT_ALWAYS_A: Schema<'static> = Schema::Next(&ALWAYS_A);

const NOT_NEXT_ALWAYS_A: Schema<'static> = Schema::Implies(&NEXT_ALWAYS_A, &FALSE);

const NOT_NOW_AND_NEXT: Schema<'static> = Schema::Implies(&A, &NOT_NEXT_ALWAYS_A);

const NOW_AND_NEXT: Schema<'static> = Schema::Implies(&NOT_NOW_AND_NEXT, &FALSE);

const LTL3: Rule = Rule {
    conclusion: Schema::Implies(&ALWAYS_A, &NOW_AND_NEXT),
    first: None,
    second: None,
};

// mp, A and A → B give B
const MP: Rule = Rule {
    conclusion: B,
    first: Some(A),
    second: Some(A_TO_B),
};

// nex, A gives ○A
const NEX: Rule = Rule {
    conclusion: NEXT_A,
    first: Some(A),
    second: None,
};

// ind, A → B and A → ○A give A → □B
const IND: Rule = Rule {
    conclusion: Schema::Implies(&A, &ALWAYS_B),
    first: Some(A_TO_B),
    second: Some(Schema::Implies(&A, &NEXT_A)),
};

/// The page of the axioms and rules 1 to 7. It admits a formula as a tautology if it has at most twelve prime parts, and
/// is beyond its limit where it has more. It holds no data.
#[derive(Clone, Copy)]
pub struct PublishedPage;

impl RulePage for PublishedPage {
    ghost use Rattle.calculus.specs.Published.{published};
    ghost use Rattle.calculus.proofs.Lawful.{published_lawful};

    ghost meaning = { λ _. record { verdict = published; lawful = published_lawful } };

    fn verdict(&self, formulas: &FormulaList, question: Question) -> Verdict {
        if question.rule == numbers::TAUT {
            return taut(formulas, question);
        }
        match rule_numbered(question.rule) {
            Some(rule) => rule.verdict(formulas, question),
            None => Verdict::NotAdmitted,
        }
    }
}

// taut, which is no schema: any tautology, without premises.
fn taut(formulas: &FormulaList, question: Question) -> Verdict
    ensures { result ≡ taut_on (formulas_of formulas.now) question }
{
    if question.first.is_some() || question.second.is_some() {
        return Verdict::NotAdmitted;
    }
    taut_verdict(formulas, question.conclusion)
}

// The rule with a number, but for tautologies.
fn rule_numbered(number: u16) -> Option<Rule>
    ensures { option_map rule_schema result ≡ lookup (nat_eq number) published_schemas }
{
    match number {
        numbers::LTL1 => Some(LTL1),
        numbers::LTL2 => Some(LTL2),
        numbers::LTL3 => Some(LTL3),
        numbers::MP => Some(MP),
        numbers::NEX => Some(NEX),
        numbers::IND => Some(IND),
        _ => None,
    }
}
