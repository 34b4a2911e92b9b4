// The derived page: four rules that are derived in the standard axiom system, over any other page.
ghost use Rattle.std.specs.Prelude.{◌≡◌, nat_eq, option_map};
ghost use Rattle.std.specs.Map.{lookup};
ghost use Rattle.calculus.specs.Derived.{derived_schemas};
ghost use Rattle.rules.specs.Rules.{rule_schema};

use crate::numbers;
use crate::page::{Question, RulePage};
use crate::schema::{A, ALWAYS_A, B, C, FALSE, NEXT_A, NEXT_B, Rule, Schema};
use calculus::Verdict;
use formulas::FormulaList;

const NOT_B: Schema<'static> = Schema::Implies(&B, &FALSE);

const NOT_C: Schema<'static> = Schema::Implies(&C, &FALSE);

const ALWAYS_NOT_B: Schema<'static> = Schema::Always(&NOT_B);

const ALWAYS_NOT_C: Schema<'static> = Schema::Always(&NOT_C);

const EVENTUALLY_B: Schema<'static> = Schema::Implies(&ALWAYS_NOT_B, &FALSE);

const EVENTUALLY_C: Schema<'static> = Schema::Implies(&ALWAYS_NOT_C, &FALSE);

// alw, A gives □A
const ALW: Rule = Rule {
    conclusion: ALWAYS_A,
    first: Some(A),
    second: None,
};

// ind1, A → ○A gives A → □A
const IND1: Rule = Rule {
    conclusion: Schema::Implies(&A, &ALWAYS_A),
    first: Some(Schema::Implies(&A, &NEXT_A)),
    second: None,
};

// som, A → ○B gives A → ◇B
const SOM: Rule = Rule {
    conclusion: Schema::Implies(&A, &EVENTUALLY_B),
    first: Some(Schema::Implies(&A, &NEXT_B)),
    second: None,
};

// chain, A → ◇B and B → ◇C give A → ◇C
const CHAIN: Rule = Rule {
    conclusion: Schema::Implies(&A, &EVENTUALLY_C),
    first: Some(Schema::Implies(&A, &EVENTUALLY_B)),
    second: Some(Schema::Implies(&B, &EVENTUALLY_C)),
};

/// The page of the derived rules 16 to 19 over another page.
#[derive(Clone, Copy)]
pub struct DerivedPage<P> {
    /// The page that answers for every other number.
    pub below: P,
}

impl<P: RulePage> RulePage for DerivedPage<P> {
    ghost use Rattle.calculus.specs.Derived.{derived};
    ghost use Rattle.calculus.proofs.Lawful.{derived_lawful};

    ghost meaning = { λ page. record { verdict = derived (P.RulePage.meaning page.below).verdict; lawful = derived_lawful (P.RulePage.meaning page.below) } };

    #[tactic(auto, using(crate::proofs::Verdicts::derived_passed))]
    fn verdict(&self, formulas: &FormulaList, question: Question) -> Verdict {
        match rule_numbered(question.rule) {
            Some(rule) => rule.verdict(formulas, question),
            None => self.below.verdict(formulas, question),
        }
    }
}

// The rule with a number.
fn rule_numbered(number: u16) -> Option<Rule>
    ensures { option_map rule_schema result ≡ lookup (nat_eq number) derived_schemas }
{
    match number {
        numbers::ALW => Some(ALW),
        numbers::IND1 => Some(IND1),
        numbers::SOM => Some(SOM),
        numbers::CHAIN => Some(CHAIN),
        _ => None,
    }
}
