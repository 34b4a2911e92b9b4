// Whether a formula of a list is a tautology: its prime parts are gathered, and it is tried under every choice of truth for them.
#![tactic(auto)]

ghost use Rattle.std.specs.Prelude.{◌≡◌};
ghost use Rattle.formulas.specs.Listed.{formulas_of};
ghost use Rattle.tautologies.specs.Verdicts.{taut_verdict_in};

use calculus::Verdict;
use evaluating::true_everywhere;
use formulas::{FORMULAS, FormulaList};
use gathering::{Parts, TooMany, meet};

mod choosing;
mod evaluating;
mod gathering;
mod planning;
mod short_list;
mod step;

// A formula list has no more entries.
pub(crate) const ENTRIES: usize = FORMULAS as usize;

/// What a page says of the formula with a number as a tautology: admitted if it is one, beyond the limit if it has more than
/// twelve prime parts, and else not admitted. One that is not in the list is not admitted.
pub fn taut_verdict(formulas: &FormulaList, number: u16) -> Verdict
    ensures { result ≡ taut_verdict_in (formulas_of formulas.now) number }
{
    let entries = formulas.entries();
    if usize::from(number) >= entries.len() {
        return Verdict::NotAdmitted;
    }
    let mut seen = [false; ENTRIES];
    let mut parts = Parts::new(0);
    match meet(entries, number, &mut seen, &mut parts) {
        Ok(()) => {
            if true_everywhere(entries, number, &seen, parts.as_slice()) {
                Verdict::Admitted
            } else {
                Verdict::NotAdmitted
            }
        }
        Err(TooMany) => Verdict::BeyondLimit,
    }
}
