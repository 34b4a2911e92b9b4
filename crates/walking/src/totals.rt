// The totals of all that was compared.
use crate::chance::Chance;
use crate::comparing::Tally;
use crate::refuting::Outcomes;
use crate::walk::Truths;
use cases::SealedCase;
use runs::RunSource;
use std::alloc::{AllocError, Global};

#[derive(Drop)]
pub(crate) struct Totals {
    tally: Tally,
    outcomes: Outcomes,
}

impl Totals {
    pub(crate) fn new() -> Totals {
        Totals {
            tally: Tally::new(),
            outcomes: Outcomes::new(),
        }
    }

    // Compares truths and rows of a case along a run, and then asks it for refutations.
    pub(crate) fn compare<R: RunSource>(
        &mut self,
        heap: Global,
        chance: &mut Chance,
        mut case: SealedCase,
        source: &R,
        truths: &Truths,
    ) -> Result<(), AllocError> {
        let mut scratch = vec![in heap; 0u64; 4096]?;
        self.tally.compare(&case, source, truths, &mut scratch);
        self.outcomes
            .compare(chance, &mut case, source, truths, &mut scratch);
        Ok(())
    }

    pub(crate) fn report(&self, rt: &HostRuntime) -> anyhow::Result<()> {
        let Totals { tally, outcomes } = self;
        println!(rt;
            "answers {}, different {}",
            tally.answers, tally.different_answers
        )?;
        println!(rt; "bits {}, different {}", tally.bits, tally.different_bits)?;
        println!(rt;
            "refutations {}, different {}",
            outcomes.refutations, outcomes.different
        )?;
        println!(rt;
            "assumption false {}, at a later place {}, at a later position {}",
            outcomes.assumption_false, outcomes.at_later_place, outcomes.at_later_position
        )?;
        println!(rt; "formula true {}", outcomes.formula_true)?;
        println!(rt;
            "held {}, under assumptions {}",
            outcomes.held, outcomes.held_under_assumptions
        )?;
        Ok(())
    }
}
