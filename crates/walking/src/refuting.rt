// Refutations that are asked for by chance, beside what was walked.
use crate::chance::Chance;
use crate::walk::Truths;
use cases::SealedCase;
use refusals::Refusal;
use runs::RunSource;

// As many as a case holds, so that none is refused where there is no room.
const TRIES: u16 = 64;

// How many refutations were asked for, how many were answered otherwise than they were walked, and how many were walked
// of each kind. Some are counted apart: those that break another assumption than the first one, or break it behind
// position 0, and those that are held although there are assumptions.
#[derive(Drop)]
pub(crate) struct Outcomes {
    pub refutations: u64,
    pub different: u64,
    pub assumption_false: u64,
    pub at_later_place: u64,
    pub at_later_position: u64,
    pub formula_true: u64,
    pub held: u64,
    pub held_under_assumptions: u64,
}

impl Outcomes {
    pub(crate) fn new() -> Outcomes {
        Outcomes {
            refutations: 0,
            different: 0,
            assumption_false: 0,
            at_later_place: 0,
            at_later_position: 0,
            formula_true: 0,
            held: 0,
            held_under_assumptions: 0,
        }
    }

    // Asks for refutations along a run, and compares each answer.
    pub(crate) fn compare<R: RunSource>(
        &mut self,
        chance: &mut Chance,
        case: &mut SealedCase,
        source: &R,
        truths: &Truths,
        scratch: &mut [u64],
    ) {
        let positions = source.stem().wrapping_add(source.loop_length());
        let assumed = case.assumption(0).is_some();
        let mut held = 0u16;
        for _ in 0..TRIES {
            let formula = chance.below(truths.formulas());
            let position = chance.below(positions);
            let walked = truths.refute(case, formula, position, held);
            self.count(walked, assumed);
            held = held.wrapping_add(u16::from(walked.is_ok()));
            let same = case.refute(source, formula, position, scratch) == walked;
            self.different = self.different.wrapping_add(u64::from(!same));
        }
    }

    fn count(&mut self, walked: Result<u16, Refusal>, assumed: bool) {
        self.refutations = self.refutations.wrapping_add(1);
        match walked {
            Err(Refusal::AssumptionFalse { place, position }) => {
                self.assumption_false = self.assumption_false.wrapping_add(1);
                self.at_later_place = self.at_later_place.wrapping_add(u64::from(place > 0));
                self.at_later_position = self
                    .at_later_position
                    .wrapping_add(u64::from(position > 0));
            }
            Err(_) => self.formula_true = self.formula_true.wrapping_add(1),
            Ok(_) => {
                self.held = self.held.wrapping_add(1);
                self.held_under_assumptions = self
                    .held_under_assumptions
                    .wrapping_add(u64::from(assumed));
            }
        }
    }
}
