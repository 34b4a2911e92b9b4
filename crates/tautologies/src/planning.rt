// A plan: where the rows of a formula's parts stand, and the steps by which those of its implications are made.
ghost use Rattle.std.specs.Prelude.{◌≡◌, ◌≢◌, ℕ, ◌<◌, ◌≤◌, Some, length};
ghost use Rattle.std.specs.List.{slice_get};
ghost use Rattle.lists.specs.Adding.{Distinct};
ghost use Rattle.tautologies.specs.Gathering.{Entered, Gathered};
ghost use Rattle.tautologies.specs.Planning.{Planned, place_of};

use crate::ENTRIES;
use crate::gathering::PARTS;
use crate::short_list::ShortList;
use crate::step::Step;
use formulas::Entry;

// The rows of the prime parts stand first, then that of false, then those of the implications, step by step.
pub(crate) const FALSE_PLACE: usize = PARTS;

pub(crate) const FIRST_STEP: usize = FALSE_PLACE + 1;

// The steps by rising numbers of their entries, so that each stands after its operands'.
pub(crate) type Steps = ShortList<Step, ENTRIES>;

// The steps, and the place of each marked entry's row.
#[derive(Drop)]
pub(crate) struct Plan {
    pub(crate) steps: Steps,
    pub(crate) places: [u16; ENTRIES],
}

// The plan of the marked entries, among which are the parts.
pub(crate) fn make_plan(entries: &[Entry], seen: &[bool; ENTRIES], parts: &[u16]) -> Plan
    requires entered { Entered entries.now }
    requires gathered { Gathered entries.now seen.now parts.now }
    requires few { length parts.now ≤ PARTS }
    ensures { Planned entries.now seen.now parts.now result.steps result.places }
{
    // in its place from the start, so that no array is copied
    let mut plan = Plan {
        steps: Steps::new(Step { left: 0, right: 0 }),
        places: part_places(parts),
    };
    for (number, entry) in entries.iter().enumerate() {
        if seen[number] {
            if let Entry::Implies(left, right) = *entry {
                let step = Step {
                    left: plan.places[usize::from(left)],
                    right: plan.places[usize::from(right)],
                };
                plan.places[number] = (FIRST_STEP + plan.steps.as_slice().len()) as u16;
                plan.steps.push(step);
            }
        }
    }
    plan
}

// The places of the parts, in their order, and that of false for all other entries.
fn part_places(parts: &[u16]) -> [u16; ENTRIES]
    requires few { length parts.now ≤ PARTS }
    requires within { (k n : ℕ) → slice_get parts.now k ≡ Some n → n < ENTRIES }
    requires once { Distinct parts.now }
    ensures parts { (k n : ℕ) → slice_get parts.now k ≡ Some n → place_of result n ≡ k }
    ensures others { (n : ℕ) → ((k : ℕ) → slice_get parts.now k ≢ Some n) → place_of result n ≡ FALSE_PLACE }
    ensures small { (n : ℕ) → place_of result n ≤ FALSE_PLACE }
{
    let mut places = [FALSE_PLACE as u16; ENTRIES];
    for (place, number) in parts.iter().enumerate() {
        places[usize::from(*number)] = place as u16;
    }
    places
}
