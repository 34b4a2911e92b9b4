// A formula under all choices of truth for its prime parts, in passes of 1,024 choices.
ghost use Rattle.std.specs.Prelude.{◌≡◌, ℕ, ◌+◌, ◌-◌, ◌*◌, ◌^◌, ◌<◌, ◌≤◌, ◌↔◌, Bool, true, false, IsTrue, MatchBool, Some, length, slice_index_or, bit_or};
ghost use Rattle.std.specs.List.{slice_get};
ghost use Rattle.formulas.specs.Decode.{formula_at};
ghost use Rattle.calculus.specs.Tautology.{Tautology};
ghost use Rattle.tautologies.specs.Gathering.{Entered, Gathered, Marked};
ghost use Rattle.tautologies.specs.Planning.{LowerSteps, Values, Made, word_at};
ghost use Rattle.tautologies.specs.Choosing.{choice_word_of};

use crate::ENTRIES;
use crate::choosing::choice_word;
use crate::gathering::PARTS;
use crate::planning::{FIRST_STEP, make_plan};
use crate::step::Step;
use formulas::Entry;
use std::array;

// The words of a row in a pass. With fewer, a step often waits for the row that the one before it wrote, and with more, rows
// are far apart in memory.
const WORDS: usize = 16;

// The row of one formula under the choices of a pass.
type Wide = [u64; WORDS];

// A pass has all choices for this many parts.
const PASS_PARTS: usize = 10;

// Rows for a formula of few steps, of some, of many, and for any.
const FEW_ROWS: usize = 64;

const SOME_ROWS: usize = 256;

const MANY_ROWS: usize = 512;

const ALL_ROWS: usize = FIRST_STEP + ENTRIES;

// Whether the formula of an entry is true under every choice of truth for its prime parts, which are gathered.
pub(crate) fn true_everywhere(
    entries: &[Entry],
    number: u16,
    seen: &[bool; ENTRIES],
    parts: &[u16],
) -> bool
    requires entered { Entered entries.now }
    requires gathered { Gathered entries.now seen.now parts.now }
    requires marked { Marked seen.now number }
    requires few { length parts.now ≤ PARTS }
    ensures { IsTrue result ↔ Tautology (formula_at entries.now number) }
{
    let plan = make_plan(entries, seen, parts);
    let steps = plan.steps.as_slice();
    let place = usize::from(plan.places[usize::from(number)]);
    // Rows are emptied at each call, so that not many more are taken than are needed.
    if FIRST_STEP + steps.len() <= FEW_ROWS {
        is_true_at::<FEW_ROWS>(steps, place, parts.len())
    } else if FIRST_STEP + steps.len() <= SOME_ROWS {
        is_true_at::<SOME_ROWS>(steps, place, parts.len())
    } else if FIRST_STEP + steps.len() <= MANY_ROWS {
        is_true_at::<MANY_ROWS>(steps, place, parts.len())
    } else {
        is_true_at::<ALL_ROWS>(steps, place, parts.len())
    }
}

// Whether the row at a place is full under all choices for a number of parts.
fn is_true_at<const ROWS: usize>(steps: &[Step], place: usize, parts: usize) -> bool
    requires enough { ROWS ≤ 2048 }
    requires room { FIRST_STEP + length steps.now ≤ ROWS }
    requires lower { LowerSteps steps.now }
    requires there { place < FIRST_STEP + length steps.now }
    requires few { parts ≤ PARTS }
    ensures { MatchBool result
        ((c : ℕ) → c < 2 ^ parts → (f : ℕ → Bool) × Values steps.now c f × (f place ≡ true))
        ((c : ℕ) × (f : ℕ → Bool) × Values steps.now c f × (f place ≡ false)) }
{
    let mut rows = [[0; WORDS]; ROWS];
    for pass in 0..passes(parts) {
        choose(WORDS * pass, &mut rows);
        follow(steps, &mut rows);
        if !is_full(&rows[place]) {
            return false;
        }
    }
    true
}

// How many passes have all choices for a number of parts.
fn passes(parts: usize) -> usize
    requires { parts ≤ PARTS }
    ensures few { result ≤ 4 }
    ensures all { 2 ^ parts ≤ 1024 * result }
{
    if parts <= PASS_PARTS {
        1
    } else {
        1 << (parts - PASS_PARTS)
    }
}

// Writes the rows of the parts, from a word of choices on.
fn choose<const ROWS: usize>(first: usize, rows: &mut [Wide; ROWS])
    requires room { FIRST_STEP ≤ ROWS }
    requires within { first + WORDS ≤ 1024 }
    ensures parts { (k w : ℕ) → k < PARTS → w < WORDS → word_at rows.new k w ≡ choice_word_of (first + w) k }
    ensures others { (p w : ℕ) → PARTS ≤ p → word_at rows.new p w ≡ word_at rows.old p w }
{
    for part in 0..PARTS {
        rows[part] = choices(first, part);
    }
}

// The row of a part, from a word of choices on.
fn choices(first: usize, part: usize) -> Wide
    requires few { part < PARTS }
    requires within { first + WORDS ≤ 1024 }
    ensures { (w : ℕ) → w < WORDS → slice_index_or result w 0 ≡ choice_word_of (first + w) part }
{
    array::from_fn(|word| choice_word(first + word, part))
}

// Makes the rows of implications, step by step.
fn follow<const ROWS: usize>(steps: &[Step], rows: &mut [Wide; ROWS])
    requires few { ROWS ≤ 2048 }
    requires room { FIRST_STEP + length steps.now ≤ ROWS }
    requires lower { LowerSteps steps.now }
    ensures made { (j : ℕ) (s : Step) → slice_get steps.now j ≡ Some s → Made rows.new WORDS j s }
    ensures others { (p w : ℕ) → p < FIRST_STEP → word_at rows.new p w ≡ word_at rows.old p w }
{
    for (number, step) in steps.iter().enumerate() {
        let row = implied(rows[usize::from(step.left)], rows[usize::from(step.right)]);
        rows[FIRST_STEP + number] = row;
    }
}

// Where the left side is false or the right side true.
fn implied(left: Wide, right: Wide) -> Wide
    ensures { (w : ℕ) → w < WORDS → slice_index_or result w 0 ≡ bit_or (slice_index_or right w 0) (2 ^ 64 - 1 - slice_index_or left w 0) }
{
    array::from_fn(|word| right[word] | !left[word])
}

// Whether a row is true under all its choices.
fn is_full(row: &Wide) -> bool
    ensures { IsTrue result ↔ ((w : ℕ) → w < WORDS → slice_index_or row.now w 0 ≡ 2 ^ 64 - 1) }
{
    row.iter().all(|word| *word == u64::MAX)
}
