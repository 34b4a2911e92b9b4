// How the formulas of a case stand, and the lines of those that are not open, one after another.
ghost use Rattle.std.specs.Prelude.{◌≡◌, ◌+◌, ◌*◌, ◌≤◌, ◌++◌, length, set, take};
ghost use Rattle.cases.specs.Model.{sealed};
ghost use Rattle.listing.specs.Listing.{standing_lines};
ghost use Rattle.listing.specs.Standings.{AreRefutedStandings, AreStandings};
ghost use Rattle.listing.specs.declared.text.TheConstants.{TEXT_MOST};

use crate::lines::standing_line;
use cases::{SealedCase, Standing};
use formulas::FORMULAS;

// A case has no more formulas.
const PLACES: usize = FORMULAS as usize;

// How each formula stands, by its number. Found in one walk over the refutations and one over the lines, each from the last to
// the first, so that the first of a formula stays, and a line before a refutation.
pub(crate) type Standings = [Standing; PLACES];

// The standings by refutations alone.
fn refuted(case: &SealedCase) -> Standings
    ensures { AreRefutedStandings (sealed case.now) result }
{
    let mut standings = [Standing::Open; PLACES];
    let refutations = case.refutations();
    for number in (0..refutations.len()).rev() {
        put(
            &mut standings,
            refutations[number].formula,
            Standing::Refuted(number as u16),
        );
    }
    standings
}

pub(crate) fn standings(case: &SealedCase) -> Standings
    ensures { AreStandings (sealed case.now) result }
{
    let mut standings = refuted(case);
    let lines = case.lines();
    for number in (0..lines.len()).rev() {
        put(
            &mut standings,
            lines[number].formula,
            Standing::Derived(number as u16),
        );
    }
    standings
}

// Writes how a formula stands; a number that no formula of a case has changes nothing.
fn put(standings: &mut Standings, formula: u16, standing: Standing)
    ensures { standings.new ≡ set standings.old formula standing }
{
    let place = usize::from(formula);
    if place < PLACES {
        standings[place] = standing;
    }
}

// How long the lines of all formulas are.
#[tactic(auto, using(crate::proofs::Growing::lines_more), unfolding(crate::specs::Listing::standing_lines_to))]
pub(crate) fn standings_len(case: &SealedCase, standings: &Standings) -> usize
    requires { AreStandings (sealed case.now) standings.now }
    ensures value { result ≡ length (standing_lines (sealed case.now)) }
    ensures within { result ≤ TEXT_MOST * PLACES }
{
    let mut len = 0;
    for number in 0..case.counts().formulas as u16 {
        if let Some(line) = standing_line(number, standings[usize::from(number)]) {
            len += line.as_slice().len();
        }
    }
    len
}

// Copies the lines of all formulas into a buffer of their length.
#[tactic(auto, unfolding(crate::specs::Listing::standing_lines_to))]
pub(crate) fn copy_standings(case: &SealedCase, standings: &Standings, buffer: &mut [u8])
    requires so { AreStandings (sealed case.now) standings.now }
    requires long { length buffer.old ≡ length (standing_lines (sealed case.now)) }
    ensures { buffer.new ≡ standing_lines (sealed case.now) }
{
    let mut at = 0;
    for number in 0..case.counts().formulas as u16 {
        if let Some(line) = standing_line(number, standings[usize::from(number)]) {
            at = copy_at(line.as_slice(), buffer, at);
        }
    }
}

// Copies a line to a place of a buffer, and answers the place after it.
#[tactic(auto, using(std::proofs::lemmas::Slice::overwrites))]
fn copy_at(line: &[u8], buffer: &mut [u8], at: usize) -> usize
    requires { at + length line.now ≤ length buffer.old }
    ensures end { result ≡ at + length line.now }
    ensures size { length buffer.new ≡ length buffer.old }
    ensures copied { take result buffer.new ≡ take at buffer.old ++ line.now }
{
    let end = at + line.len();
    buffer[at..end].copy_from_slice(line);
    end
}
