// The prime parts of an entry's formula: what is reached by going down through implications only, and is not false.
ghost use Rattle.std.specs.Prelude.{◌≡◌, ◌<◌, ◌⊎◌, length, MatchResult};
ghost use Rattle.tautologies.specs.Gathering.{Entered, GoneThrough, TooManyParts};

use crate::ENTRIES;
use crate::short_list::ShortList;
use formulas::Entry;

// The most prime parts that are taken.
pub(crate) const PARTS: usize = 12;

// The numbers of the prime parts that were met.
pub(crate) type Parts = ShortList<u16, PARTS>;

// There are more prime parts than are taken.
#[derive(Clone, Copy)]
pub(crate) struct TooMany;

// Meets an entry: if it was met already there is nothing to do, however often it is shared; else it is marked, and gone through
// if it is an implication. Any other formula is a part, unless it is false.
#[cycle(gather)]
#[inline(always)]
pub(crate) fn meet(
    entries: &[Entry],
    number: u16,
    seen: &mut [bool; ENTRIES],
    parts: &mut Parts,
) -> Result<(), TooMany>
    requires entered { Entered entries.now }
    requires there { number < length entries.now }
    ensures { MatchResult result
        (λ _. GoneThrough entries.now number number seen.old parts.old seen.new parts.new)
        (λ _. TooManyParts entries.now number number seen.old parts.old) }
{
    let place = usize::from(number);
    if seen[place] {
        return Ok(());
    }
    seen[place] = true;
    match entries[place] {
        Entry::False => Ok(()),
        Entry::Implies(left, right) => gather(entries, left, right, seen, parts),
        Entry::Atom(_) | Entry::Next(_) | Entry::Always(_) => {
            if parts.is_full() {
                return Err(TooMany);
            }
            parts.push(number);
            Ok(())
        }
    }
}

// Goes down from an implication to its operands, whose numbers are lower than its own: to the lower one first, so that the other
// one, which often rests on it, is the last call of all. The compiler makes a loop of that one, and the way down is shorter.
#[cycle(gather)]
fn gather(
    entries: &[Entry],
    left: u16,
    right: u16,
    seen: &mut [bool; ENTRIES],
    parts: &mut Parts,
) -> Result<(), TooMany>
    requires entered { Entered entries.now }
    requires left { left < length entries.now }
    requires right { right < length entries.now }
    ensures { MatchResult result
        (λ _. GoneThrough entries.now left right seen.old parts.old seen.new parts.new)
        (λ _. TooManyParts entries.now left right seen.old parts.old) }
{
    let (lower, higher) = in_order(left, right);
    meet(entries, lower, seen, parts)?;
    meet(entries, higher, seen, parts)
}

// Two operands, the lower one first.
#[inline(always)]
fn in_order(left: u16, right: u16) -> (u16, u16)
    ensures { ((result.0 ≡ left) × (result.1 ≡ right)) ⊎ ((result.0 ≡ right) × (result.1 ≡ left)) }
{
    if left < right {
        (left, right)
    } else {
        (right, left)
    }
}
