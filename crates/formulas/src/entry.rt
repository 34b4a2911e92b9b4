// One entry of a formula list: its kind, with the numbers of earlier entries as operands.
ghost use Rattle.std.specs.Prelude.{◌≡◌, ℕ, ◌<◌, false};
ghost use Rattle.formulas.specs.Entries.{asked, kind_numbered, placed};

use crate::refusal::FormRefusal;

// Atoms are numbered from 0 up to this one.
const LAST_ATOM: u16 = 31;

/// An entry: an atom by its number, 0 to 31, or operands by their numbers, which are lower than the entry's own.
// by number, and no boxes: formulas share their parts, and nothing is allocated after a list is made
#[derive(Clone, Copy, PartialEq, Eq, Debug)]
pub enum Entry {
    False,
    Atom(u8),
    Implies(u16, u16),
    Next(u16),
    Always(u16),
}

// The kinds of entries.
#[derive(Clone, Copy)]
enum Kind {
    False,
    Atom,
    Implies,
    Next,
    Always,
}

impl TryFrom<u8> for Kind {
    type Error = FormRefusal;

    ghost try_from_gives = { λ number r. r ≡ kind_numbered number };

    fn try_from(number: u8) -> Result<Kind, FormRefusal> {
        match number {
            0 => Ok(Kind::False),
            1 => Ok(Kind::Atom),
            2 => Ok(Kind::Implies),
            3 => Ok(Kind::Next),
            4 => Ok(Kind::Always),
            _ => Err(FormRefusal::UnknownKind),
        }
    }
}

impl Entry {
    // The entry that a kind and two fields ask for, as `form` is asked.
    // No `TryFrom`, since it depends on how many are entered.
    pub(crate) fn asked_for(
        entered: usize,
        kind: u8,
        left: u16,
        right: u16,
    ) -> Result<Entry, FormRefusal>
        ensures { result ≡ asked entered kind left right }
    {
        let left_entered = usize::from(left) < entered;
        let right_entered = usize::from(right) < entered;
        match Kind::try_from(kind)? {
            Kind::False if left == 0 && right == 0 => Ok(Entry::False),
            Kind::Atom if left <= LAST_ATOM && right == 0 => Ok(Entry::Atom(left as u8)),
            Kind::Implies if left_entered && right_entered => Ok(Entry::Implies(left, right)),
            Kind::Next if left_entered && right == 0 => Ok(Entry::Next(left)),
            Kind::Always if left_entered && right == 0 => Ok(Entry::Always(left)),
            _ => Err(FormRefusal::BadField),
        }
    }

    // No lower number can be that of the entry: it stands after its operands.
    pub(crate) fn lowest(self) -> usize
        ensures { (n : ℕ) → n < result → placed n self ≡ false }
    {
        match self {
            Entry::False | Entry::Atom(_) => 0,
            Entry::Implies(left, right) => usize::from(left.max(right)) + 1,
            Entry::Next(part) | Entry::Always(part) => usize::from(part) + 1,
        }
    }
}
