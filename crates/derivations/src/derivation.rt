// Derivations as they are commonly written down.
use crate::formula::Formula;

// What stands for the letters.
pub(crate) const A: Formula<'static> = Formula::Atom(0);

pub(crate) const B: Formula<'static> = Formula::Atom(1);

pub(crate) const C: Formula<'static> = Formula::Atom(2);

pub(crate) const D: Formula<'static> = Formula::Atom(3);

// A derivation: what it is of, the assumptions, and the lines.
#[derive(Clone, Copy)]
pub(crate) struct Derivation {
    pub name: &'static str,
    pub assumptions: &'static [Formula<'static>],
    pub lines: &'static [Numbered],
}

// A line: its number in the derivation, its formula, and what it is by. Lines that are commonly left out, as those that
// are to be made in the same way as others, have numbers above 20.
#[derive(Clone, Copy)]
pub(crate) struct Numbered(pub u16, pub Formula<'static>, pub By);

// What a line is by: an assumption, an axiom, a rule from lines by these numbers, in the rule's order, or as a
// propositional consequence of such lines.
#[derive(Clone, Copy)]
pub(crate) enum By {
    Assumption,
    Taut,
    Ltl1,
    Ltl2,
    Ltl3,
    Mp(u16, u16),
    Nex(u16),
    Ind(u16, u16),
    Alw(u16),
    Ind1(u16),
    Prop(&'static [u16]),
}
