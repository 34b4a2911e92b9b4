// Derivations on next and the connectives.
use crate::derivation::By::{Ltl1, Ltl2, Mp, Nex, Prop, Taut};
use crate::derivation::{A, B, Derivation, Numbered};
use crate::formula::Formula;
use crate::formula::Formula::{Iff, Implies, Next, Not};

const A_TO_B: Formula<'static> = Implies(&A, &B);

const NOT_NEXT: Formula<'static> = Not(&Next(&A_TO_B));

const NEXT_NOT: Formula<'static> = Next(&Not(&A_TO_B));

const NOT_NEXT_B: Formula<'static> = Not(&Next(&B));

const NEXT_NOT_B: Formula<'static> = Next(&Not(&B));

const FIRST_HOLDS: Formula<'static> = Implies(&Not(&A_TO_B), &A);

const SECOND_FAILS: Formula<'static> = Implies(&Not(&A_TO_B), &Not(&B));

// The other direction of ltl2, (○A → ○B) → ○(A → B).
pub(crate) const LTL2_BACK: Derivation = Derivation {
    name: "ltl2'",
    assumptions: &[],
    lines: &[
        Numbered(1, FIRST_HOLDS, Taut),
        Numbered(2, Next(&FIRST_HOLDS), Nex(1)),
        Numbered(
            3,
            Implies(&Next(&FIRST_HOLDS), &Implies(&NEXT_NOT, &Next(&A))),
            Ltl2,
        ),
        Numbered(4, Implies(&NEXT_NOT, &Next(&A)), Mp(2, 3)),
        Numbered(5, Iff(&NOT_NEXT, &NEXT_NOT), Ltl1),
        Numbered(6, Implies(&NOT_NEXT, &Next(&A)), Prop(&[4, 5])),
        Numbered(7, SECOND_FAILS, Taut),
        // as 2 to 4
        Numbered(22, Next(&SECOND_FAILS), Nex(7)),
        Numbered(
            23,
            Implies(&Next(&SECOND_FAILS), &Implies(&NEXT_NOT, &NEXT_NOT_B)),
            Ltl2,
        ),
        Numbered(24, Implies(&NEXT_NOT, &NEXT_NOT_B), Mp(22, 23)),
        Numbered(8, Implies(&NOT_NEXT, &NEXT_NOT_B), Prop(&[24, 5])),
        Numbered(25, Iff(&NOT_NEXT_B, &NEXT_NOT_B), Ltl1),
        Numbered(9, Implies(&NEXT_NOT_B, &NOT_NEXT_B), Prop(&[25])),
        Numbered(10, Implies(&NOT_NEXT, &NOT_NEXT_B), Prop(&[8, 9])),
        Numbered(
            11,
            Implies(&NOT_NEXT, &Not(&Implies(&Next(&A), &Next(&B)))),
            Prop(&[6, 10]),
        ),
        Numbered(
            12,
            Implies(&Implies(&Next(&A), &Next(&B)), &Next(&A_TO_B)),
            Prop(&[11]),
        ),
    ],
};

// A → ¬B
const NOT_BOTH: Formula<'static> = Implies(&A, &Not(&B));

// ○A → ¬○B
const NOT_BOTH_NEXT: Formula<'static> = Implies(&Next(&A), &NOT_NEXT_B);

// ○A ∧ ○B → ○(A ∧ B), with the conjunctions written out.
pub(crate) const NEXT_OF_BOTH: Derivation = Derivation {
    name: "next of both",
    assumptions: &[],
    lines: &[
        Numbered(
            1,
            Implies(&Next(&NOT_BOTH), &Implies(&Next(&A), &NEXT_NOT_B)),
            Ltl2,
        ),
        Numbered(21, Iff(&NOT_NEXT_B, &NEXT_NOT_B), Ltl1),
        Numbered(2, Implies(&Next(&NOT_BOTH), &NOT_BOTH_NEXT), Prop(&[21, 1])),
        Numbered(
            3,
            Implies(&Not(&NOT_BOTH_NEXT), &Not(&Next(&NOT_BOTH))),
            Prop(&[2]),
        ),
        Numbered(
            22,
            Iff(&Not(&Next(&NOT_BOTH)), &Next(&Not(&NOT_BOTH))),
            Ltl1,
        ),
        Numbered(
            4,
            Implies(&Not(&NOT_BOTH_NEXT), &Next(&Not(&NOT_BOTH))),
            Prop(&[22, 3]),
        ),
    ],
};
