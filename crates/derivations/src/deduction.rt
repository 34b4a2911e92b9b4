// How a derivation from a formula A is continued, so that of each of its lines B it gives □A → B without A.
// What is derivable before is assumed here.
use crate::derivation::By::{Assumption, Ind, Ltl1, Ltl2, Ltl3, Mp, Nex, Prop};
use crate::derivation::{A, C, D, Derivation, Numbered};
use crate::formula::Formula;
use crate::formula::Formula::{Always, And, Iff, Implies, Next, Not};

const ALWAYS_A: Formula<'static> = Always(&A);

const NEXT_ALWAYS_A: Formula<'static> = Next(&ALWAYS_A);

const ALWAYS_A_TO_C: Formula<'static> = Implies(&ALWAYS_A, &C);

// At a line ○C that is by nex.
pub(crate) const BY_NEX: Derivation = Derivation {
    name: "deduction by nex",
    assumptions: &[ALWAYS_A_TO_C],
    lines: &[
        Numbered(1, ALWAYS_A_TO_C, Assumption),
        Numbered(2, Next(&ALWAYS_A_TO_C), Nex(1)),
        Numbered(
            3,
            Implies(&Next(&ALWAYS_A_TO_C), &Implies(&NEXT_ALWAYS_A, &Next(&C))),
            Ltl2,
        ),
        Numbered(4, Implies(&NEXT_ALWAYS_A, &Next(&C)), Mp(2, 3)),
        Numbered(5, Implies(&ALWAYS_A, &And(&A, &NEXT_ALWAYS_A)), Ltl3),
        Numbered(6, Implies(&ALWAYS_A, &NEXT_ALWAYS_A), Prop(&[5])),
        Numbered(7, Implies(&ALWAYS_A, &Next(&C)), Prop(&[4, 6])),
    ],
};

// □A ∧ C
const BOTH: Formula<'static> = And(&ALWAYS_A, &C);

// □A → ¬C
const NOT_BOTH: Formula<'static> = Implies(&ALWAYS_A, &Not(&C));

// ○□A → ¬○C
const NOT_BOTH_NEXT: Formula<'static> = Implies(&NEXT_ALWAYS_A, &Not(&Next(&C)));

// At a line C → □D that is by ind, with what is known of ○□A and ○C written out before line 7.
pub(crate) const BY_IND: Derivation = Derivation {
    name: "deduction by ind",
    assumptions: &[
        Implies(&ALWAYS_A, &Implies(&C, &D)),
        Implies(&ALWAYS_A, &Implies(&C, &Next(&C))),
    ],
    lines: &[
        Numbered(1, Implies(&ALWAYS_A, &Implies(&C, &D)), Assumption),
        Numbered(2, Implies(&ALWAYS_A, &Implies(&C, &Next(&C))), Assumption),
        Numbered(3, Implies(&BOTH, &D), Prop(&[1])),
        Numbered(4, Implies(&BOTH, &Next(&C)), Prop(&[2])),
        Numbered(21, Implies(&ALWAYS_A, &And(&A, &NEXT_ALWAYS_A)), Ltl3),
        Numbered(5, Implies(&ALWAYS_A, &NEXT_ALWAYS_A), Prop(&[21])),
        Numbered(
            6,
            Implies(&BOTH, &And(&NEXT_ALWAYS_A, &Next(&C))),
            Prop(&[4, 5]),
        ),
        // next of both, for □A and C
        Numbered(
            22,
            Implies(&Next(&NOT_BOTH), &Implies(&NEXT_ALWAYS_A, &Next(&Not(&C)))),
            Ltl2,
        ),
        Numbered(23, Iff(&Not(&Next(&C)), &Next(&Not(&C))), Ltl1),
        Numbered(
            24,
            Implies(&Next(&NOT_BOTH), &NOT_BOTH_NEXT),
            Prop(&[23, 22]),
        ),
        Numbered(
            25,
            Implies(&Not(&NOT_BOTH_NEXT), &Not(&Next(&NOT_BOTH))),
            Prop(&[24]),
        ),
        Numbered(
            26,
            Iff(&Not(&Next(&NOT_BOTH)), &Next(&Not(&NOT_BOTH))),
            Ltl1,
        ),
        Numbered(
            7,
            Implies(&And(&NEXT_ALWAYS_A, &Next(&C)), &Next(&BOTH)),
            Prop(&[26, 25]),
        ),
        Numbered(8, Implies(&BOTH, &Next(&BOTH)), Prop(&[6, 7])),
        Numbered(9, Implies(&BOTH, &Always(&D)), Ind(3, 8)),
        Numbered(
            10,
            Implies(&ALWAYS_A, &Implies(&C, &Always(&D))),
            Prop(&[9]),
        ),
    ],
};
