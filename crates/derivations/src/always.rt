// Derivations of three rules, on always and eventually.
use crate::derivation::By::{Assumption, Ind, Ind1, Ltl1, Ltl2, Ltl3, Mp, Nex, Prop, Taut};
use crate::derivation::{A, B, C, Derivation, Numbered};
use crate::formula::Formula;
use crate::formula::Formula::{Always, And, Eventually, Iff, Implies, Next, Not};

// A gives □A.
pub(crate) const ALW: Derivation = Derivation {
    name: "alw",
    assumptions: &[A],
    lines: &[
        Numbered(1, A, Assumption),
        Numbered(2, Next(&A), Nex(1)),
        Numbered(3, Implies(&A, &Next(&A)), Prop(&[2])),
        Numbered(4, Implies(&A, &Always(&A)), Ind1(3)),
        Numbered(5, Always(&A), Mp(1, 4)),
    ],
};

// The same with ind1 written out.
pub(crate) const ALW_WRITTEN_OUT: Derivation = Derivation {
    name: "alw, written out",
    assumptions: &[A],
    lines: &[
        Numbered(1, A, Assumption),
        Numbered(2, Next(&A), Nex(1)),
        Numbered(3, Implies(&A, &Next(&A)), Prop(&[2])),
        Numbered(21, Implies(&A, &A), Taut),
        Numbered(4, Implies(&A, &Always(&A)), Ind(21, 3)),
        Numbered(5, Always(&A), Mp(1, 4)),
    ],
};

// □¬B
const NEVER: Formula<'static> = Always(&Not(&B));

// □¬B → ¬B
const NEVER_NOW: Formula<'static> = Implies(&NEVER, &Not(&B));

// A → ○B gives A → ◇B.
pub(crate) const SOM: Derivation = Derivation {
    name: "som",
    assumptions: &[Implies(&A, &Next(&B))],
    lines: &[
        Numbered(1, Implies(&A, &Next(&B)), Assumption),
        Numbered(2, Implies(&NEVER, &And(&Not(&B), &Next(&NEVER))), Ltl3),
        Numbered(3, Implies(&NEVER, &Next(&NEVER)), Prop(&[2])),
        Numbered(4, NEVER_NOW, Prop(&[2])),
        Numbered(5, Next(&NEVER_NOW), Nex(4)),
        Numbered(
            6,
            Implies(&Next(&NEVER_NOW), &Implies(&Next(&NEVER), &Next(&Not(&B)))),
            Ltl2,
        ),
        Numbered(7, Implies(&Next(&NEVER), &Next(&Not(&B))), Mp(5, 6)),
        Numbered(8, Implies(&NEVER, &Next(&Not(&B))), Prop(&[3, 7])),
        Numbered(9, Iff(&Not(&Next(&B)), &Next(&Not(&B))), Ltl1),
        Numbered(10, Implies(&NEVER, &Not(&Next(&B))), Prop(&[8, 9])),
        Numbered(11, Implies(&Next(&B), &Not(&NEVER)), Prop(&[10])),
        Numbered(12, Implies(&A, &Eventually(&B)), Prop(&[1, 11])),
    ],
};

// □¬C
const NEVER_C: Formula<'static> = Always(&Not(&C));

// A → ◇B and B → ◇C give A → ◇C.
pub(crate) const CHAIN: Derivation = Derivation {
    name: "chain",
    assumptions: &[Implies(&A, &Eventually(&B)), Implies(&B, &Eventually(&C))],
    lines: &[
        Numbered(1, Implies(&A, &Eventually(&B)), Assumption),
        Numbered(2, Implies(&B, &Eventually(&C)), Assumption),
        Numbered(3, Implies(&NEVER_C, &Not(&B)), Prop(&[2])),
        Numbered(4, Implies(&NEVER_C, &And(&Not(&C), &Next(&NEVER_C))), Ltl3),
        Numbered(5, Implies(&NEVER_C, &Next(&NEVER_C)), Prop(&[4])),
        Numbered(6, Implies(&NEVER_C, &NEVER), Ind(3, 5)),
        Numbered(7, Implies(&A, &Eventually(&C)), Prop(&[1, 6])),
    ],
};
