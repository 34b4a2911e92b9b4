// Derivations on induction.
use crate::derivation::By::{Assumption, Ind, Ind1, Ltl2, Ltl3, Mp, Nex, Prop, Taut};
use crate::derivation::{A, B, Derivation, Numbered};
use crate::formula::Formula;
use crate::formula::Formula::{Always, And, Implies, Next};

const NEXT_ALWAYS_A: Formula<'static> = Next(&Always(&A));

// A ∧ ○□A
const NOW_AND_NEXT: Formula<'static> = And(&A, &NEXT_ALWAYS_A);

const UNFOLDED: Formula<'static> = Implies(&Always(&A), &NOW_AND_NEXT);

const KEPT: Formula<'static> = Implies(&NEXT_ALWAYS_A, &Next(&NOW_AND_NEXT));

// The other direction of ltl3, A ∧ ○□A → □A.
pub(crate) const LTL3_BACK: Derivation = Derivation {
    name: "ltl3'",
    assumptions: &[],
    lines: &[
        Numbered(1, Implies(&NOW_AND_NEXT, &A), Taut),
        Numbered(2, UNFOLDED, Ltl3),
        Numbered(3, Next(&UNFOLDED), Nex(2)),
        Numbered(4, Implies(&Next(&UNFOLDED), &KEPT), Ltl2),
        Numbered(5, KEPT, Mp(3, 4)),
        Numbered(6, Implies(&NOW_AND_NEXT, &Next(&NOW_AND_NEXT)), Prop(&[5])),
        Numbered(7, Implies(&NOW_AND_NEXT, &Always(&A)), Ind(1, 6)),
    ],
};

// A → ○A gives A → □A.
pub(crate) const IND1: Derivation = Derivation {
    name: "ind1",
    assumptions: &[Implies(&A, &Next(&A))],
    lines: &[
        Numbered(1, Implies(&A, &Next(&A)), Assumption),
        Numbered(2, Implies(&A, &A), Taut),
        Numbered(3, Implies(&A, &Always(&A)), Ind(2, 1)),
    ],
};

// A → B and B → ○B give A → □B.
pub(crate) const IND2: Derivation = Derivation {
    name: "ind2",
    assumptions: &[Implies(&A, &B), Implies(&B, &Next(&B))],
    lines: &[
        Numbered(1, Implies(&A, &B), Assumption),
        Numbered(2, Implies(&B, &Next(&B)), Assumption),
        Numbered(3, Implies(&B, &Always(&B)), Ind1(2)),
        Numbered(4, Implies(&A, &Always(&B)), Prop(&[1, 3])),
    ],
};

// The same with ind1 written out.
pub(crate) const IND2_WRITTEN_OUT: Derivation = Derivation {
    name: "ind2, written out",
    assumptions: &[Implies(&A, &B), Implies(&B, &Next(&B))],
    lines: &[
        Numbered(1, Implies(&A, &B), Assumption),
        Numbered(2, Implies(&B, &Next(&B)), Assumption),
        Numbered(21, Implies(&B, &B), Taut),
        Numbered(3, Implies(&B, &Always(&B)), Ind(21, 2)),
        Numbered(4, Implies(&A, &Always(&B)), Prop(&[1, 3])),
    ],
};
