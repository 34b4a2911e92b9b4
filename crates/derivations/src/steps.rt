// A propositional step, and a short use of alw.
use crate::derivation::By::{Alw, Assumption, Ind, Mp, Nex, Prop, Taut};
use crate::derivation::{A, B, Derivation, Numbered};
use crate::formula::Formula::{Always, And, Implies, Next};

// A and B give what is a propositional consequence of them, here A ∧ B.
pub(crate) const PROP: Derivation = Derivation {
    name: "prop",
    assumptions: &[A, B],
    lines: &[
        Numbered(1, A, Assumption),
        Numbered(2, B, Assumption),
        Numbered(3, Implies(&A, &Implies(&B, &And(&A, &B))), Taut),
        Numbered(4, Implies(&B, &And(&A, &B)), Mp(1, 3)),
        Numbered(5, And(&A, &B), Mp(2, 4)),
    ],
};

// A → B and A give □B.
pub(crate) const ALWAYS_B: Derivation = Derivation {
    name: "always of a consequence",
    assumptions: &[Implies(&A, &B), A],
    lines: &[
        Numbered(1, Implies(&A, &B), Assumption),
        Numbered(2, A, Assumption),
        Numbered(3, B, Mp(2, 1)),
        Numbered(4, Always(&B), Alw(3)),
    ],
};

// The same with alw written out.
pub(crate) const ALWAYS_B_WRITTEN_OUT: Derivation = Derivation {
    name: "always of a consequence, written out",
    assumptions: &[Implies(&A, &B), A],
    lines: &[
        Numbered(1, Implies(&A, &B), Assumption),
        Numbered(2, A, Assumption),
        Numbered(3, B, Mp(2, 1)),
        Numbered(21, Next(&B), Nex(3)),
        Numbered(22, Implies(&B, &Next(&B)), Prop(&[21])),
        Numbered(23, Implies(&B, &B), Taut),
        Numbered(24, Implies(&B, &Always(&B)), Ind(23, 22)),
        Numbered(4, Always(&B), Mp(3, 24)),
    ],
};
