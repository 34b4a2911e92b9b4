// How a formula stands in a case.

/// How a formula stands: derived, or else refuted, or else open.
#[derive(Clone, Copy, PartialEq, Eq, Debug)]
pub enum Standing {
    /// It is on a held line; the number is that of the first.
    Derived(u16),
    /// It has a held refutation and no line; the number is that of the first.
    Refuted(u16),
    /// It has neither.
    Open,
}
