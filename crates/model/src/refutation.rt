// A refutation.

/// A refutation: a formula's number, and a position, from 0, at which a run makes the formula false.
#[derive(Clone, Copy, PartialEq, Eq, Debug)]
pub struct Refutation {
    pub formula: u16,
    pub position: u16,
}
