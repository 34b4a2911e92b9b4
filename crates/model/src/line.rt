// A line of a derivation.

/// A line: a rule's number, a formula's number, and two places, each the number of a held line or empty.
#[derive(Clone, Copy, PartialEq, Eq, Debug)]
pub struct Line {
    pub rule: u16,
    pub formula: u16,
    pub first: Option<u16>,
    pub second: Option<u16>,
}
