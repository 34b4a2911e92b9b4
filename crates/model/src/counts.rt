// How many formulas, assumptions, lines and refutations a case has.

/// How many of each a case has: at most 1,024 formulas, 16 assumptions, 512 lines and 64 refutations.
#[derive(Clone, Copy, PartialEq, Eq, Debug)]
pub struct Counts {
    pub formulas: usize,
    pub assumptions: usize,
    pub lines: usize,
    pub refutations: usize,
}
