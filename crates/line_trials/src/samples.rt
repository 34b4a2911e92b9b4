// What the trials of lines share: cases, and the bytes of runs.
use cases::{Line, OpenCase, SealedCase};
use rules::PublishedPage;
use std::alloc::Global;
use std::test::Fail;

// A table run of one position, where every atom is false.
pub(crate) const NOTHING: [u8; 8] = [0, 0, 1, 0, 0, 0, 0, 0];

// A table run with v0 at position 0 alone, and a loop of one position behind it.
pub(crate) const ONCE: [u8; 12] = [1, 0, 1, 0, 1, 0, 0, 0, 0, 0, 0, 0];

// A line by a rule, of a formula, from what stands at two places.
pub(crate) fn by_rule(rule: u16, formula: u16, first: Option<u16>, second: Option<u16>) -> Line {
    Line {
        rule,
        formula,
        first,
        second,
    }
}

// The six forms v0, ○v0, v0 → ○v0, v0 → v0, □v0, v0 → □v0, of which v0 → ○v0 is assumed.
pub(crate) fn carry(heap: Global) -> Result<SealedCase, Fail> {
    let mut case = OpenCase::new(heap)?;
    let forms = [
        (1, 0, 0),
        (3, 0, 0),
        (2, 0, 1),
        (2, 0, 0),
        (4, 0, 0),
        (2, 0, 4),
    ];
    for (kind, left, right) in forms {
        case.form(kind, left, right)?;
    }
    case.assume(2)?;
    Ok(case.seal())
}

// The same case with v0 → v0 as line 0, v0 → ○v0 as line 1 and v0 → □v0 as line 2.
pub(crate) fn derived(heap: Global) -> Result<SealedCase, Fail> {
    let mut case = carry(heap)?;
    case.line(&PublishedPage, by_rule(1, 3, None, None))?;
    case.line(&PublishedPage, by_rule(0, 2, None, None))?;
    case.line(&PublishedPage, by_rule(7, 5, Some(0), Some(1)))?;
    Ok(case)
}
