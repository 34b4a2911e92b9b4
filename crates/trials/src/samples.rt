// What the trials share: cases, and the bytes of runs.
use cases::{OpenCase, SealedCase};
use runs::PulseRun;
use std::alloc::{AllocError, Global};
use std::ops::Range;
use std::test::Fail;

// A table run of one position, where every atom is false.
pub(crate) const NOTHING: [u8; 8] = [0, 0, 1, 0, 0, 0, 0, 0];

// A table run with v0 at position 0 alone, and a loop of one position behind it.
pub(crate) const ONCE: [u8; 12] = [1, 0, 1, 0, 1, 0, 0, 0, 0, 0, 0, 0];

// A pulse run with a stem of 2 and a loop of 254, where every atom is false: the pulse has no width.
pub(crate) const LONGEST: [u8; 10] = [254, 0, 0, 0, 2, 0, 1, 0, 0, 0];

// The same with a loop of 255, which is one position too many.
pub(crate) const TOO_LONG: [u8; 10] = [255, 0, 0, 0, 2, 0, 1, 0, 0, 0];

// The six forms v0, ○v0, v0 → ○v0, v0 → v0, □v0, v0 → □v0, of which v0 → ○v0 is assumed.
pub(crate) fn carry(heap: Global) -> Result<SealedCase, Fail> {
    let mut case = OpenCase::new(heap)?;
    let forms = [
        (1, 0, 0),
        (3, 0, 0),
        (2, 0, 1),
        (2, 0, 0),
        (4, 0, 0),
        (2, 0, 4),
    ];
    for (kind, left, right) in forms {
        case.form(kind, left, right)?;
    }
    case.assume(2)?;
    Ok(case.seal())
}

// The same case with a refutation of □v0 at each of these positions, which are below 256.
pub(crate) fn refuted(heap: Global, positions: Range<u16>) -> Result<SealedCase, Fail> {
    let mut case = carry(heap)?;
    for position in positions {
        case.refute(&PulseRun::new(&LONGEST), 4, position, &mut [0; 24])?;
    }
    Ok(case)
}

// The same case with 64 refutations of □v0, the first one at position 100 and each at the one behind the last.
pub(crate) fn full(heap: Global) -> Result<SealedCase, Fail> {
    refuted(heap, 100..164)
}

// The bytes of a table run in which v0 is true but at one position, or at all if that lies past the end.
pub(crate) fn all_but(
    heap: Global,
    stem: u16,
    loop_length: u16,
    gap: usize,
) -> Result<Vec<u8>, AllocError> {
    let mut bytes = Vec::new(heap);
    bytes.extend_from_slice(&stem.to_le_bytes())?;
    bytes.extend_from_slice(&loop_length.to_le_bytes())?;
    for position in 0..usize::from(stem) + usize::from(loop_length) {
        let word = u32::from(position != gap);
        bytes.extend_from_slice(&word.to_le_bytes())?;
    }
    Ok(bytes)
}

// The bytes of a file for that case: six form records, an assume record and the seal.
pub(crate) const CARRY: [u8; 64] = [
    5, 0, 1, 0, 1, 0, 0, 0, 0, 5, 0, 1, 0, 3, 0, 0, 0, 0, 5, 0, 1, 0, 2, 0, 0, 1, 0, 5, 0, 1, 0, 2,
    0, 0, 0, 0, 5, 0, 1, 0, 4, 0, 0, 0, 0, 5, 0, 1, 0, 2, 0, 0, 4, 0, 2, 0, 2, 0, 2, 0, 0, 0, 3, 0,
];
