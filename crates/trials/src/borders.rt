// Next and always at the ends of stems, loops and words.
use crate::samples::{NOTHING, all_but, carry};
use refusals::Refusal;
use runs::TableRun;
use std::alloc::Global;
use std::test::Fail;

// ○v0 and □v0, by their numbers among the six forms.
const NEXT: u16 = 1;

const ALWAYS: u16 = 4;

// What a formula says at a position where v0 is true but at one.
fn said(
    heap: Global,
    (stem, loop_length, gap): (u16, u16, usize),
    formula: u16,
    position: u16,
) -> Result<Result<bool, Refusal>, Fail> {
    let bytes = all_but(heap, stem, loop_length, gap)?;
    Ok(carry(heap)?.truth(&TableRun::new(&bytes), formula, position, &mut [0; 24]))
}

// v0 fails at the loop's first position alone, which comes again behind its last one. In the stem it does not.
#[test]
fn always_goes_around_the_loop(rt: HostRuntime) -> Result<(), Fail> {
    let heap = rt.alloc();
    assert_eq!(rt; said(heap, (1, 3, 1), ALWAYS, 3)?, Ok(false));
    assert_eq!(rt; said(heap, (1, 3, 1), ALWAYS, 0)?, Ok(false));
    assert_eq!(rt; said(heap, (1, 3, 1), NEXT, 3)?, Ok(false));
    assert_eq!(rt; said(heap, (1, 3, 0), ALWAYS, 3)?, Ok(true));
    assert_eq!(rt; said(heap, (1, 3, 0), ALWAYS, 1)?, Ok(true));
    assert_eq!(rt; said(heap, (1, 3, 0), ALWAYS, 0)?, Ok(false));
    assert_eq!(rt; said(heap, (1, 3, 0), NEXT, 3)?, Ok(true));
    Ok(())
}

// The shortest run: its one position is followed by itself.
#[test]
fn one_position_follows_itself(rt: HostRuntime) -> Result<(), Fail> {
    let heap = rt.alloc();
    assert_eq!(rt; said(heap, (0, 1, 1), ALWAYS, 0)?, Ok(true));
    assert_eq!(rt; said(heap, (0, 1, 1), NEXT, 0)?, Ok(true));
    assert_eq!(rt; said(heap, (0, 1, 0), ALWAYS, 0)?, Ok(false));
    assert_eq!(rt; said(heap, (0, 1, 0), NEXT, 0)?, Ok(false));
    Ok(())
}

// v0 fails in the stem, beside a word's end or at the stem's last position: always holds behind it, and next fails before
// it.
#[test]
fn gaps_stand_beside_word_ends(rt: HostRuntime) -> Result<(), Fail> {
    let heap = rt.alloc();
    for (before, gap, behind) in [
        (62, 63, 64),
        (63, 64, 65),
        (126, 127, 128),
        (127, 128, 129),
        (191, 192, 193),
        (253, 254, 255),
    ] {
        let run = (255, 1, usize::from(gap));
        assert_eq!(rt; said(heap, run, ALWAYS, before)?, Ok(false));
        assert_eq!(rt; said(heap, run, ALWAYS, gap)?, Ok(false));
        assert_eq!(rt; said(heap, run, ALWAYS, behind)?, Ok(true));
        assert_eq!(rt; said(heap, run, NEXT, before)?, Ok(false));
        assert_eq!(rt; said(heap, run, NEXT, gap)?, Ok(true));
    }
    Ok(())
}

// v0 fails at one position of a loop that begins there: always fails everywhere, and next at the last position.
#[test]
fn loops_begin_at_words(rt: HostRuntime) -> Result<(), Fail> {
    let heap = rt.alloc();
    for (stem, loop_length) in [
        (63, 193),
        (64, 192),
        (127, 129),
        (128, 128),
        (192, 64),
        (255, 1),
    ] {
        let first = usize::from(stem);
        for position in [0, 62, 63, 64, 127, 128, 255] {
            assert_eq!(rt;
                said(heap, (stem, loop_length, first), ALWAYS, position)?,
                Ok(false)
            );
        }
        assert_eq!(rt;
            said(heap, (stem, loop_length, first), NEXT, 255)?,
            Ok(false)
        );
        assert_eq!(rt; said(heap, (stem, loop_length, 0), NEXT, 255)?, Ok(true));
    }
    Ok(())
}

// Loops that end with a word or beside its end.
#[test]
fn loops_end_at_words(rt: HostRuntime) -> Result<(), Fail> {
    let heap = rt.alloc();
    for (loop_length, last) in [
        (63, 62),
        (64, 63),
        (65, 64),
        (128, 127),
        (129, 128),
        (256, 255),
    ] {
        let gap = usize::from(last);
        assert_eq!(rt; said(heap, (0, loop_length, 256), ALWAYS, last)?, Ok(true));
        assert_eq!(rt; said(heap, (0, loop_length, gap), ALWAYS, 0)?, Ok(false));
        assert_eq!(rt; said(heap, (0, loop_length, 0), ALWAYS, last)?, Ok(false));
        assert_eq!(rt; said(heap, (0, loop_length, 0), NEXT, last)?, Ok(false));
        assert_eq!(rt; said(heap, (0, loop_length, gap), NEXT, last)?, Ok(true));
    }
    Ok(())
}

// Implication is true at the positions of the run alone: past the loop's end there is nothing in its row.
#[test]
fn rows_end_with_the_loop(rt: HostRuntime) -> Result<(), Fail> {
    let heap = rt.alloc();
    let mut scratch = [7; 24];
    let case = carry(heap)?;
    let bytes = all_but(heap, 0, 64, 64)?;
    assert_eq!(rt;
        case.truth(&TableRun::new(&bytes), 3, 63, &mut scratch),
        Ok(true)
    );
    assert!(rt; &scratch[12..16] == [u64::MAX, 0, 0, 0].as_slice());
    assert_eq!(rt;
        case.truth(&TableRun::new(&NOTHING), 3, 0, &mut scratch),
        Ok(true)
    );
    assert!(rt; &scratch[12..16] == [1, 0, 0, 0].as_slice());
    Ok(())
}
