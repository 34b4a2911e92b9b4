// Line and refutation records of a file. Behind the head of four bytes kind 4 has the rule, the formula and two places.
// Kind 5 has a table, kind 6 has pulses: each has the formula and the position, and then the run.
use crate::samples::CARRY;
use checker::listing_of;
use std::alloc::Global;
use std::test::Fail;

// □v0 at 0, by the run of one position without atoms.
const HELD: [u8; 10] = [6, 0, 6, 0, 4, 0, 0, 0, 1, 0];

// The first line where nothing behind the seal is held.
const COUNTS: &[u8] = b"formulas 6 assumptions 1 lines 0 refutations 0\n";

// The listing of the six formulas, one of them assumed, and of the records behind the seal, whose offset is 64.
fn listed(heap: Global, body: &[u8]) -> Result<Vec<u8>, Fail> {
    let mut file = Vec::new(heap);
    file.extend_from_slice(&CARRY)?;
    file.extend_from_slice(body)?;
    Ok(listing_of(heap, &file)?)
}

// Whether nothing is held, and the listing has this last line.
fn ends(heap: Global, body: &[u8], ending: &[u8]) -> Result<bool, Fail> {
    let mut expected = Vec::new(heap);
    expected.extend_from_slice(COUNTS)?;
    expected.extend_from_slice(ending)?;
    Ok(listed(heap, body)? == expected)
}

// □v0 at 0 by a table of one position without atoms; ○v0 at 0 by a pulse that makes v0 true from 2 on; □v0 at 1 by a
// loop of 2 without pulses; and a form record behind them.
#[test]
fn refutations_of_both_kinds_are_held(rt: HostRuntime) -> Result<(), Fail> {
    let body = [
        12, 0, 5, 0, 4, 0, 0, 0, 0, 0, 1, 0, 0, 0, 0, 0, 14, 0, 6, 0, 1, 0, 0, 0, 1, 0, 0, 0, 2, 0,
        1, 0, 1, 0, 6, 0, 6, 0, 4, 0, 1, 0, 2, 0, 5, 0, 1, 0, 3, 5, 0, 0, 0,
    ];
    let listing = listed(rt.alloc(), &body)?;
    assert!(rt;
        listing.as_slice()
            == b"formulas 7 assumptions 1 lines 0 refutations 3\n1 refuted 1\n4 refuted 0\nread 117\n".as_slice()
    );
    Ok(())
}

// A word stands for each position up to the loop's end, and the loop has at least one.
#[test]
fn tables_are_looked_at(rt: HostRuntime) -> Result<(), Fail> {
    let heap = rt.alloc();
    let wrong_length = b"refused 2 24 64\n";
    let no_run = b"refused 2 26 64\n";
    assert!(rt; ends(heap, &[3, 0, 5, 0, 4, 0, 0], wrong_length)?);
    assert!(rt; ends(heap, &[4, 0, 5, 0, 4, 0, 0, 0], wrong_length)?);
    assert!(rt; ends(heap, &[8, 0, 5, 0, 4, 0, 0, 0, 0, 0, 1, 0], wrong_length)?);
    let longer = [13, 0, 5, 0, 4, 0, 0, 0, 0, 0, 1, 0, 0, 0, 0, 0, 0];
    assert!(rt; ends(heap, &longer, wrong_length)?);
    let stem_alone = [12, 0, 5, 0, 4, 0, 0, 0, 1, 0, 0, 0, 0, 0, 0, 0];
    assert!(rt; ends(heap, &stem_alone, no_run)?);
    assert!(rt; ends(heap, &[8, 0, 5, 0, 4, 0, 0, 0, 0, 0, 0, 0], no_run)?);
    Ok(())
}

// Pulses have eight bytes each, and keep to their loop, which has at least one position.
#[test]
fn pulses_are_looked_at(rt: HostRuntime) -> Result<(), Fail> {
    let heap = rt.alloc();
    let wrong_length = b"refused 2 24 64\n";
    let no_run = b"refused 2 26 64\n";
    assert!(rt; ends(heap, &[3, 0, 6, 0, 4, 0, 0], wrong_length)?);
    assert!(rt; ends(heap, &[5, 0, 6, 0, 4, 0, 0, 0, 1], wrong_length)?);
    let shorter = [13, 0, 6, 0, 4, 0, 0, 0, 1, 0, 0, 0, 0, 0, 1, 0, 1];
    assert!(rt; ends(heap, &shorter, wrong_length)?);
    assert!(rt; ends(heap, &[6, 0, 6, 0, 4, 0, 0, 0, 0, 0], no_run)?);
    let wide = [14, 0, 6, 0, 4, 0, 0, 0, 6, 0, 0, 0, 0, 0, 2, 0, 3, 0];
    assert!(rt; ends(heap, &wide, no_run)?);
    Ok(())
}

// The length before the run, and the run before the call: formula 9 is not entered.
#[test]
fn payloads_are_looked_at_in_order(rt: HostRuntime) -> Result<(), Fail> {
    let heap = rt.alloc();
    let no_loop_and_a_byte = [9, 0, 5, 0, 4, 0, 0, 0, 0, 0, 0, 0, 0];
    assert!(rt; ends(heap, &no_loop_and_a_byte, b"refused 2 24 64\n")?);
    let no_loop = [8, 0, 5, 0, 9, 0, 0, 0, 0, 0, 0, 0];
    assert!(rt; ends(heap, &no_loop, b"refused 2 26 64\n")?);
    let no_pulse_loop = [6, 0, 6, 0, 9, 0, 0, 0, 0, 0];
    assert!(rt; ends(heap, &no_pulse_loop, b"refused 2 26 64\n")?);
    Ok(())
}

// v0 → v0 as a tautology, v0 → ○v0 as the assumption, and v0 → □v0 by induction from these.
#[test]
fn lines_are_held(rt: HostRuntime) -> Result<(), Fail> {
    let body = [
        8, 0, 4, 0, 1, 0, 3, 0, 255, 255, 255, 255, 8, 0, 4, 0, 0, 0, 2, 0, 255, 255, 255, 255, 8,
        0, 4, 0, 7, 0, 5, 0, 0, 0, 1, 0,
    ];
    let listing = listed(rt.alloc(), &body)?;
    assert!(rt;
        listing.as_slice()
            == b"formulas 6 assumptions 1 lines 3 refutations 0\n2 derived 1\n3 derived 0\n5 derived 2\nread 100\n".as_slice()
    );
    Ok(())
}

// v0 → ○v0 as the assumption, twice, and v0 → □v0 from its first line by the derived rule 17.
#[test]
fn lines_are_held_by_derived_rules(rt: HostRuntime) -> Result<(), Fail> {
    let body = [
        8, 0, 4, 0, 0, 0, 2, 0, 255, 255, 255, 255, 8, 0, 4, 0, 0, 0, 2, 0, 255, 255, 255, 255, 8,
        0, 4, 0, 17, 0, 5, 0, 0, 0, 255, 255,
    ];
    let listing = listed(rt.alloc(), &body)?;
    assert!(rt;
        listing.as_slice()
            == b"formulas 6 assumptions 1 lines 3 refutations 0\n2 derived 0\n5 derived 2\nread 100\n".as_slice()
    );
    Ok(())
}

// A line has eight bytes, before the call: formula 6 is not entered.
#[test]
fn line_payloads_are_looked_at(rt: HostRuntime) -> Result<(), Fail> {
    let heap = rt.alloc();
    let wrong_length = b"refused 2 24 64\n";
    assert!(rt; ends(heap, &[0, 0, 4, 0], wrong_length)?);
    let shorter = [7, 0, 4, 0, 1, 0, 6, 0, 255, 255, 255];
    assert!(rt; ends(heap, &shorter, wrong_length)?);
    let longer = [9, 0, 4, 0, 1, 0, 6, 0, 255, 255, 255, 255, 0];
    assert!(rt; ends(heap, &longer, wrong_length)?);
    Ok(())
}

// Formula 6 is not entered; no line is held yet, neither at place 0 nor at 65,534; and v0 → ○v0 is no tautology.
#[test]
fn the_case_refuses_lines(rt: HostRuntime) -> Result<(), Fail> {
    let heap = rt.alloc();
    let not_entered = [8, 0, 4, 0, 1, 0, 6, 0, 255, 255, 255, 255];
    assert!(rt; ends(heap, &not_entered, b"refused 3 4 64\n")?);
    let first = [8, 0, 4, 0, 1, 0, 3, 0, 0, 0, 255, 255];
    assert!(rt; ends(heap, &first, b"refused 3 6 64\n")?);
    let second = [8, 0, 4, 0, 1, 0, 3, 0, 255, 255, 254, 255];
    assert!(rt; ends(heap, &second, b"refused 3 6 64\n")?);
    let no_tautology = [8, 0, 4, 0, 1, 0, 2, 0, 255, 255, 255, 255];
    assert!(rt; ends(heap, &no_tautology, b"refused 3 8 64\n")?);
    Ok(())
}

// The formula is false → false, a tautology.
#[test]
fn the_front_takes_no_lines(rt: HostRuntime) -> Result<(), Fail> {
    let file = [
        5, 0, 1, 0, 0, 0, 0, 0, 0, 5, 0, 1, 0, 2, 0, 0, 0, 0, 8, 0, 4, 0, 1, 0, 1, 0, 255, 255,
        255, 255, 0, 0, 3, 0,
    ];
    assert!(rt;
        listing_of(rt.alloc(), &file)?.as_slice()
            == b"formulas 2 assumptions 0 lines 0 refutations 0\nrefused 2 23 18\n".as_slice()
    );
    Ok(())
}

// Formula 0 is false, so each record would be held behind the seal.
#[test]
fn the_front_takes_no_refutations(rt: HostRuntime) -> Result<(), Fail> {
    let heap = rt.alloc();
    let refused = b"formulas 1 assumptions 0 lines 0 refutations 0\nrefused 2 23 9\n";
    let table = [
        5, 0, 1, 0, 0, 0, 0, 0, 0, 12, 0, 5, 0, 0, 0, 0, 0, 0, 0, 1, 0, 0, 0, 0, 0, 0, 0, 3, 0,
    ];
    assert!(rt; listing_of(heap, &table)?.as_slice() == refused.as_slice());
    let pulses = [
        5, 0, 1, 0, 0, 0, 0, 0, 0, 6, 0, 6, 0, 0, 0, 0, 0, 1, 0, 0, 0, 3, 0,
    ];
    assert!(rt; listing_of(heap, &pulses)?.as_slice() == refused.as_slice());
    let behind = [
        5, 0, 1, 0, 0, 0, 0, 0, 0, 0, 0, 3, 0, 6, 0, 6, 0, 0, 0, 0, 0, 1, 0,
    ];
    assert!(rt;
        listing_of(heap, &behind)?.as_slice()
            == b"formulas 1 assumptions 0 lines 0 refutations 1\n0 refuted 0\nread 23\n".as_slice()
    );
    Ok(())
}

// Formula 6 is not entered; 257 positions; position 1 of one; an assumption that is false; v0 → v0.
#[test]
fn the_case_refuses(rt: HostRuntime) -> Result<(), Fail> {
    let heap = rt.alloc();
    assert!(rt; ends(heap, &[6, 0, 6, 0, 6, 0, 0, 0, 1, 0], b"refused 3 4 64\n")?);
    assert!(rt; ends(heap, &[6, 0, 6, 0, 4, 0, 0, 0, 1, 1], b"refused 3 10 64\n")?);
    assert!(rt; ends(heap, &[6, 0, 6, 0, 4, 0, 1, 0, 1, 0], b"refused 3 11 64\n")?);
    let once = [16, 0, 5, 0, 5, 0, 0, 0, 1, 0, 1, 0, 1, 0, 0, 0, 0, 0, 0, 0];
    assert!(rt; ends(heap, &once, b"refused 3 13 64\n")?);
    assert!(rt; ends(heap, &[6, 0, 6, 0, 3, 0, 0, 0, 1, 0], b"refused 3 14 64\n")?);
    Ok(())
}

// The 65th refutation is refused, at the offset of its head; those before it stay held.
#[test]
fn the_case_takes_64_refutations(rt: HostRuntime) -> Result<(), Fail> {
    let heap = rt.alloc();
    let mut body = Vec::new(heap);
    for _ in 0..65 {
        body.extend_from_slice(&HELD)?;
    }
    let listing = listed(heap, &body)?;
    assert!(rt;
        listing.as_slice()
            == b"formulas 6 assumptions 1 lines 0 refutations 64\n4 refuted 0\nrefused 3 15 704\n".as_slice()
    );
    Ok(())
}
