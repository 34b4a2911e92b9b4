// Listings, in a buffer and in memory of their own.
use crate::samples::CARRY;
use cases::OpenCase;
use checker::{list_file, listing_of};
use listing::ListingRefusal;
use std::test::Fail;

// The listing of no input has 62 bytes; those behind it stay, and a shorter buffer stays whole.
#[test]
fn listings_keep_to_their_bytes(rt: HostRuntime) -> Result<(), Fail> {
    let heap = rt.alloc();
    let mut buffer = [7; 64];
    assert_eq!(rt;
        list_file(OpenCase::new(heap)?, b"", &mut [], &mut buffer),
        Ok(62)
    );
    assert!(rt;
        &buffer[0..62]
            == b"formulas 0 assumptions 0 lines 0 refutations 0\nrefused 1 25 0\n".as_slice()
    );
    assert!(rt; buffer[62] == 7 && buffer[63] == 7);
    let mut short = [7; 61];
    assert_eq!(rt;
        list_file(OpenCase::new(heap)?, b"", &mut [], &mut short),
        Err(ListingRefusal::BufferTooShort)
    );
    assert!(rt; short == [7; 61]);
    Ok(())
}

// The listing of no input, in memory of its own.
#[test]
fn listings_are_made(rt: HostRuntime) -> Result<(), Fail> {
    let listing = listing_of(rt.alloc(), b"")?;
    assert!(rt;
        listing.as_slice()
            == b"formulas 0 assumptions 0 lines 0 refutations 0\nrefused 1 25 0\n".as_slice()
    );
    Ok(())
}

// This listing has 67 bytes: the counts take 47, the formula 12 and the ending 8. Without room for all three none is
// written.
#[test]
fn listings_with_refutations_keep_to_their_bytes(rt: HostRuntime) -> Result<(), Fail> {
    let heap = rt.alloc();
    let mut file = Vec::new(heap);
    file.extend_from_slice(&CARRY)?;
    file.extend_from_slice(&[6, 0, 6, 0, 4, 0, 0, 0, 1, 0])?;
    let mut buffer = [7; 68];
    assert_eq!(rt;
        list_file(OpenCase::new(heap)?, &file, &mut [0; 24], &mut buffer),
        Ok(67)
    );
    assert!(rt;
        &buffer[0..67]
            == b"formulas 6 assumptions 1 lines 0 refutations 1\n4 refuted 0\nread 74\n".as_slice()
    );
    assert!(rt; buffer[67] == 7);
    let mut short = [7; 66];
    assert_eq!(rt;
        list_file(OpenCase::new(heap)?, &file, &mut [0; 24], &mut short),
        Err(ListingRefusal::BufferTooShort)
    );
    assert!(rt; short == [7; 66]);
    Ok(())
}

// A refutation needs 24 scratch words for six formulas. With fewer the case refuses it.
#[test]
fn refutations_need_scratch(rt: HostRuntime) -> Result<(), Fail> {
    let heap = rt.alloc();
    let mut file = Vec::new(heap);
    file.extend_from_slice(&CARRY)?;
    file.extend_from_slice(&[6, 0, 6, 0, 4, 0, 0, 0, 1, 0])?;
    let mut buffer = [0; 63];
    assert_eq!(rt;
        list_file(OpenCase::new(heap)?, &file, &mut [0; 23], &mut buffer),
        Ok(63)
    );
    assert!(rt;
        buffer.as_slice()
            == b"formulas 6 assumptions 1 lines 0 refutations 0\nrefused 3 12 64\n".as_slice()
    );
    Ok(())
}

// Lines rise by the formula's number, whichever was refuted first: 11 before 2, and 11 again. Formula 0 is false, and
// the others are atoms.
#[test]
fn lines_rise_by_formula(rt: HostRuntime) -> Result<(), Fail> {
    let heap = rt.alloc();
    let mut file = Vec::new(heap);
    file.extend_from_slice(&[5, 0, 1, 0, 0, 0, 0, 0, 0])?;
    for atom in 0..11 {
        file.extend_from_slice(&[5, 0, 1, 0, 1, atom, 0, 0, 0])?;
    }
    file.extend_from_slice(&[0, 0, 3, 0])?;
    for formula in [11, 2, 11] {
        file.extend_from_slice(&[6, 0, 6, 0, formula, 0, 0, 0, 1, 0])?;
    }
    let listing = listing_of(heap, &file)?;
    assert!(rt;
        listing.as_slice()
            == b"formulas 12 assumptions 0 lines 0 refutations 3\n2 refuted 1\n11 refuted 0\nread 142\n".as_slice()
    );
    Ok(())
}
