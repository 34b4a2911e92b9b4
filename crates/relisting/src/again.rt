// One file listed over and over: how often that gives the listing which it had before.
use cases::OpenCase;
use checker::{SCRATCH_MOST, list_file, list_into, listing_of};
use listing::LISTING_MOST;
use std::alloc::{AllocError, Global};

// So often that a call which keeps its smallest block keeps some megabytes in the end.
const TIMES: u32 = 100_000;

// On a new case each time.
pub(crate) fn by_list_file(heap: Global, file: &[u8], listing: &[u8]) -> Result<u32, AllocError> {
    let mut scratch = vec![in heap; 0u64; SCRATCH_MOST]?;
    let mut buffer = vec![in heap; 0u8; LISTING_MOST]?;
    let mut same = 0u32;
    for _ in 0..TIMES {
        let listed = list_file(OpenCase::new(heap)?, file, &mut scratch, &mut buffer);
        let is_same = listed == Ok(listing.len()) && buffer.starts_with(listing);
        same = same.wrapping_add(u32::from(is_same));
    }
    Ok(same)
}

pub(crate) fn by_list_into(heap: Global, file: &[u8], listing: &[u8]) -> Result<u32, AllocError> {
    let mut buffer = vec![in heap; 0u8; LISTING_MOST]?;
    let mut same = 0u32;
    for _ in 0..TIMES {
        let listed = list_into(heap, file, &mut buffer);
        let is_same = listed == Ok(listing.len()) && buffer.starts_with(listing);
        same = same.wrapping_add(u32::from(is_same));
    }
    Ok(same)
}

pub(crate) fn by_listing_of(heap: Global, file: &[u8], listing: &[u8]) -> u32 {
    let mut same = 0u32;
    for _ in 0..TIMES {
        let is_same = match listing_of(heap, file) {
            Ok(text) => text.as_slice() == listing,
            Err(_) => false,
        };
        same = same.wrapping_add(u32::from(is_same));
    }
    same
}
