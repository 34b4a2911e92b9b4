// From a file's bytes to its listing: the front, the seal, the body, the listing.
#![tactic(auto)]

ghost use Rattle.std.specs.Prelude.{◌≡◌, IfOk, replicate, take};
ghost use Rattle.model.specs.Case.{empty};
ghost use Rattle.cases.specs.Model.{opened, sealed};
ghost use Rattle.listing.specs.Written.{written_answer, written_after};
ghost use Rattle.checker.specs.Checked.{checked, from_front, file_listing};
ghost use Rattle.checker.specs.Unwritten.{ListsInto};
ghost use Rattle.checker.specs.Promises.{ListsHistory, AllPromises};

use cases::{OpenCase, SealedCase};
use files::{Fault, read_body, read_front};
use listing::{LISTING_MOST, ListingRefusal, Unread, write_listing};
use rules::{DerivedPage, PublishedPage};
use std::alloc::{AllocError, Global};
pub use unwritten::Unwritten;

mod unwritten;

/// The most bytes that a file has.
pub const FILE_MOST: usize = 16_384;

/// The most bytes of an input that are worth reading: with one byte more than a file may have it is known to be too long.
pub const INPUT_MOST: usize = FILE_MOST + 1;

/// The scratch words with which no refutation is refused for having too few: four for each of 1,024 formulas.
pub const SCRATCH_MOST: usize = 4096;

// The page that lines are entered under: the derived rules over the published page.
const PAGE: DerivedPage<PublishedPage> = DerivedPage {
    below: PublishedPage,
};

/// Reads a file into an open case, with scratch words for its refutations, and writes the listing into a caller's buffer,
/// since nothing is allocated after a case is made: its length in bytes is answered.
///
/// A buffer that is shorter than the listing is refused by 27, and stays as it is; 20,480 bytes are always enough.
#[tactic(auto, using(crate::proofs::Promised::all_promises))]
pub fn list_file(
    case: OpenCase,
    file: &[u8],
    scratch: &mut [u64],
    buffer: &mut [u8],
) -> Result<usize, ListingRefusal>
    ensures answer { result
        ≡ written_answer (file_listing (opened case) scratch.old file.now) buffer.old }
    ensures after { buffer.new
        ≡ written_after (file_listing (opened case) scratch.old file.now) buffer.old }
    ensures words { scratch.new ≡ (checked (opened case) scratch.old file.now).scratch }
    ensures promised { AllPromises }
{
    let (case, ending) = read_file(case, file, scratch);
    write_listing(&case, ending, buffer)
}

/// Writes the listing of a file that is read into a new case, with scratch words of its own, into a caller's buffer, and
/// answers its length in bytes. It is that of the history that the file makes: its front's calls, the seal, its body's calls.
///
/// A buffer that is shorter than the listing is refused by 27; 28 is answered where memory is lacking. The buffer then stays
/// as it is.
#[tactic(auto, using(crate::proofs::Promised::all_promises))]
pub fn list_into(heap: Global, file: &[u8], buffer: &mut [u8]) -> Result<usize, Unwritten>
    ensures text { ListsInto SCRATCH_MOST file.now buffer.old result buffer.new }
    ensures history { IfOk result (λ n. ListsHistory SCRATCH_MOST file.now (take n buffer.new)) }
    ensures promised { AllPromises }
{
    let mut scratch = vec![in heap; 0; SCRATCH_MOST]?;
    let case = OpenCase::new(heap)?;
    Ok(list_file(case, file, &mut scratch, buffer)?)
}

/// The listing of a file that is read into a new case, in memory of its own. Only where memory is lacking there is none.
#[tactic(auto, using(crate::proofs::Promised::all_promises))]
pub fn listing_of(heap: Global, file: &[u8]) -> Result<Vec<u8>, AllocError>
    ensures text { IfOk result (λ text.
        text.items ≡ file_listing empty (replicate SCRATCH_MOST 0) file.now) }
    ensures history { IfOk result (λ text. ListsHistory SCRATCH_MOST file.now text.items) }
    ensures promised { AllPromises }
{
    let mut buffer = vec![in heap; 0; LISTING_MOST]?;
    match list_into(heap, file, &mut buffer) {
        Ok(length) => {
            buffer.truncate(length);
            Ok(buffer)
        }
        Err(Unwritten::NoMemory) => Err(AllocError),
        // The buffer has room for every listing.
        Err(Unwritten::BufferTooShort) => unreachable!(),
    }
}

// Reads a file into a case, which is sealed in any case, and answers how that ended beside it.
fn read_file(
    mut case: OpenCase,
    file: &[u8],
    scratch: &mut [u64],
) -> (SealedCase, Result<usize, Unread>)
    ensures case { sealed result.0 ≡ (checked (opened case) scratch.old file.now).case }
    ensures ending { result.1 ≡ (checked (opened case) scratch.old file.now).ending }
    ensures words { scratch.new ≡ (checked (opened case) scratch.old file.now).scratch }
{
    if file.len() > FILE_MOST {
        return (case.seal(), Err(Unread::TooLong));
    }
    let front = read_front(&mut case, file);
    let mut sealed = case.seal();
    let ending = read_behind(front, &mut sealed, file, scratch);
    (sealed, ending)
}

// Reads the body after a front. A refused front has none.
fn read_behind(
    front: Result<usize, Fault>,
    case: &mut SealedCase,
    file: &[u8],
    scratch: &mut [u64],
) -> Result<usize, Unread>
    ensures ending { result ≡ (from_front scratch.old file.now front (sealed case.old)).ending }
    ensures after { sealed case.new
        ≡ (from_front scratch.old file.now front (sealed case.old)).case }
    ensures words { scratch.new
        ≡ (from_front scratch.old file.now front (sealed case.old)).scratch }
{
    let start = front?;
    read_body(case, &PAGE, file, start, scratch)?;
    Ok(file.len())
}
