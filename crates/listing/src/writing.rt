// A listing, written into a caller's buffer whole or not at all.
ghost use Rattle.std.specs.Prelude.{◌≡◌};
ghost use Rattle.cases.specs.Model.{sealed};
ghost use Rattle.listing.specs.Listing.{listing};
ghost use Rattle.listing.specs.LineByLine.{LinesForSettled};
ghost use Rattle.listing.specs.Room.{AlwaysRoom};
ghost use Rattle.listing.specs.SameListing.{ListingTells};
ghost use Rattle.listing.specs.Written.{written_answer, written_after};

use crate::lines::{counts_line, ending_line};
use crate::refusal::ListingRefusal;
use crate::standings::{copy_standings, standings, standings_len};
use crate::unread::Unread;
use cases::SealedCase;

/// A buffer of this many bytes is never too short.
pub const LISTING_MOST: usize = 20_480;

/// Writes the listing of a case to the front of a buffer, and answers its length in bytes: a line of counts, a line for each
/// formula that is derived or refuted, and a line that says how the reading of its file ended. Bytes after the listing
/// stay. A buffer that is shorter than the listing is refused with `BufferTooShort`, 27, and stays as it is.
#[tactic(auto, using(crate::proofs::Room::always_room, crate::proofs::SameListing::listing_tells, crate::proofs::LineByLine::lines_for_settled))]
pub fn write_listing(
    case: &SealedCase,
    ending: Result<usize, Unread>,
    buffer: &mut [u8],
) -> Result<usize, ListingRefusal>
    ensures answer { result ≡ written_answer (listing (sealed case.now) ending) buffer.old }
    ensures after { buffer.new ≡ written_after (listing (sealed case.now) ending) buffer.old }
    ensures enough { AlwaysRoom LISTING_MOST }
    ensures tells { ListingTells }
    ensures lines { LinesForSettled }
{
    let first = counts_line(case.counts());
    let last = ending_line(ending);
    let (first, last) = (first.as_slice(), last.as_slice());
    let at = first.len();
    let standings = standings(case);
    let behind = at + standings_len(case, &standings);
    let end = behind + last.len();
    if end > buffer.len() {
        return Err(ListingRefusal::BufferTooShort);
    }
    buffer[..at].copy_from_slice(first);
    copy_standings(case, &standings, &mut buffer[at..behind]);
    buffer[behind..end].copy_from_slice(last);
    Ok(end)
}
