// Why no listing is written.
ghost use Rattle.std.specs.Prelude.{◌≡◌};
ghost use Rattle.listing.specs.Written.{listing_number};

use thiserror::Error;

/// Why no listing is written.
#[derive(Clone, Copy, PartialEq, Eq, Debug, Error)]
pub enum ListingRefusal {
    /// 27: the buffer is shorter than the listing.
    #[error("the buffer is shorter than the listing")]
    BufferTooShort = 27,
}

impl ListingRefusal {
    /// The number that a caller is told.
    pub fn number(self) -> u8
        ensures { result ≡ listing_number self }
    {
        self as u8
    }
}
