// Why a caller's buffer has no listing.
ghost use Rattle.std.specs.Prelude.{◌≡◌};
ghost use Rattle.checker.specs.Unwritten.{unwritten_number};
ghost use Rattle.checker.specs.declared.unwritten.Unwritten.TheVariants.{BufferTooShort, NoMemory};

use listing::ListingRefusal;
use std::alloc::AllocError;
use thiserror::Error;

/// Why a caller's buffer has no listing.
#[derive(Clone, Copy, PartialEq, Eq, Debug, Error)]
pub enum Unwritten {
    /// 27: the buffer is shorter than the listing.
    #[error("the buffer is shorter than the listing")]
    BufferTooShort = 27,
    /// 28: memory for a case is lacking.
    #[error("there is not enough memory for a case")]
    NoMemory = 28,
}

impl Unwritten {
    /// The number that a caller is told: 27 or 28.
    pub fn number(self) -> u8
        ensures { result ≡ unwritten_number self }
    {
        self as u8
    }
}

impl From<ListingRefusal> for Unwritten {
    ghost from_gives = { λ e u. u ≡ BufferTooShort };

    fn from(refusal: ListingRefusal) -> Unwritten {
        match refusal {
            ListingRefusal::BufferTooShort => Unwritten::BufferTooShort,
        }
    }
}

impl From<AllocError> for Unwritten {
    ghost from_gives = { λ e u. u ≡ NoMemory };

    fn from(_error: AllocError) -> Unwritten {
        Unwritten::NoMemory
    }
}
