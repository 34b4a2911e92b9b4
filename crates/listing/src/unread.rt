// Why a file was not read to its end.
ghost use Rattle.std.specs.Prelude.{◌≡◌};
ghost use Rattle.listing.specs.declared.unread.Unread.TheVariants.{Refused};

use records::Fault;

/// Why a file was not read to its end.
#[derive(Clone, Copy, PartialEq, Eq, Debug)]
pub enum Unread {
    /// The input is longer than a file may be, and nothing of it was read.
    TooLong,
    /// The reading ended at a record that was refused, or where one was due.
    Refused(Fault),
}

impl From<Fault> for Unread {
    ghost from_gives = { λ f r. r ≡ Refused f };

    fn from(fault: Fault) -> Unread {
        Unread::Refused(fault)
    }
}
