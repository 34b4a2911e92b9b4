// The stages of a case, and what a case holds at each of them.
ghost use Rattle.std.specs.Prelude.{◌≡◌, ◌≤◌, length};
ghost use Rattle.cases.specs.Held.{Held};

use model::{Line, Refutation};

mod open;
mod sealed;

pub use open::Open;
pub use sealed::Sealed;

/// The most lines that a case holds.
pub(crate) const LINES: u16 = 512;

/// The most refutations that a case holds.
pub(crate) const REFUTATIONS: u16 = 64;

/// What a case holds at its stage.
pub trait Stage {
    ghost held: { Self → Held };

    /// The lines, by number; at most 512.
    fn lines(&self) -> &[Line]
        ensures held { result.now ≡ (held self.now).lines }
        ensures within { length result.now ≤ LINES };

    /// The refutations, by number; at most 64.
    fn refutations(&self) -> &[Refutation]
        ensures held { result.now ≡ (held self.now).refutations }
        ensures within { length result.now ≤ REFUTATIONS };
}
