// The first stage: a case takes formulas and assumptions.
ghost use Rattle.std.specs.Prelude.{◌≡◌, []};

use crate::stage::{LINES, REFUTATIONS, Stage};
use lists::Table;
use model::{Line, Refutation};

/// It holds nothing, and has set memory aside for what the case holds once it is sealed.
#[derive(Drop)]
pub struct Open {
    pub(crate) lines: Table<Line, LINES>,
    pub(crate) refutations: Table<Refutation, REFUTATIONS>,
    ghost no_lines: { lines ≡ [] },
    ghost no_refutations: { refutations ≡ [] },
}

impl Stage for Open {
    ghost use Rattle.cases.specs.Held.{nothing_held};

    ghost held = { λ _. nothing_held };

    /// None.
    fn lines(&self) -> &[Line] {
        &[]
    }

    /// None.
    fn refutations(&self) -> &[Refutation] {
        &[]
    }
}
