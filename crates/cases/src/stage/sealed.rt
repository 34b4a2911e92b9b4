// The second stage: a case has the assumptions that it had when it was sealed, and holds lines and refutations.
use crate::stage::{LINES, REFUTATIONS, Stage};
use lists::Table;
use model::{Line, Refutation};

/// It holds lines and refutations.
#[derive(Drop)]
pub struct Sealed {
    pub(crate) lines: Table<Line, LINES>,
    pub(crate) refutations: Table<Refutation, REFUTATIONS>,
}

impl Stage for Sealed {
    ghost held = { λ stage. record { lines = stage.lines; refutations = stage.refutations } };

    fn lines(&self) -> &[Line] {
        self.lines.as_slice()
    }

    fn refutations(&self) -> &[Refutation] {
        self.refutations.as_slice()
    }
}
