// Cases: formulas and assumptions, first open and then sealed; lines and refutations are held at the second stage.
#![tactic(auto)]

mod case;
mod stage;

pub use case::{Case, OpenCase, SealedCase};
pub use model::{Counts, Line, Refutation, Standing};
pub use stage::{Open, Sealed, Stage};
