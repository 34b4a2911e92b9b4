// What a case is, what its calls answer and leave, and what every history of calls keeps: definitions and theorems.
#![tactic(auto)]

mod counts;
mod line;
mod refutation;
mod standing;

pub use counts::Counts;
pub use line::Line;
pub use refutation::Refutation;
pub use standing::Standing;
