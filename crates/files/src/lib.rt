// Reads case files: makes the calls that the records of a file ask for.
#![tactic(auto)]

mod body;
mod front;

pub use body::read_body;
pub use front::read_front;
// what reading answers where a fault ends it
pub use records::{Cause, Fault, PayloadFault, RecordFault};
