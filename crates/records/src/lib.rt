// Records of case files: where they stand in a file, what each asks for, and what can be wrong with one.
#![tactic(auto)]

mod body_record;
mod fault;
mod front_record;
mod payload;
mod record;

pub use body_record::BodyRecord;
pub use fault::{Cause, ErrorAt, Fault, PayloadFault, RecordFault, with_offset};
pub use front_record::FrontRecord;
pub use payload::Form;
pub use record::{Record, Records};
