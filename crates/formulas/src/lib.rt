// The formula list: entries that share their parts, no two alike, each after its operands.
#![tactic(auto)]

mod entry;
mod list;
mod refusal;

pub use entry::Entry;
pub use list::{FORMULAS, FormulaList};
pub use refusal::FormRefusal;
