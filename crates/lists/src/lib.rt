// Lists that are found by number: a table of fixed room, and what adding to a list without repeats does.
#![tactic(auto)]

mod table;

pub use table::Table;
