// The listing of a case: its counts, how its formulas stand, and how the reading of its file ended.
#![tactic(auto)]

mod lines;
mod refusal;
mod standings;
mod text;
mod unread;
mod writing;

pub use refusal::ListingRefusal;
pub use unread::Unread;
pub use writing::{LISTING_MOST, write_listing};
