// Pages of rules: what a page is asked and answers, the published page, and the derived page over any page.
#![tactic(auto)]

mod derived;
mod letters;
/// The numbers of the axioms, the rules and the derived rules.
pub mod numbers;
mod page;
mod published;
mod rule;
mod schema;

pub use calculus::Verdict;
pub use derived::DerivedPage;
pub use page::{Question, RulePage};
pub use published::PublishedPage;
