// The standard axiom system of linear temporal logic, and rules that are derived in it: definitions and theorems.
#![tactic(auto)]

ghost use Rattle.calculus.specs.Promises.{PrimePartsListed, PrimePartsMatter, RulesKeepLaw, PublishedExact, PublishedLimit, DerivedExact, DerivationsSound};

mod verdict;

pub use verdict::Verdict;

/// The prime parts of a formula are listed, each once.
pub fn prime_parts_listed()
    ensures { PrimePartsListed }
{}

/// Choices of truth that agree on a formula's prime parts give it the same truth.
#[tactic(auto, using(crate::proofs::Tautologies::prime_parts_matter))]
pub fn prime_parts_matter()
    ensures { PrimePartsMatter }
{}

/// Each axiom and rule, and each derived rule, gives what holds throughout every run on which its premises do.
pub fn rules_keep_law()
    ensures { RulesKeepLaw }
{}

/// The published page admits a conclusion exactly when an axiom or a rule gives it, within the limit.
#[tactic(auto, using(crate::proofs::Exact::published_exact))]
pub fn published_exact()
    ensures { PublishedExact }
{}

/// The published page says that its limit is passed exactly for a formula of too many prime parts.
#[tactic(auto, using(crate::proofs::Exact::published_limit))]
pub fn published_limit()
    ensures { PublishedLimit }
{}

/// The derived page admits by its rules exactly what they give, and says of all others what the page below says.
#[tactic(auto, using(crate::proofs::Exact::derived_exact))]
pub fn derived_exact()
    ensures { DerivedExact }
{}

/// The formulas of a derivation's lines hold throughout every run on which its assumptions do.
pub fn derivations_sound()
    ensures { DerivationsSound }
{}
