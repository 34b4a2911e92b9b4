// The numbers of the axioms, the rules and the derived rules.
/// The number of the axioms that are tautologies.
pub const TAUT: u16 = 1;

/// The number of the axiom ¬○A ↔ ○¬A.
pub const LTL1: u16 = 2;

/// The number of the axiom ○(A → B) → (○A → ○B).
pub const LTL2: u16 = 3;

/// The number of the axiom □A → (A ∧ ○□A).
pub const LTL3: u16 = 4;

/// The number of the rule that gives B from A and A → B.
pub const MP: u16 = 5;

/// The number of the rule that gives ○A from A.
pub const NEX: u16 = 6;

/// The number of the rule that gives A → □B from A → B and A → ○A.
pub const IND: u16 = 7;

/// The number of the derived rule that gives □A from A.
pub const ALW: u16 = 16;

/// The number of the derived rule that gives A → □A from A → ○A.
pub const IND1: u16 = 17;

/// The number of the derived rule that gives A → ◇B from A → ○B.
pub const SOM: u16 = 18;

/// The number of the derived rule that gives A → ◇C from A → ◇B and B → ◇C.
pub const CHAIN: u16 = 19;
