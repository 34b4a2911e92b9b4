// The answers of a page of rules.

/// What a page of rules says of a step from premises to a conclusion, by a rule's number.
#[derive(Clone, Copy, PartialEq, Eq, Debug)]
pub enum Verdict {
    /// The rule gives the conclusion from these premises.
    Admitted,
    /// The rule does not, or the page has no rule with this number.
    NotAdmitted,
    /// The formula has more prime parts than the page tries as a tautology. Whether it is one is left open.
    BeyondLimit,
}
