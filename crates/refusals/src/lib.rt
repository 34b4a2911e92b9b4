// Why a call on a case is refused, and the number that a caller is told.
#![tactic(auto)]

ghost use Rattle.std.specs.Prelude.{◌≡◌};
ghost use Rattle.refusals.specs.Numbers.{number_of};

pub use formulas::FormRefusal;
use thiserror::Error;

/// Why a call on a case is refused. Each has the number that a caller is told.
#[derive(Clone, Copy, PartialEq, Eq, Debug, Drop, Error)]
pub enum Refusal {
    /// 1, 2 or 3: `form` enters nothing, as the formula list says.
    #[error(transparent)]
    Form(FormRefusal),
    /// 4: the formula is not entered.
    #[error("the formula is not entered")]
    NotEntered,
    /// 5: the assumption is new, and 16 are there.
    #[error("the assumption is new, and there are 16")]
    AssumptionsFull,
    /// 6: no line with this number is held: at a place of a line, or of a line that is read.
    #[error("no line with this number is held")]
    LineNotHeld,
    /// 7: 512 lines are held.
    #[error("512 lines are held")]
    LinesFull,
    /// 8: the page does not admit the line, or by rule 0 it is no assumption or has a place that is not empty.
    #[error("the line is not admitted")]
    NotAdmitted,
    /// 9: the page says that the line is beyond its limit.
    #[error("the line is beyond the limit of the page")]
    BeyondLimit,
    /// 10: the run's stem and loop have more than 256 positions.
    #[error("the run's stem and loop have more than 256 positions")]
    RunTooLong,
    /// 11: the position lies past the end of the run's loop.
    #[error("the position lies past the end of the run's loop")]
    PastRun,
    /// 12: the scratch has fewer than 4 words for each formula.
    #[error("the scratch has fewer than 4 words for each formula")]
    ScratchTooShort,
    /// 13: an assumption is false somewhere: the place of the first such one, and the first position where it is.
    #[error("the assumption at place {place} is false at position {position}")]
    AssumptionFalse { place: u16, position: u16 },
    /// 14: the formula is true at the position.
    #[error("the formula is true at the position")]
    FormulaTrue,
    /// 15: 64 refutations are held.
    #[error("64 refutations are held")]
    RefutationsFull,
    /// 16: no refutation with this number is held.
    #[error("no refutation with this number is held")]
    RefutationNotHeld,
}

impl Refusal {
    /// The number that a caller is told, 1 to 16.
    // by a match, and no numbers at the variants: two of them hold values
    pub fn number(self) -> u8
        ensures { result ≡ number_of self }
    {
        match self {
            Refusal::Form(refusal) => refusal.number(),
            Refusal::NotEntered => 4,
            Refusal::AssumptionsFull => 5,
            Refusal::LineNotHeld => 6,
            Refusal::LinesFull => 7,
            Refusal::NotAdmitted => 8,
            Refusal::BeyondLimit => 9,
            Refusal::RunTooLong => 10,
            Refusal::PastRun => 11,
            Refusal::ScratchTooShort => 12,
            Refusal::AssumptionFalse { .. } => 13,
            Refusal::FormulaTrue => 14,
            Refusal::RefutationsFull => 15,
            Refusal::RefutationNotHeld => 16,
        }
    }
}

impl From<FormRefusal> for Refusal {
    ghost use Rattle.refusals.specs.declared.Refusal.TheVariants.{Form};

    ghost from_gives = { λ refusal r. r ≡ Form refusal };

    /// The refusal that holds it whole.
    fn from(refusal: FormRefusal) -> Refusal {
        Refusal::Form(refusal)
    }
}
