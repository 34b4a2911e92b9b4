// Why no formula is entered, and the number that a caller is told.
ghost use Rattle.std.specs.Prelude.{◌≡◌};
ghost use Rattle.formulas.specs.Refusals.{form_number};

use thiserror::Error;

/// Why `form` enters nothing. Each has the number that a caller is told.
#[derive(Clone, Copy, PartialEq, Eq, Debug, Drop, Error)]
pub enum FormRefusal {
    /// 1: the kind is above 4.
    #[error("the formula's kind is above 4")]
    UnknownKind = 1,
    /// 2: an operand is not entered, an atom is above 31, or an unused field is not 0.
    #[error("an operand is not entered, an atom is above 31, or an unused field is not 0")]
    BadField = 2,
    /// 3: the formula is new, and 1,024 are entered.
    #[error("the formula is new, and 1,024 formulas are entered")]
    FormulasFull = 3,
}

impl FormRefusal {
    /// The number that a caller is told: 1, 2 or 3.
    pub fn number(self) -> u8
        ensures { result ≡ form_number self }
    {
        self as u8
    }
}
