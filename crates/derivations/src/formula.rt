// Formulas as they are written, with the abbreviations.
use cases::{Case, Stage};
use refusals::Refusal;

// Small trees that are written down in the program, so that references to parts do.
#[derive(Clone, Copy)]
pub(crate) enum Formula<'a> {
    Atom(u8),
    Implies(&'a Formula<'a>, &'a Formula<'a>),
    Next(&'a Formula<'a>),
    Always(&'a Formula<'a>),
    Not(&'a Formula<'a>),
    And(&'a Formula<'a>, &'a Formula<'a>),
    Iff(&'a Formula<'a>, &'a Formula<'a>),
    Eventually(&'a Formula<'a>),
}

// Enters a formula behind its parts, and answers its number.
pub(crate) fn form<S: Stage>(case: &mut Case<S>, formula: &Formula<'_>) -> Result<u16, Refusal> {
    match *formula {
        Formula::Atom(atom) => case.form(1, u16::from(atom), 0),
        Formula::Next(a) => {
            let operand = form(case, a)?;
            case.form(3, operand, 0)
        }
        Formula::Always(a) => {
            let operand = form(case, a)?;
            case.form(4, operand, 0)
        }
        Formula::Not(a) => {
            let operand = form(case, a)?;
            not(case, operand)
        }
        Formula::Eventually(a) => {
            let operand = form(case, a)?;
            eventually(case, operand)
        }
        Formula::Implies(a, b) => {
            let left = form(case, a)?;
            let right = form(case, b)?;
            implies(case, left, right)
        }
        Formula::And(a, b) => {
            let left = form(case, a)?;
            let right = form(case, b)?;
            and(case, left, right)
        }
        Formula::Iff(a, b) => {
            let left = form(case, a)?;
            let right = form(case, b)?;
            iff(case, left, right)
        }
    }
}

// A → B
pub(crate) fn implies<S: Stage>(case: &mut Case<S>, a: u16, b: u16) -> Result<u16, Refusal> {
    case.form(2, a, b)
}

// ¬A, which is A → false
fn not<S: Stage>(case: &mut Case<S>, a: u16) -> Result<u16, Refusal> {
    let falsum = case.form(0, 0, 0)?;
    implies(case, a, falsum)
}

// A ∧ B, which is ¬(A → ¬B)
fn and<S: Stage>(case: &mut Case<S>, a: u16, b: u16) -> Result<u16, Refusal> {
    let not_b = not(case, b)?;
    let not_both = implies(case, a, not_b)?;
    not(case, not_both)
}

// A ↔ B, which is (A → B) ∧ (B → A)
fn iff<S: Stage>(case: &mut Case<S>, a: u16, b: u16) -> Result<u16, Refusal> {
    let forth = implies(case, a, b)?;
    let back = implies(case, b, a)?;
    and(case, forth, back)
}

// ◇A, which is ¬□¬A
fn eventually<S: Stage>(case: &mut Case<S>, a: u16) -> Result<u16, Refusal> {
    let not_a = not(case, a)?;
    let never = case.form(4, not_a, 0)?;
    not(case, never)
}
