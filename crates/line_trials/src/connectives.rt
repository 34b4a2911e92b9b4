// Formulas by their connectives.
use cases::{Case, Stage};
use std::test::Fail;

pub(crate) fn atom<S: Stage>(case: &mut Case<S>, number: u16) -> Result<u16, Fail> {
    Ok(case.form(1, number, 0)?)
}

pub(crate) fn implies<S: Stage>(case: &mut Case<S>, a: u16, b: u16) -> Result<u16, Fail> {
    Ok(case.form(2, a, b)?)
}

pub(crate) fn next<S: Stage>(case: &mut Case<S>, a: u16) -> Result<u16, Fail> {
    Ok(case.form(3, a, 0)?)
}

pub(crate) fn always<S: Stage>(case: &mut Case<S>, a: u16) -> Result<u16, Fail> {
    Ok(case.form(4, a, 0)?)
}

// A → false
pub(crate) fn not<S: Stage>(case: &mut Case<S>, a: u16) -> Result<u16, Fail> {
    let falsum = case.form(0, 0, 0)?;
    implies(case, a, falsum)
}

// ¬(A → ¬B)
pub(crate) fn and<S: Stage>(case: &mut Case<S>, a: u16, b: u16) -> Result<u16, Fail> {
    let not_b = not(case, b)?;
    let not_both = implies(case, a, not_b)?;
    not(case, not_both)
}

// (A → B) ∧ (B → A)
pub(crate) fn iff<S: Stage>(case: &mut Case<S>, a: u16, b: u16) -> Result<u16, Fail> {
    let forth = implies(case, a, b)?;
    let back = implies(case, b, a)?;
    and(case, forth, back)
}

// ¬□¬A
pub(crate) fn eventually<S: Stage>(case: &mut Case<S>, a: u16) -> Result<u16, Fail> {
    let not_a = not(case, a)?;
    let never = always(case, not_a)?;
    not(case, never)
}

// v0 → (v1 → … → v0), with a number of atoms, of which there are 32.
pub(crate) fn atoms_chained<S: Stage>(case: &mut Case<S>, atoms: u16) -> Result<u16, Fail> {
    let mut formula = atom(case, 0)?;
    for number in (0..atoms).rev() {
        let assumed = atom(case, number)?;
        formula = implies(case, assumed, formula)?;
    }
    Ok(formula)
}
