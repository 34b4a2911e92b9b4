// Tautologies, and where the limit lies.
use crate::connectives::{always, and, atom, atoms_chained, implies, next, not};
use crate::samples::by_rule;
use cases::{OpenCase, SealedCase};
use refusals::Refusal;
use rules::PublishedPage;
use std::test::Fail;

// A formula by rule 1.
fn taut(case: &mut SealedCase, formula: u16) -> Result<u16, Refusal> {
    case.line(&PublishedPage, by_rule(1, formula, None, None))
}

// v0 → (v1 → … (v11 → v0)) has 12 prime parts, and the same with v12 has 13. With a premise it is not admitted, and not
// beyond the limit.
#[test]
fn twelve_atoms_are_within_the_limit(rt: HostRuntime) -> Result<(), Fail> {
    let mut case = OpenCase::new(rt.alloc())?.seal();
    let twelve = atoms_chained(&mut case, 12)?;
    let thirteen = atoms_chained(&mut case, 13)?;
    assert_eq!(rt; taut(&mut case, twelve), Ok(0));
    assert_eq!(rt; taut(&mut case, thirteen), Err(Refusal::BeyondLimit));
    for (first, second) in [(Some(0), None), (None, Some(0)), (Some(0), Some(0))] {
        for formula in [twelve, thirteen] {
            let answer = case.line(&PublishedPage, by_rule(1, formula, first, second));
            assert_eq!(rt; answer, Err(Refusal::NotAdmitted));
        }
    }
    assert_eq!(rt; case.counts().lines, 1);
    Ok(())
}

// v11 → (… (v0 → false)), and v31 → that.
fn falsehoods(case: &mut SealedCase) -> Result<(u16, u16), Fail> {
    let mut formula = case.form(0, 0, 0)?;
    for number in 0..12 {
        let part = atom(case, number)?;
        formula = implies(case, part, formula)?;
    }
    let part = atom(case, 31)?;
    Ok((formula, implies(case, part, formula)?))
}

// A formula that is no tautology is beyond the limit too, if it has 13 prime parts.
#[test]
fn limits_come_before_truth(rt: HostRuntime) -> Result<(), Fail> {
    let mut case = OpenCase::new(rt.alloc())?.seal();
    let (twelve, thirteen) = falsehoods(&mut case)?;
    assert_eq!(rt; taut(&mut case, twelve), Err(Refusal::NotAdmitted));
    assert_eq!(rt; taut(&mut case, thirteen), Err(Refusal::BeyondLimit));
    Ok(())
}

// A tautology of the prime parts ○B for a long formula B, and of v, ○v and □v for the atoms v0 to v2.
fn ten_parts(case: &mut SealedCase) -> Result<u16, Fail> {
    let below = atoms_chained(case, 20)?;
    let next_below = next(case, below)?;
    let mut formula = implies(case, next_below, next_below)?;
    for number in 0..3 {
        let a = atom(case, number)?;
        let next_a = next(case, a)?;
        let always_a = always(case, a)?;
        for part in [a, next_a, always_a, next_a] {
            formula = implies(case, part, formula)?;
        }
    }
    Ok(formula)
}

// The same with one part more after another: ○v3, □v3 and v3.
fn more_parts(case: &mut SealedCase, ten: u16) -> Result<[u16; 3], Fail> {
    let a = atom(case, 3)?;
    let next_a = next(case, a)?;
    let always_a = always(case, a)?;
    let eleven = implies(case, next_a, ten)?;
    let twelve = implies(case, always_a, eleven)?;
    Ok([eleven, twelve, implies(case, a, twelve)?])
}

// An atom, and that with ○ or □ on top, are three parts; what is below ○ and □ is none, and equal parts count once.
#[test]
fn prime_parts_are_counted_once(rt: HostRuntime) -> Result<(), Fail> {
    let mut case = OpenCase::new(rt.alloc())?.seal();
    let ten = ten_parts(&mut case)?;
    let [eleven, twelve, thirteen] = more_parts(&mut case, ten)?;
    let again = implies(&mut case, twelve, twelve)?;
    for (number, formula) in [(0, ten), (1, eleven), (2, twelve), (3, again)] {
        assert_eq!(rt; taut(&mut case, formula), Ok(number));
    }
    assert_eq!(rt; taut(&mut case, thirteen), Err(Refusal::BeyondLimit));
    Ok(())
}

// A formula of v0 to v11 that is false under one choice of truth for them: where v0 is bit 0 of a number, and so on.
fn false_at(case: &mut SealedCase, number: u16) -> Result<u16, Fail> {
    let mut formula = case.form(0, 0, 0)?;
    for place in 0..12 {
        let mut part = atom(case, place)?;
        if number & (1 << place) == 0 {
            part = not(case, part)?;
        }
        formula = implies(case, part, formula)?;
    }
    Ok(formula)
}

// Each of the 4,096 choices of truth is tried.
#[test]
fn every_choice_is_tried(rt: HostRuntime) -> Result<(), Fail> {
    for number in 0..4096 {
        let mut case = OpenCase::new(rt.alloc())?.seal();
        let formula = false_at(&mut case, number)?;
        assert_eq!(rt;
            taut(&mut case, formula),
            Err(Refusal::NotAdmitted),
            "at {number}"
        );
    }
    Ok(())
}

// v0, □v0, □v0 → v0, false, ○false, and ¬○false.
const NO_TAUTOLOGIES: [(u8, u16, u16); 6] = [
    (1, 0, 0),
    (4, 0, 0),
    (2, 1, 0),
    (0, 0, 0),
    (3, 3, 0),
    (2, 4, 3),
];

// Atoms, ○ and □ are true and false each for itself: □v0 → v0 and ¬○false hold in each run, and are no tautologies.
#[test]
fn laws_of_runs_are_no_tautologies(rt: HostRuntime) -> Result<(), Fail> {
    let mut case = OpenCase::new(rt.alloc())?.seal();
    for (kind, left, right) in NO_TAUTOLOGIES {
        let formula = case.form(kind, left, right)?;
        assert_eq!(rt; taut(&mut case, formula), Err(Refusal::NotAdmitted));
    }
    let truth = case.form(2, 3, 3)?;
    assert_eq!(rt; taut(&mut case, truth), Ok(0));
    Ok(())
}

// 1,000 entries, each of which uses the one before twice, so that the tree below the last has more leaves than could
// ever be walked.
#[test]
fn shared_parts_are_looked_at_once(rt: HostRuntime) -> Result<(), Fail> {
    let mut case = OpenCase::new(rt.alloc())?.seal();
    let mut formula = atom(&mut case, 0)?;
    for _ in 0..1000 {
        formula = implies(&mut case, formula, formula)?;
    }
    assert_eq!(rt; formula, 1000);
    assert_eq!(rt; taut(&mut case, formula), Ok(0));
    Ok(())
}

// v0 ∧ v0, and that ∧ itself, and so on, 300 deep; then v0 → that, and that → v0.
fn conjunctions(case: &mut SealedCase) -> Result<[u16; 3], Fail> {
    let a = atom(case, 0)?;
    let mut formula = a;
    for _ in 0..300 {
        formula = and(case, formula, formula)?;
    }
    let forth = implies(case, a, formula)?;
    Ok([formula, forth, implies(case, formula, a)?])
}

#[test]
fn shared_conjunctions_are_looked_at_once(rt: HostRuntime) -> Result<(), Fail> {
    let mut case = OpenCase::new(rt.alloc())?.seal();
    let [formula, forth, back] = conjunctions(&mut case)?;
    assert_eq!(rt; taut(&mut case, formula), Err(Refusal::NotAdmitted));
    assert_eq!(rt; taut(&mut case, forth), Ok(0));
    assert_eq!(rt; taut(&mut case, back), Ok(1));
    Ok(())
}
