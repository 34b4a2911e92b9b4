// Lines that are held, and what is read of them.
use crate::connectives::next;
use crate::pages::{NothingPage, TautPage};
use crate::samples::{NOTHING, ONCE, by_rule, carry, derived};
use cases::{Line, OpenCase, Standing};
use refusals::Refusal;
use rules::PublishedPage;
use runs::TableRun;
use std::test::Fail;

// v0 → v0 is a tautology, v0 → ○v0 is assumed, and by induction they give v0 → □v0.
#[test]
fn lines_are_held(rt: HostRuntime) -> Result<(), Fail> {
    let mut case = carry(rt.alloc())?;
    assert_eq!(rt; case.line(&PublishedPage, by_rule(1, 3, None, None)), Ok(0));
    assert_eq!(rt; case.line(&PublishedPage, by_rule(0, 2, None, None)), Ok(1));
    assert_eq!(rt;
        case.line(&PublishedPage, by_rule(7, 5, Some(0), Some(1))),
        Ok(2)
    );
    let induction = Line {
        rule: 7,
        formula: 5,
        first: Some(0),
        second: Some(1),
    };
    assert_eq!(rt; case.counts().lines, 3);
    assert_eq!(rt; case.held_line(2), Ok(induction));
    assert_eq!(rt; case.held_line(3), Err(Refusal::LineNotHeld));
    Ok(())
}

// The same line may be held again, under a new number.
#[test]
fn lines_are_held_twice(rt: HostRuntime) -> Result<(), Fail> {
    let mut case = derived(rt.alloc())?;
    assert_eq!(rt;
        case.line(&PublishedPage, by_rule(7, 5, Some(0), Some(1))),
        Ok(3)
    );
    assert_eq!(rt; case.held_line(3), case.held_line(2));
    assert_eq!(rt; case.standing(5), Ok(Standing::Derived(2)));
    Ok(())
}

// Each of these is refused, and then the next one that is held has the number that was due before.
#[test]
fn refused_lines_change_nothing(rt: HostRuntime) -> Result<(), Fail> {
    let mut case = derived(rt.alloc())?;
    let before = case.counts();
    for (rule, formula, first) in [(1, 6, None), (6, 5, Some(3)), (1, 5, None), (0, 3, None)] {
        assert!(rt;
            case.line(&PublishedPage, by_rule(rule, formula, first, None))
                .is_err()
        );
    }
    assert_eq!(rt; case.counts(), before);
    assert_eq!(rt; case.line(&PublishedPage, by_rule(1, 3, None, None)), Ok(3));
    Ok(())
}

// Formulas that are entered behind the seal can be derived, and the lines before stay.
#[test]
fn lines_stay_when_formulas_are_entered(rt: HostRuntime) -> Result<(), Fail> {
    let mut case = derived(rt.alloc())?;
    let induction = case.held_line(2);
    let next_carry = next(&mut case, 2)?;
    assert_eq!(rt; next_carry, 6);
    assert_eq!(rt; case.held_line(2), induction);
    assert_eq!(rt; case.counts().lines, 3);
    assert_eq!(rt;
        case.line(&PublishedPage, by_rule(6, next_carry, Some(1), None)),
        Ok(3)
    );
    let nex = Line {
        rule: 6,
        formula: 6,
        first: Some(1),
        second: None,
    };
    assert_eq!(rt; case.held_line(3), Ok(nex));
    Ok(())
}

// Rule 0 is the case's own: it takes an assumption, whatever the page is, and nothing else.
#[test]
fn assumptions_are_held_under_every_page(rt: HostRuntime) -> Result<(), Fail> {
    let mut case = carry(rt.alloc())?;
    assert_eq!(rt; case.line(&NothingPage, by_rule(0, 2, None, None)), Ok(0));
    assert_eq!(rt; case.line(&TautPage, by_rule(0, 2, None, None)), Ok(1));
    for (first, second) in [(Some(0), None), (None, Some(0)), (Some(0), Some(0))] {
        let answer = case.line(&PublishedPage, by_rule(0, 2, first, second));
        assert_eq!(rt; answer, Err(Refusal::NotAdmitted));
    }
    assert_eq!(rt;
        case.line(&TautPage, by_rule(0, 3, None, None)),
        Err(Refusal::NotAdmitted)
    );
    assert_eq!(rt;
        case.line(&PublishedPage, by_rule(0, 0, None, None)),
        Err(Refusal::NotAdmitted)
    );
    Ok(())
}

// Every other rule is the page's, also under numbers that no page of the program knows.
#[test]
fn pages_are_asked(rt: HostRuntime) -> Result<(), Fail> {
    let mut case = carry(rt.alloc())?;
    for rule in [1, 20, 65535] {
        let answer = case.line(&NothingPage, by_rule(rule, 3, None, None));
        assert_eq!(rt; answer, Err(Refusal::NotAdmitted));
    }
    for (rule, number) in [(1, 0), (20, 1), (65535, 2)] {
        let answer = case.line(&TautPage, by_rule(rule, 3, None, None));
        assert_eq!(rt; answer, Ok(number));
    }
    let told = case.held_line(2).map(|line| line.rule);
    assert_eq!(rt; told, Ok(65535));
    Ok(())
}

// A formula is derived, refuted or open. The first line of a formula counts, and a formula that is derived is not refuted.
#[test]
fn derived_formulas_stand(rt: HostRuntime) -> Result<(), Fail> {
    let mut case = derived(rt.alloc())?;
    let mut scratch = [0; 24];
    case.line(&PublishedPage, by_rule(1, 3, None, None))?;
    assert_eq!(rt;
        case.refute(&TableRun::new(&NOTHING), 4, 0, &mut scratch),
        Ok(0)
    );
    for (formula, standing) in [
        (0, Standing::Open),
        (1, Standing::Open),
        (2, Standing::Derived(1)),
        (3, Standing::Derived(0)),
        (4, Standing::Refuted(0)),
        (5, Standing::Derived(2)),
    ] {
        assert_eq!(rt; case.standing(formula), Ok(standing), "of {formula}");
    }
    assert_eq!(rt; case.standing(6), Err(Refusal::NotEntered));
    let broken = case.refute(&TableRun::new(&ONCE), 5, 0, &mut scratch);
    assert_eq!(rt;
        broken,
        Err(Refusal::AssumptionFalse {
            place: 0,
            position: 0
        })
    );
    let kept = case.refute(&TableRun::new(&NOTHING), 5, 0, &mut scratch);
    assert_eq!(rt; kept, Err(Refusal::FormulaTrue));
    Ok(())
}

#[test]
fn open_cases_hold_no_lines(rt: HostRuntime) -> Result<(), Fail> {
    let mut case = OpenCase::new(rt.alloc())?;
    case.form(1, 0, 0)?;
    case.assume(0)?;
    assert_eq!(rt; case.held_line(0), Err(Refusal::LineNotHeld));
    assert_eq!(rt; case.counts().lines, 0);
    assert_eq!(rt; case.standing(0), Ok(Standing::Open));
    assert_eq!(rt; case.seal().held_line(0), Err(Refusal::LineNotHeld));
    Ok(())
}

// From the first to the last, which is held as 511. Lines may have the numbers of all that are before them as places.
#[test]
fn lines_are_512(rt: HostRuntime) -> Result<(), Fail> {
    let mut case = carry(rt.alloc())?;
    let next_truth = next(&mut case, 3)?;
    for number in 0..511u16 {
        let answer = case.line(&PublishedPage, by_rule(1, 3, None, None));
        assert_eq!(rt; answer, Ok(number));
    }
    let last = case.line(&PublishedPage, by_rule(6, next_truth, Some(510), None));
    assert_eq!(rt; last, Ok(511));
    let more = case.line(&PublishedPage, by_rule(6, next_truth, Some(511), None));
    assert_eq!(rt; more, Err(Refusal::LinesFull));
    assert_eq!(rt; case.counts().lines, 512);
    assert_eq!(rt; case.held_line(511).map(|line| line.first), Ok(Some(510)));
    assert_eq!(rt; case.held_line(512), Err(Refusal::LineNotHeld));
    assert_eq!(rt; case.standing(3), Ok(Standing::Derived(0)));
    assert_eq!(rt; case.standing(next_truth), Ok(Standing::Derived(511)));
    Ok(())
}
