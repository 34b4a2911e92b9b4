// The order in which lines are refused: each call is wrong in two ways that follow one another there.
use crate::connectives::atoms_chained;
use crate::samples::{by_rule, derived};
use refusals::Refusal;
use rules::PublishedPage;
use std::test::Fail;

// Of a line the formula is looked at first, then the two places, then whether 512 are held, and last the page is asked.
#[test]
fn lines_are_refused_in_order(rt: HostRuntime) -> Result<(), Fail> {
    let mut case = derived(rt.alloc())?;
    for (formula, first, second) in [(6, Some(3), None), (6, None, Some(3)), (6, None, None)] {
        let answer = case.line(&PublishedPage, by_rule(1, formula, first, second));
        assert_eq!(rt; answer, Err(Refusal::NotEntered));
    }
    for (first, second) in [(Some(3), None), (Some(0), Some(3)), (Some(3), Some(65535))] {
        for rule in [0, 1, 5] {
            let answer = case.line(&PublishedPage, by_rule(rule, 5, first, second));
            assert_eq!(rt; answer, Err(Refusal::LineNotHeld));
        }
    }
    Ok(())
}

// Formula 5 is not admitted; behind it stands a formula of 13 prime parts, which is beyond the limit.
#[test]
fn full_cases_refuse_lines_before_the_page_is_asked(rt: HostRuntime) -> Result<(), Fail> {
    let mut case = derived(rt.alloc())?;
    let wide = atoms_chained(&mut case, 13)?;
    assert_eq!(rt;
        case.line(&PublishedPage, by_rule(1, wide, None, None)),
        Err(Refusal::BeyondLimit)
    );
    for _ in 3..512 {
        case.line(&PublishedPage, by_rule(1, 3, None, None))?;
    }
    for formula in [3, 5, wide] {
        let full = case.line(&PublishedPage, by_rule(1, formula, None, None));
        assert_eq!(rt; full, Err(Refusal::LinesFull));
    }
    let not_held = case.line(&PublishedPage, by_rule(1, 3, None, Some(512)));
    assert_eq!(rt; not_held, Err(Refusal::LineNotHeld));
    let not_entered = case.line(&PublishedPage, by_rule(1, 9999, None, None));
    assert_eq!(rt; not_entered, Err(Refusal::NotEntered));
    Ok(())
}
