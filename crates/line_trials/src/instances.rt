// One instance of each rule, asked for with every choice of places and under other rules' numbers.
use crate::connectives::{always, and, atom, eventually, iff, implies, next, not};
use crate::pages::NothingPage;
use crate::samples::by_rule;
use cases::{OpenCase, SealedCase};
use refusals::Refusal;
use rules::{DerivedPage, PublishedPage, RulePage};
use std::alloc::Global;
use std::test::Fail;

// A rule, a conclusion and two places.
type Instance = (u16, u16, Option<u16>, Option<u16>);

// The places: empty, and those of six lines.
const PLACES: [Option<u16>; 7] = [None, Some(0), Some(1), Some(2), Some(3), Some(4), Some(5)];

const DERIVED_PAGE: DerivedPage<PublishedPage> = DerivedPage {
    below: PublishedPage,
};

// The atoms A, B and C; false; ○A and ○B; ◇B and ◇C behind their parts; A → B, A → ○A, A → ○B, A → ◇B and B → ◇C.
const FORMS: [(u8, u16, u16); 17] = [
    (1, 0, 0),
    (1, 1, 0),
    (1, 2, 0),
    (0, 0, 0),
    (3, 0, 0),
    (3, 1, 0),
    (2, 1, 3),
    (4, 6, 0),
    (2, 7, 3),
    (2, 2, 3),
    (4, 9, 0),
    (2, 10, 3),
    (2, 0, 1),
    (2, 0, 4),
    (2, 0, 5),
    (2, 0, 8),
    (2, 1, 11),
];

// A case of six lines, each an assumption: A, A → B, A → ○A, A → ○B, A → ◇B and B → ◇C.
fn six_lines(heap: Global) -> Result<SealedCase, Fail> {
    let mut case = OpenCase::new(heap)?;
    for (kind, left, right) in FORMS {
        case.form(kind, left, right)?;
    }
    let assumed = [0, 12, 13, 14, 15, 16];
    for formula in assumed {
        case.assume(formula)?;
    }
    let mut case = case.seal();
    for formula in assumed {
        case.line(&PublishedPage, by_rule(0, formula, None, None))?;
    }
    Ok(case)
}

// Instances of the axioms 2 to 4.
fn axioms(case: &mut SealedCase) -> Result<[Instance; 3], Fail> {
    let a = atom(case, 0)?;
    let b = atom(case, 1)?;
    let next_a = next(case, a)?;
    let next_b = next(case, b)?;
    let not_next_a = not(case, next_a)?;
    let not_a = not(case, a)?;
    let next_not_a = next(case, not_a)?;
    let ltl1 = iff(case, not_next_a, next_not_a)?;
    let a_to_b = implies(case, a, b)?;
    let next_implication = next(case, a_to_b)?;
    let nexts = implies(case, next_a, next_b)?;
    let ltl2 = implies(case, next_implication, nexts)?;
    let always_a = always(case, a)?;
    let next_always_a = next(case, always_a)?;
    let both = and(case, a, next_always_a)?;
    let ltl3 = implies(case, always_a, both)?;
    Ok([
        (2, ltl1, None, None),
        (3, ltl2, None, None),
        (4, ltl3, None, None),
    ])
}

// Instances of the other rules of the published page.
fn published(case: &mut SealedCase) -> Result<[Instance; 4], Fail> {
    let a = atom(case, 0)?;
    let b = atom(case, 1)?;
    let itself = implies(case, a, a)?;
    let next_a = next(case, a)?;
    let always_b = always(case, b)?;
    let induction = implies(case, a, always_b)?;
    Ok([
        (1, itself, None, None),
        (5, b, Some(0), Some(1)),
        (6, next_a, Some(0), None),
        (7, induction, Some(1), Some(2)),
    ])
}

// Instances of the derived rules.
fn derived(case: &mut SealedCase) -> Result<[Instance; 4], Fail> {
    let a = atom(case, 0)?;
    let b = atom(case, 1)?;
    let c = atom(case, 2)?;
    let always_a = always(case, a)?;
    let induction = implies(case, a, always_a)?;
    let b_sometime = eventually(case, b)?;
    let c_sometime = eventually(case, c)?;
    let sometime = implies(case, a, b_sometime)?;
    let later = implies(case, a, c_sometime)?;
    Ok([
        (16, always_a, Some(0), None),
        (17, induction, Some(2), None),
        (18, sometime, Some(3), None),
        (19, later, Some(4), Some(5)),
    ])
}

// Whether a page admits a conclusion by a rule from these places, and from no others of the 49 choices.
fn is_held_there_alone<P: RulePage>(
    case: &mut SealedCase,
    page: &P,
    (rule, formula, right_first, right_second): Instance,
) -> bool {
    let mut as_due = true;
    for first in PLACES {
        for second in PLACES {
            let answer = case.line(page, by_rule(rule, formula, first, second));
            as_due &= if first == right_first && second == right_second {
                answer.is_ok()
            } else {
                answer == Err(Refusal::NotAdmitted)
            };
        }
    }
    as_due
}

// Whether a page admits a conclusion by a rule from no places at all.
fn is_never_held<P: RulePage>(case: &mut SealedCase, page: &P, rule: u16, formula: u16) -> bool {
    let mut refused = true;
    for first in PLACES {
        for second in PLACES {
            let answer = case.line(page, by_rule(rule, formula, first, second));
            refused &= answer == Err(Refusal::NotAdmitted);
        }
    }
    refused
}

#[test]
fn axioms_are_held_without_premises(rt: HostRuntime) -> Result<(), Fail> {
    let mut case = six_lines(rt.alloc())?;
    for instance in axioms(&mut case)? {
        assert!(rt;
            is_held_there_alone(&mut case, &PublishedPage, instance),
            "by {}",
            instance.0
        );
        assert!(rt;
            is_held_there_alone(&mut case, &DERIVED_PAGE, instance),
            "by {}",
            instance.0
        );
    }
    assert_eq!(rt; case.counts().lines, 12);
    Ok(())
}

// The premises of mp and of ind in this order alone.
#[test]
fn published_rules_are_held_at_their_places(rt: HostRuntime) -> Result<(), Fail> {
    let mut case = six_lines(rt.alloc())?;
    for instance in published(&mut case)? {
        assert!(rt;
            is_held_there_alone(&mut case, &PublishedPage, instance),
            "by {}",
            instance.0
        );
        assert!(rt;
            is_held_there_alone(&mut case, &DERIVED_PAGE, instance),
            "by {}",
            instance.0
        );
    }
    assert_eq!(rt; case.counts().lines, 14);
    Ok(())
}

// Those of chain too, and the published page has none of them.
#[test]
fn derived_rules_are_held_at_their_places(rt: HostRuntime) -> Result<(), Fail> {
    let mut case = six_lines(rt.alloc())?;
    for instance in derived(&mut case)? {
        let (rule, formula, _, _) = instance;
        assert!(rt;
            is_never_held(&mut case, &PublishedPage, rule, formula),
            "by {rule}"
        );
        assert!(rt;
            is_held_there_alone(&mut case, &DERIVED_PAGE, instance),
            "by {rule}"
        );
    }
    assert_eq!(rt; case.counts().lines, 10);
    Ok(())
}

// Over a page that admits nothing the derived rules are left.
#[test]
fn derived_rules_stand_on_any_page(rt: HostRuntime) -> Result<(), Fail> {
    let mut case = six_lines(rt.alloc())?;
    let page = DerivedPage { below: NothingPage };
    for instance in derived(&mut case)? {
        assert!(rt;
            is_held_there_alone(&mut case, &page, instance),
            "by {}",
            instance.0
        );
    }
    for (rule, formula, _, _) in published(&mut case)? {
        assert!(rt; is_never_held(&mut case, &page, rule, formula), "by {rule}");
    }
    let twice = DerivedPage {
        below: DERIVED_PAGE,
    };
    for instance in published(&mut case)? {
        assert!(rt;
            is_held_there_alone(&mut case, &twice, instance),
            "by {}",
            instance.0
        );
    }
    Ok(())
}

// Whether no other rule gives a conclusion from the places of its own, also none that there is not.
fn is_by_its_rule_alone(case: &mut SealedCase, (right, formula, first, second): Instance) -> bool {
    let mut refused = true;
    for rule in (0..32).chain([65535]) {
        if rule != right {
            let answer = case.line(&DERIVED_PAGE, by_rule(rule, formula, first, second));
            refused &= answer == Err(Refusal::NotAdmitted);
        }
    }
    refused
}

#[test]
fn instances_are_of_one_rule(rt: HostRuntime) -> Result<(), Fail> {
    let mut case = six_lines(rt.alloc())?;
    for instance in axioms(&mut case)? {
        assert!(rt;
            is_by_its_rule_alone(&mut case, instance),
            "by {}",
            instance.0
        );
    }
    for instance in published(&mut case)? {
        assert!(rt;
            is_by_its_rule_alone(&mut case, instance),
            "by {}",
            instance.0
        );
    }
    for instance in derived(&mut case)? {
        assert!(rt;
            is_by_its_rule_alone(&mut case, instance),
            "by {}",
            instance.0
        );
    }
    assert_eq!(rt; case.counts().lines, 6);
    Ok(())
}

// A → □○A, for the formula A.
fn induction_on_next(case: &mut SealedCase) -> Result<u16, Fail> {
    let a = atom(case, 0)?;
    let next_a = next(case, a)?;
    let always_next = always(case, next_a)?;
    implies(case, a, always_next)
}

// A → ○A stands for both premises of ind where B is ○A.
#[test]
fn one_line_may_be_both_premises(rt: HostRuntime) -> Result<(), Fail> {
    let mut case = six_lines(rt.alloc())?;
    let induction = induction_on_next(&mut case)?;
    let held = case.line(&PublishedPage, by_rule(7, induction, Some(2), Some(2)));
    assert_eq!(rt; held, Ok(6));
    Ok(())
}
