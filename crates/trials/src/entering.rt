// Formulas and assumptions, and the tables that hold them: what is answered and what is refused.
use cases::OpenCase;
use formulas::Entry;
use lists::Table;
use refusals::{FormRefusal, Refusal};
use std::test::Fail;

// The six forms v0, ○v0, v0 → ○v0, v0 → v0, □v0, v0 → □v0.
#[test]
fn forms_answer_old_numbers(rt: HostRuntime) -> Result<(), Fail> {
    let mut case = OpenCase::new(rt.alloc())?;
    let forms = [
        (1, 0, 0),
        (3, 0, 0),
        (2, 0, 1),
        (2, 0, 0),
        (4, 0, 0),
        (2, 0, 4),
    ];
    for (kind, left, right) in forms {
        let _ = case.form(kind, left, right);
    }
    assert_eq!(rt; case.counts().formulas, 6);
    assert_eq!(rt; case.form(2, 0, 0), Ok(3));
    assert_eq!(rt; case.assume(2), Ok(0));
    let mut sealed = case.seal();
    assert_eq!(rt; sealed.form(2, 0, 0), Ok(3));
    assert_eq!(rt; sealed.entry(5), Some(Entry::Implies(0, 4)));
    assert_eq!(rt; sealed.entry(6), None);
    assert_eq!(rt; sealed.assumption(0), Some(2));
    assert_eq!(rt; sealed.assumption(1), None);
    Ok(())
}

// The kind is looked at first, then the fields, then the list, and only then whether it is full.
#[test]
fn forms_are_refused_in_order(rt: HostRuntime) -> Result<(), Fail> {
    let mut case = OpenCase::new(rt.alloc())?;
    let mut top = case.form(1, 0, 0)?;
    for _ in 1..1024 {
        top = case.form(3, top, 0)?;
    }
    assert_eq!(rt; top, 1023);
    assert_eq!(rt;
        case.form(5, 9999, 9999),
        Err(Refusal::Form(FormRefusal::UnknownKind))
    );
    assert_eq!(rt;
        case.form(2, 1024, 0),
        Err(Refusal::Form(FormRefusal::BadField))
    );
    assert_eq!(rt;
        case.form(1, 32, 0),
        Err(Refusal::Form(FormRefusal::BadField))
    );
    assert_eq!(rt;
        case.form(0, 0, 1),
        Err(Refusal::Form(FormRefusal::BadField))
    );
    assert_eq!(rt; case.form(3, 5, 0), Ok(6));
    assert_eq!(rt;
        case.form(1, 31, 0),
        Err(Refusal::Form(FormRefusal::FormulasFull))
    );
    assert_eq!(rt; case.counts().formulas, 1024);
    Ok(())
}

// Formula (2,0,0) is number 3, and answers it when the list is full too.
#[test]
fn old_forms_answer_in_a_full_list(rt: HostRuntime) -> Result<(), Fail> {
    let mut case = OpenCase::new(rt.alloc())?;
    for (kind, left, right) in [(1, 0, 0), (3, 0, 0), (2, 0, 1), (2, 0, 0)] {
        let _ = case.form(kind, left, right);
    }
    let mut top = 3;
    for _ in 4..1024 {
        top = case.form(4, top, 0)?;
    }
    assert_eq!(rt; case.form(2, 0, 0), Ok(3));
    assert_eq!(rt;
        case.form(2, 1, 1),
        Err(Refusal::Form(FormRefusal::FormulasFull))
    );
    Ok(())
}

#[test]
fn sixteen_assumptions_are_taken(rt: HostRuntime) -> Result<(), Fail> {
    let mut case = OpenCase::new(rt.alloc())?;
    assert_eq!(rt; case.assume(0), Err(Refusal::NotEntered));
    for atom in 0..17u16 {
        let _ = case.form(1, atom, 0);
    }
    for formula in 0..16u16 {
        let _ = case.assume(formula);
    }
    assert_eq!(rt; case.assume(17), Err(Refusal::NotEntered));
    assert_eq!(rt; case.assume(7), Ok(7));
    assert_eq!(rt; case.assume(16), Err(Refusal::AssumptionsFull));
    assert_eq!(rt; case.counts().assumptions, 16);
    Ok(())
}

// A table takes each item once, and no more than it has room for.
#[test]
fn tables_take_items_once(rt: HostRuntime) -> Result<(), Fail> {
    let mut table: Table<u16, 2> = Table::new(rt.alloc())?;
    assert_eq!(rt; table.enter(7), Some(0));
    assert_eq!(rt; table.enter(8), Some(1));
    assert_eq!(rt; table.enter(7), Some(0));
    assert_eq!(rt; table.enter(9), None);
    assert_eq!(rt; table.get(1), Some(8));
    assert_eq!(rt; table.get(2), None);
    assert!(rt; table.as_slice() == [7, 8].as_slice());
    Ok(())
}

// What is pushed is not looked for first.
#[test]
fn tables_take_pushed_items_twice(rt: HostRuntime) -> Result<(), Fail> {
    let mut table: Table<u16, 2> = Table::new(rt.alloc())?;
    assert_eq!(rt; table.push(7), Some(0));
    assert!(rt; !table.is_full());
    assert_eq!(rt; table.push(7), Some(1));
    assert!(rt; table.is_full());
    assert_eq!(rt; table.push(8), None);
    assert!(rt; table.as_slice() == [7, 7].as_slice());
    Ok(())
}
