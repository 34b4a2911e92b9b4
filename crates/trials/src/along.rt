// What rows say along a run. Formulas 0 to 3 are v0, ○v0, □v0 and v0 → □v0; v0 is true at position 0 and never again.
use crate::samples::ONCE;
use formulas::FormulaList;
use row_writer::{first_false, truth_at, write_rows};
use runs::TableRun;
use std::test::Fail;

#[test]
fn rows_say_what_holds(rt: HostRuntime) -> Result<(), Fail> {
    let mut formulas = FormulaList::new(rt.alloc())?;
    for (kind, left, right) in [(1, 0, 0), (3, 0, 0), (4, 0, 0), (2, 0, 2)] {
        let _ = formulas.form(kind, left, right);
    }
    let mut words = [7; 17];
    assert!(rt; write_rows(&formulas, &TableRun::new(&ONCE), &mut words));
    let told = [
        (0, true, false),
        (1, false, false),
        (2, false, false),
        (3, false, true),
    ];
    for (formula, first, later) in told {
        assert_eq!(rt; truth_at(&words, formula, 0), first);
        assert_eq!(rt; truth_at(&words, formula, 1), later);
        assert_eq!(rt; truth_at(&words, formula, 2), false);
    }
    assert_eq!(rt; words[16], 7);
    assert_eq!(rt; first_false(&words, &[3], 2), Some((0, 0)));
    assert_eq!(rt; first_false(&words, &[0, 1], 2), Some((0, 1)));
    assert_eq!(rt; first_false(&words, &[0], 1), None);
    Ok(())
}

#[test]
fn too_few_words_stay(rt: HostRuntime) -> Result<(), Fail> {
    let mut formulas = FormulaList::new(rt.alloc())?;
    let _ = formulas.form(1, 0, 0);
    let mut words = [7; 3];
    assert!(rt; !write_rows(&formulas, &TableRun::new(&ONCE), &mut words));
    assert!(rt; words == [7; 3]);
    Ok(())
}
