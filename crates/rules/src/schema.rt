// Schemas of formulas, with letters in the places of formulas.
ghost use Rattle.std.specs.Prelude.{◌≡◌, true};
ghost use Rattle.formulas.specs.Listed.{entries_of};
ghost use Rattle.rules.specs.declared.letters.TheConstants.{LETTERS};
ghost use Rattle.rules.specs.Matching.{formula_of, made_of, has_room, matched_in};

use crate::letters::{LETTERS, Letters, with_letter};
use formulas::{Entry, FormulaList};

// Small trees that are written down in the program, so that references to their parts are enough.
#[derive(Clone, Copy)]
pub(crate) enum Schema<'a> {
    False,
    Letter(u8),
    Implies(&'a Schema<'a>, &'a Schema<'a>),
    Next(&'a Schema<'a>),
    Always(&'a Schema<'a>),
}

// A rule, by its conclusion and its premises. There is room for its letters.
#[derive(Clone, Copy)]
pub(crate) struct Rule {
    pub conclusion: Schema<'static>,
    pub first: Option<Schema<'static>>,
    pub second: Option<Schema<'static>>,
    ghost room: { has_room LETTERS (made_of conclusion first second) ≡ true },
}

// False, the letters, and what several rules are made of.
pub(crate) const FALSE: Schema<'static> = Schema::False;

pub(crate) const A: Schema<'static> = Schema::Letter(0);

pub(crate) const B: Schema<'static> = Schema::Letter(1);

pub(crate) const C: Schema<'static> = Schema::Letter(2);

pub(crate) const NEXT_A: Schema<'static> = Schema::Next(&A);

pub(crate) const NEXT_B: Schema<'static> = Schema::Next(&B);

pub(crate) const ALWAYS_A: Schema<'static> = Schema::Always(&A);

// The letters with what stands for those of a schema in the formula with a number. None if that is no instance of it.
pub(crate) fn matched(
    schema: &Schema<'_>,
    formulas: &FormulaList,
    number: u16,
    letters: Letters,
) -> Option<Letters>
    ensures { result ≡ matched_in (entries_of formulas.now) (formula_of schema.now) number letters }
{
    match (*schema, formulas.get(number)?) {
        (Schema::False, Entry::False) => Some(letters),
        (Schema::Letter(letter), _) => with_letter(letters, letter, number),
        (Schema::Implies(a, b), Entry::Implies(left, right)) => {
            let more = matched(a, formulas, left, letters)?;
            matched(b, formulas, right, more)
        }
        (Schema::Next(a), Entry::Next(operand)) => matched(a, formulas, operand, letters),
        (Schema::Always(a), Entry::Always(operand)) => matched(a, formulas, operand, letters),
        _ => None,
    }
}
