// The formula list: a table of entries that are distinct and stand after their operands.
ghost use Rattle.std.specs.Prelude.{◌≤◌, length};
ghost use Rattle.lists.specs.Adding.{Distinct};
ghost use Rattle.formulas.specs.Entries.{Lower};

use crate::entry::Entry;
use crate::refusal::FormRefusal;
use lists::Table;
use std::alloc::{AllocError, Global};

/// The most formulas that a list holds.
pub const FORMULAS: u16 = 1024;

/// A list of at most 1,024 formulas. Each has a number from 0, which it keeps.
// ghost fields, and no `impl Model`: proofs of `cases` rest on them, and a model's invariant is not seen outside
#[derive(Drop)]
pub struct FormulaList {
    table: Table<Entry, FORMULAS>,
    ghost within: { length table ≤ 1024 },
    ghost distinct: { Distinct table },
    ghost lower: { Lower table },
}

impl FormulaList {
    ghost use Rattle.std.specs.Prelude.{◌≡◌, [], length, IfOk};
    ghost use Rattle.std.specs.List.{slice_get};
    ghost use Rattle.lists.specs.Adding.{Distinct};
    ghost use Rattle.formulas.specs.Forming.{entries_after, form_answer, form_after};
    ghost use Rattle.formulas.specs.Listed.{entries_of, formulas_of};

    /// An empty list, with memory for all that it will ever hold; an error where memory is lacking.
    #[tactic(auto, unfolding(crate::specs::Decode::decoded))]
    pub fn new(heap: Global) -> Result<FormulaList, AllocError>
        ensures { IfOk result (λ l. formulas_of l ≡ []) }
    {
        Ok(FormulaList {
            table: Table::new(heap)?,
        })
    }

    /// The entries, by number.
    pub fn entries(&self) -> &[Entry]
        ensures { result.now ≡ entries_of self.now }
    {
        self.table.as_slice()
    }

    /// How many formulas there are.
    #[tactic(auto, using(crate::proofs::Decoded::decoded_length))]
    pub fn len(&self) -> usize
        ensures { result ≡ length (formulas_of self.now) }
    {
        self.entries().len()
    }

    /// The entry with a number, none past the last.
    pub fn get(&self, number: u16) -> Option<Entry>
        ensures { result ≡ slice_get (entries_of self.now) number }
    {
        self.table.get(number)
    }

    /// The number of the formula of this kind with these fields, which is entered if it is not there. No two numbers stand
    /// for one formula. Kinds are 0 to 4: false, atom, implies, next and always.
    /// Refuses, in this order: `UnknownKind` (1); `BadField` (2), where an operand is not entered, an atom is above 31, or an
    /// unused field is not 0; `FormulasFull` (3), where it is new and 1,024 are entered.
    pub fn form(&mut self, kind: u8, left: u16, right: u16) -> Result<u16, FormRefusal>
        ensures answer { result ≡ form_answer (formulas_of self.old) kind left right }
        ensures after { formulas_of self.new ≡ form_after (formulas_of self.old) kind left right }
        ensures entries { entries_of self.new ≡ entries_after (entries_of self.old) kind left right }
        ensures distinct { Distinct (formulas_of self.new) }
    {
        let entry = Entry::asked_for(self.len(), kind, left, right)?;
        self.table
            .enter_from(entry.lowest(), entry)
            .ok_or(FormRefusal::FormulasFull)
    }
}
