// Derivations are entered into cases of their own.
use crate::derivation::{By, Derivation, Numbered};
use crate::formula::{Formula, form, implies};
use anyhow::{anyhow, bail};
use cases::{Line, OpenCase, SealedCase};
use formulas::Entry;
use refusals::Refusal;
use rules::{RulePage, numbers};
use std::alloc::Global;

// The rule that is the case's own.
const ASSUMPTION: u16 = 0;

// A line that is held: its number in the derivation, its number in the case, and that of its formula.
#[derive(Clone, Copy)]
struct Held {
    number: u16,
    line: u16,
    formula: u16,
}

// A derivation that is being entered under a page.
#[derive(Drop)]
struct Entering<'a, P> {
    page: &'a P,
    case: SealedCase,
    held: Vec<Held>,
}

// What is held in the end.
#[derive(Clone, Copy)]
pub(crate) struct Ending {
    pub lines: usize,
    // the number of the last line
    pub last: u16,
}

// Enters a derivation under a page, into a case of its own.
pub(crate) fn entered<P: RulePage>(
    heap: Global,
    page: &P,
    derivation: &Derivation,
) -> anyhow::Result<Ending> {
    let mut entering = Entering {
        page,
        case: assumed(heap, derivation.assumptions)?,
        held: Vec::new(heap),
    };
    for line in derivation.lines {
        entering.enter(line).map_err(|error| anyhow!(
            "{}, line {}: {error}",
            derivation.name,
            line.0
        ))?;
    }
    entering.ending()
}

// A sealed case with these assumptions.
fn assumed(heap: Global, assumptions: &[Formula<'_>]) -> anyhow::Result<SealedCase> {
    let mut case = OpenCase::new(heap)?;
    for assumption in assumptions {
        let formula = accepted(form(&mut case, assumption))?;
        accepted(case.assume(formula))?;
    }
    Ok(case.seal())
}

// What a case answered, if it did not refuse.
fn accepted(answer: Result<u16, Refusal>) -> anyhow::Result<u16> {
    answer.map_err(|refusal| anyhow!("{refusal:?}"))
}

impl<P: RulePage> Entering<'_, P> {
    // Enters a line of the derivation, and before it the lines that it is short for.
    fn enter(&mut self, line: &Numbered) -> anyhow::Result<()> {
        let Numbered(number, formula, by) = *line;
        let formula = accepted(form(&mut self.case, &formula))?;
        let line = match by {
            By::Assumption => self.line(ASSUMPTION, formula, None, None)?,
            By::Taut => self.line(numbers::TAUT, formula, None, None)?,
            By::Ltl1 => self.line(numbers::LTL1, formula, None, None)?,
            By::Ltl2 => self.line(numbers::LTL2, formula, None, None)?,
            By::Ltl3 => self.line(numbers::LTL3, formula, None, None)?,
            By::Mp(first, second) => self.from_two(numbers::MP, formula, first, second)?,
            By::Nex(first) => self.from_one(numbers::NEX, formula, first)?,
            By::Ind(first, second) => self.from_two(numbers::IND, formula, first, second)?,
            By::Alw(first) => self.from_one(numbers::ALW, formula, first)?,
            By::Ind1(first) => self.from_one(numbers::IND1, formula, first)?,
            By::Prop(premises) => self.consequence(premises, formula)?,
        };
        self.held.push(Held {
            number,
            line,
            formula,
        })?;
        Ok(())
    }

    // Holds a line by a rule from one line, and answers its number.
    fn from_one(&mut self, rule: u16, formula: u16, first: u16) -> anyhow::Result<u16> {
        let first = self.found(first)?.line;
        self.line(rule, formula, Some(first), None)
    }

    // The same from two lines.
    fn from_two(
        &mut self,
        rule: u16,
        formula: u16,
        first: u16,
        second: u16,
    ) -> anyhow::Result<u16> {
        let first = self.found(first)?.line;
        let second = self.found(second)?.line;
        self.line(rule, formula, Some(first), Some(second))
    }

    // A propositional step, from lines P, Q and so on: P → (Q → … → the conclusion) by taut, and then one premise
    // after another by mp.
    fn consequence(&mut self, premises: &[u16], conclusion: u16) -> anyhow::Result<u16> {
        let mut formula = self.chain(premises, conclusion)?;
        let mut line = self.line(numbers::TAUT, formula, None, None)?;
        for &number in premises {
            let premise = self.found(number)?;
            formula = self.right(formula)?;
            line = self.line(numbers::MP, formula, Some(premise.line), Some(line))?;
        }
        Ok(line)
    }

    // P → (Q → … → the conclusion)
    fn chain(&mut self, premises: &[u16], conclusion: u16) -> anyhow::Result<u16> {
        let mut formula = conclusion;
        for &number in premises.iter().rev() {
            let premise = self.found(number)?;
            formula = accepted(implies(&mut self.case, premise.formula, formula))?;
        }
        Ok(formula)
    }

    // The right side of an implication.
    fn right(&self, formula: u16) -> anyhow::Result<u16> {
        match self.case.entry(formula) {
            Some(Entry::Implies(_, right)) => Ok(right),
            _ => bail!("formula {formula} is no implication"),
        }
    }

    // The held line with a number in the derivation.
    fn found(&self, number: u16) -> anyhow::Result<Held> {
        match self.held.iter().find(|held| held.number == number) {
            Some(held) => Ok(*held),
            None => bail!("no line {number} comes before"),
        }
    }

    // What is held so far.
    fn ending(&self) -> anyhow::Result<Ending> {
        match self.held.last() {
            Some(held) => Ok(Ending {
                lines: self.case.counts().lines,
                last: held.line,
            }),
            None => bail!("no lines"),
        }
    }

    // Holds a line under the number that is due.
    fn line(
        &mut self,
        rule: u16,
        formula: u16,
        first: Option<u16>,
        second: Option<u16>,
    ) -> anyhow::Result<u16> {
        let due = self.case.counts().lines;
        let line = Line {
            rule,
            formula,
            first,
            second,
        };
        let number = accepted(self.case.line(self.page, line))?;
        if usize::from(number) != due {
            bail!("held as {number}, and due as {due}");
        }
        Ok(number)
    }
}
