// Lines of a derivation, and the pages of rules that admit them.
use crate::case::Case;
use crate::stage::{Sealed, Stage};
use model::Line;
use refusals::Refusal;
use rules::{Question, RulePage, Verdict};

// The rule that is the case's own: an assumption.
const ASSUMPTION: u16 = 0;

impl Case<Sealed> {
    ghost use Rattle.std.specs.Prelude.{◌≡◌, Ok};
    ghost use Rattle.model.specs.Lines as lines;
    ghost use Rattle.model.specs.Lines.{line_verdict, assumption_verdict};
    ghost use Rattle.cases.specs.Model.{sealed};
    ghost use Rattle.cases.specs.Asking.{premise_number, question_for};

    /// Holds a line that a page admits, or by rule 0 an assumption, and answers its number, from 0.
    /// Refuses, in this order: `NotEntered` (4); `LineNotHeld` (6), of a place; `LinesFull` (7), where 512 are held;
    /// `BeyondLimit` (9) and `NotAdmitted` (8), as the page says, or 8 by rule 0 of what is no
    /// assumption or has a place that is not empty.
    pub fn line<P: RulePage>(&mut self, page: &P, line: Line) -> Result<u16, Refusal>
        ensures answer { result ≡ (lines.line (sealed self.old) (P.meaning page.now) line).answer }
        ensures after { sealed self.new ≡ (lines.line (sealed self.old) (P.meaning page.now) line).after }
    {
        let question = self.question(line)?;
        if self.stage.lines.is_full() {
            return Err(Refusal::LinesFull);
        }
        match self.verdict(page, line, question) {
            // the table is not full, so that this is a number
            Verdict::Admitted => self.stage.lines.push(line).ok_or(Refusal::LinesFull),
            Verdict::NotAdmitted => Err(Refusal::NotAdmitted),
            Verdict::BeyondLimit => Err(Refusal::BeyondLimit),
        }
    }

    // What a page is asked about a line, by the formulas on the lines at its places.
    fn question(&self, line: Line) -> Result<Question, Refusal>
        ensures { result ≡ question_for (sealed self.now) line }
    {
        if usize::from(line.formula) >= self.formulas.len() {
            return Err(Refusal::NotEntered);
        }
        Ok(Question {
            rule: line.rule,
            conclusion: line.formula,
            first: self.premise(line.first)?,
            second: self.premise(line.second)?,
        })
    }

    // The formula on the line at a place, which may be empty.
    fn premise(&self, place: Option<u16>) -> Result<Option<u16>, Refusal>
        ensures { result ≡ premise_number (sealed self.now) place }
    {
        match place {
            Some(number) => Ok(Some(self.held_line(number)?.formula)),
            None => Ok(None),
        }
    }

    // The verdict on a line. The page is not asked about the rule that is the case's own.
    fn verdict<P: RulePage>(&self, page: &P, line: Line, question: Question) -> Verdict
        requires { question_for (sealed self.now) line ≡ Ok question }
        ensures { result ≡ line_verdict (sealed self.now) (P.meaning page.now) line }
    {
        if line.rule == ASSUMPTION {
            self.assumption_verdict(line)
        } else {
            page.verdict(&self.formulas, question)
        }
    }

    // An assumption is admitted, with both places empty.
    #[tactic(auto, unfolding(crate::specs::Model::modelled))]
    fn assumption_verdict(&self, line: Line) -> Verdict
        ensures { result ≡ assumption_verdict (sealed self.now) line }
    {
        match (line.first, line.second, self.assumptions.find(line.formula)) {
            (None, None, Some(_)) => Verdict::Admitted,
            _ => Verdict::NotAdmitted,
        }
    }
}
