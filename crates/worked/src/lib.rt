// Worked examples: what the definitions give on small cases, files, steps and runs, in tables with a theorem each, and
// that what promises ask for can be had.
#![tactic(auto)]

ghost use Rattle.worked.specs.Files.{FilesListed};
ghost use Rattle.worked.specs.Hypotheses.{HypothesesMet};
ghost use Rattle.worked.specs.Numbers.{NumbersTold};
ghost use Rattle.worked.specs.Table.{WorkedExamples};
ghost use Rattle.worked.specs.Truths.{TruthsTold};
ghost use Rattle.worked.specs.Verdicts.{VerdictsGiven};

/// What calls on the example case are answered.
#[tactic(auto, using(crate::proofs::Rows::worked_examples))]
pub fn worked_examples()
    ensures { WorkedExamples }
{}

/// What is listed of small files, the example file among them.
#[tactic(auto, using(crate::proofs::Files::files_listed))]
pub fn files_listed()
    ensures { FilesListed }
{}

/// What the program's page says of small steps.
#[tactic(auto, using(crate::proofs::Verdicts::verdicts_given))]
pub fn verdicts_given()
    ensures { VerdictsGiven }
{}

/// What holds at positions of small runs.
#[tactic(auto, using(crate::proofs::Truths::truths_told))]
pub fn truths_told()
    ensures { TruthsTold }
{}

/// What a caller is told by each number.
#[tactic(auto, using(crate::proofs::Numbers::numbers_told))]
pub fn numbers_told()
    ensures { NumbersTold }
{}

/// Promises that ask for something ask for what the example case has.
#[tactic(auto, using(crate::proofs::Hypotheses::hypotheses_met))]
pub fn hypotheses_met()
    ensures { HypothesesMet }
{}
