// Run sources: where a looped run is read from, and what each of them tells of it.
#![tactic(auto)]

ghost use Rattle.std.specs.Prelude.{◌≡◌, ◌≢◌, ℕ, ◌+◌, ◌*◌, ◌↔◌, List, length, Ok, Err};
ghost use Rattle.runs.specs.declared.fault.RunFault.TheVariants.{WrongLength};
ghost use Rattle.runs.specs.AsGiven.{GivesRun};
ghost use Rattle.runs.specs.Fields.{table_stem, table_loop};
ghost use Rattle.runs.specs.Pulses.{pulse_check, pulse_given, pulse_run};
ghost use Rattle.runs.specs.Tables.{table_check, table_given, table_run};
ghost use Rattle.runs.specs.Rules.{TableRules, PulseRules};

mod fault;
mod looped;
mod pulse;
mod pulses;
mod source;
mod table;

pub use fault::RunFault;
pub use pulses::PulseRun;
pub use source::RunSource;
pub use table::TableRun;

/// Bytes pass the check of table runs exactly if they keep the rules, and have the wrong length exactly if it is not that of
/// their stem and loop. Their run is given exactly if they pass. It does nothing: its contract has the theorems.
#[tactic(auto, using(crate::proofs::Checks::table_ruled, crate::proofs::Checks::table_wrong_length, crate::proofs::Given::gives_run))]
pub fn table_rules_are_checked()
    ensures passing { (bytes : List ℕ) → (table_check bytes ≡ Ok tt) ↔ TableRules bytes }
    ensures wrong_length { (bytes : List ℕ) → (table_check bytes ≡ Err WrongLength) ↔ (length bytes ≢ 4 + 4 * (table_stem bytes + table_loop bytes)) }
    ensures given { (bytes : List ℕ) → GivesRun (table_check bytes) (table_run bytes) (table_given bytes) }
{}

/// Bytes pass the check of pulse runs exactly if they keep the rules, and have the wrong length exactly if it is not that of
/// a loop and any number of pulses. Their run is given exactly if they pass. It does nothing: its contract has the theorems.
#[tactic(auto, using(crate::proofs::Checks::pulse_ruled, crate::proofs::Given::gives_run))]
pub fn pulse_rules_are_checked()
    ensures passing { (bytes : List ℕ) → (pulse_check bytes ≡ Ok tt) ↔ ((n : ℕ) × PulseRules bytes n) }
    ensures wrong_length { (bytes : List ℕ) → (pulse_check bytes ≡ Err WrongLength) ↔ ((n : ℕ) → length bytes ≢ 2 + 8 * n) }
    ensures given { (bytes : List ℕ) → GivesRun (pulse_check bytes) (pulse_run bytes) (pulse_given bytes) }
{}
