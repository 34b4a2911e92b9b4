// Linear temporal logic on looped runs: the definitions are in specs/, and the theorems about them stand on these functions.
#![tactic(auto)]

ghost use Rattle.std.specs.Prelude.{◌≡◌, ℕ, ◌+◌, ◌*◌, ◌≤◌, true, ◌↔◌};
ghost use Rattle.logic.specs.Decide.{truth};
ghost use Rattle.logic.specs.Formula.{Formula};
ghost use Rattle.logic.specs.Meanings.{Meanings};
ghost use Rattle.logic.specs.Run.{Run};
ghost use Rattle.logic.specs.Truth.{Holds};

/// What holds is decided: `truth` computes it.
pub fn truth_is_decided()
    ensures { (r : Run) (A : Formula) (i : ℕ) → (truth r A i ≡ true) ↔ Holds r A i }
{}

/// What holds repeats with the loop: after the stem, any number of loops makes no difference.
pub fn truth_repeats()
    ensures { (r : Run) (A : Formula) (k i : ℕ) → r.stem ≤ i → Holds r A (i + k * r.loop) ↔ Holds r A i }
{}

/// An implication holds where its left side does not or its right side does, and the abbreviations ¬, ∨, ∧, ↔ and ◇ mean
/// what their names say.
pub fn abbreviations_mean()
    ensures { (r : Run) (A B : Formula) (i : ℕ) → Meanings r A B i }
{}
