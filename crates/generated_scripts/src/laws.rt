//! What holds of generated scripts. Each law is a contract over all numbers.
ghost use Rattle.std.specs.Prelude.{ℕ, ◌≤◌, ◌<◌, ◌^◌};
ghost use Rattle.generated_scripts.specs.Generated.{generated};
ghost use Rattle.generated_scripts.specs.Numbers.{number_behind};
ghost use Rattle.target_scripts.specs.Fit.{IsFit};

/// A generated script is fit for a target, as one that is read is: its world is sound, no request stands in it and
/// nothing is suspended, and each move of its program can be made where all moves before it were made.
pub fn a_generated_script_is_fit_for_a_target()
    ensures { (number : ℕ) → 1 ≤ number → number ≤ 1000 → IsFit (generated number) }
{}

/// The numbers that `n` has are those of a Java int that aren't negative.
pub fn numbers_stay_small()
    ensures { (number i : ℕ) → number ≤ 1000 → number_behind number i < 2 ^ 31 }
{}
