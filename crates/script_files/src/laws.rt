//! What holds of scripts that are read. Each law is a contract over all texts.
ghost use Rattle.std.specs.Prelude.{◌≡◌, ℕ, List, Ok};
ghost use Rattle.script_rows.specs.declared.script.Script.{Script};
ghost use Rattle.script_files.specs.Reading.{script_of};
ghost use Rattle.target_scripts.specs.Fit.{IsFit};

/// The parts of a script that was read are fit for a target: its world is sound, no request stands in it and nothing is
/// suspended, each move of its program can be made where all moves before it were made, and its start names a thread.
pub fn a_script_that_was_read_is_fit_for_a_target()
    ensures { (text : List ℕ) (script : Script) → script_of text ≡ Ok script → IsFit script }
{}
