//! What printing and reading of scripts come to. Each law is a contract over all texts.
ghost use Rattle.std.specs.Prelude.{◌≡◌, ℕ, List, Ok};
ghost use Rattle.script_rows.specs.declared.script.Script.{Script};
ghost use Rattle.script_files.specs.Reading.{script_of};
ghost use Rattle.printed_scripts.specs.Texts.{script_text};

/// What is printed of a script that some text spells is read as that script.
pub fn a_printed_script_is_read_again()
    ensures { (text : List ℕ) (script : Script) → script_of text ≡ Ok script
        → script_of (script_text script) ≡ Ok script }
{}
