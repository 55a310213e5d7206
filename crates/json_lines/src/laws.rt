//! What printing and reading come to. Each law is a contract over all texts and values.
ghost use Rattle.std.specs.Prelude.{◌≡◌, ◌≤◌, ℕ, List, Some, true, false};
ghost use Rattle.std.specs.Str.{is_utf8};
ghost use Rattle.serde_json.specs.Data.{Data, depth};
ghost use Rattle.serde_json.specs.Read.{read, max_depth};
ghost use Rattle.serde_json.specs.Written.{has_float};
ghost use Rattle.json_lines.specs.Lines.{IsLine};
ghost use Rattle.json_lines.specs.Spelled.{IsSpelled};

/// A value that some text spells is read again of its compact text, which is one line, if no number in it is a float.
pub fn a_value_that_was_read_is_read_again()
    ensures spelled { (text : List ℕ) (d : Data) → is_utf8 text ≡ true → read text ≡ Some d → IsSpelled d }
    ensures shallow { (text : List ℕ) (d : Data) → read text ≡ Some d → depth d ≤ max_depth }
    ensures again { (d : Data) → IsSpelled d → depth d ≤ max_depth → has_float d ≡ false → IsLine d }
{}
