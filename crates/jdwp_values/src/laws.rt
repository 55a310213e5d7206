//! What the definitions of parts and rows come to, for all sizes of ids.

ghost use Rattle.std.specs.Prelude.{◌≡◌, ◌++◌, List, ℕ, Ok};
ghost use Rattle.jdwp_values.specs.declared.sizes.IdSizes.{IdSizes};
ghost use Rattle.jdwp_values.specs.Parts.{Part, Of};
ghost use Rattle.jdwp_values.specs.Reading.{read_part};
ghost use Rattle.jdwp_values.specs.Spelling.{spell_part, FitsPart, InRangePart, Ends};
ghost use Rattle.jdwp_values.specs.Bytes.{IsBytes};

/// A part that is read was spelled at the front of the bytes.
pub fn a_part_read_was_spelled()
    ensures { (sizes : IdSizes) (p : Part) (bytes : List ℕ) (x : Of p × List ℕ) → IsBytes bytes
        → read_part sizes p bytes ≡ Ok x
        → FitsPart sizes p x.0 × (bytes ≡ spell_part sizes p x.0 ++ x.1) }
{}

/// A part that is spelled, fits and is in range is read again.
pub fn a_spelled_part_is_read()
    ensures { (sizes : IdSizes) (p : Part) (x : Of p) (rest : List ℕ) → FitsPart sizes p x → InRangePart p x
        → Ends p rest
        → read_part sizes p (spell_part sizes p x ++ rest) ≡ Ok (x, rest) }
{}
