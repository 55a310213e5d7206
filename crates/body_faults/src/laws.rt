//! Which fault a body has, and where: told by what its bytes spell.

ghost use Rattle.std.specs.Prelude.{◌≡◌, ◌<◌, ℕ, List, length, Err};
ghost use Rattle.jdwp_values.specs.declared.sizes.IdSizes.{IdSizes};
ghost use Rattle.jdwp_values.specs.Bytes.{IsBytes};
ghost use Rattle.jdwp_values.specs.Parts.{Part, Of};
ghost use Rattle.jdwp_values.specs.Spelling.{spell_part, FitsPart};
ghost use Rattle.jdwp_events.specs.declared.composite.CompositeFault.{CompositeFault};
ghost use Rattle.jdwp_events.specs.Composites.{composite_at};
ghost use Rattle.jdwp_commands.specs.declared.asked.Asked.{Asked};
ghost use Rattle.jdwp_commands.specs.declared.fault.BodyFault.{BodyFault};
ghost use Rattle.jdwp_commands.specs.Answers.{answer_at};
ghost use Rattle.body_faults.specs.Layouts.{Cause, Layout, short, answer_layout, composite_layout};
ghost use Rattle.body_faults.specs.Wrongs.{HasNone, IsWrongAt, lead, cause_of, body_fault_of, composite_fault_of};

/// A body has one first wrong part at most, whatever it is made of, and that is wrong for one cause.
pub fn a_body_has_one_first_wrong_part()
    ensures { (sizes : IdSizes) (layout : Layout) (body : List ℕ) (at other : ℕ) (cause another : Cause) → IsBytes body
        → IsWrongAt sizes layout body at cause → IsWrongAt sizes layout body other another
        → (at ≡ other) × (cause ≡ another) }
{}

/// Where a part is short, too few bytes are left: each value that begins with the same number is longer.
pub fn a_short_part_is_cut_off()
    ensures { (sizes : IdSizes) (p : Part) (bytes : List ℕ) (x : Of p) → IsBytes bytes → HasNone sizes p bytes
        → cause_of p bytes ≡ short → FitsPart sizes p x → lead p (spell_part sizes p x) ≡ lead p bytes
        → length bytes < length (spell_part sizes p x) }
{}

/// The fault of an answer's body is that of its first wrong part from the left, at the offset where that begins: what
/// stands before is spelled, and no value that may stand there is. And where there is such a part, its fault is told.
pub fn an_answers_fault_stands_at_its_first_wrong_part()
    ensures found { (sizes : IdSizes) (asked : Asked) (body : List ℕ) (fault : BodyFault) → IsBytes body
        → answer_at sizes asked body ≡ Err fault
        → (at : ℕ) × (cause : Cause) × (fault ≡ body_fault_of cause at)
        × IsWrongAt sizes (answer_layout asked) body at cause }
    ensures back { (sizes : IdSizes) (asked : Asked) (body : List ℕ) (at : ℕ) (cause : Cause) → IsBytes body
        → IsWrongAt sizes (answer_layout asked) body at cause
        → answer_at sizes asked body ≡ Err (body_fault_of cause at) }
{}

/// The same of the body of a composite (JDWP, Event command set, Composite).
pub fn a_composites_fault_stands_at_its_first_wrong_part()
    ensures found { (sizes : IdSizes) (body : List ℕ) (fault : CompositeFault) → IsBytes body
        → composite_at sizes body ≡ Err fault
        → (at : ℕ) × (cause : Cause) × (fault ≡ composite_fault_of cause at)
        × IsWrongAt sizes composite_layout body at cause }
    ensures back { (sizes : IdSizes) (body : List ℕ) (at : ℕ) (cause : Cause) → IsBytes body
        → IsWrongAt sizes composite_layout body at cause
        → composite_at sizes body ≡ Err (composite_fault_of cause at) }
{}
