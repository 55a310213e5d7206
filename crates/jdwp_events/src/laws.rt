//! What the definitions of composites come to.

ghost use Rattle.std.specs.Prelude.{◌≡◌, ℕ, List, Ok};
ghost use Rattle.jdwp_values.specs.declared.sizes.IdSizes.{IdSizes};
ghost use Rattle.jdwp_values.specs.Bytes.{IsBytes};
ghost use Rattle.jdwp_events.specs.declared.composite.Composite.{Composite as AComposite};
ghost use Rattle.jdwp_events.specs.Composites.{FitsComposite, InRangeComposite, composite_at, spell_composite};

/// A body is read as a composite exactly where it spells one: what is read is spelled so, and what is spelled so is
/// read. So a fault is told exactly where the body spells no composite (JDWP, Event command set, Composite).
pub fn composites_are_read_as_they_are_spelled()
    ensures found { (sizes : IdSizes) (body : List ℕ) (composite : AComposite) → IsBytes body
        → composite_at sizes body ≡ Ok composite
        → FitsComposite sizes composite × (body ≡ spell_composite sizes composite) }
    ensures back { (sizes : IdSizes) (composite : AComposite) → FitsComposite sizes composite
        → InRangeComposite composite → composite_at sizes (spell_composite sizes composite) ≡ Ok composite }
{}
