//! What the definitions of texts and of reading them come to.
ghost use Rattle.std.specs.Prelude.{◌≡◌, List, ℕ, Ok};
ghost use Rattle.jdwp_values.specs.declared.value.Value.{Value};
ghost use Rattle.jdwp_values.specs.Parts.{tag_of_value};
ghost use Rattle.jdwp_values.specs.Tags.{byte_of_tag};
ghost use Rattle.value_views.specs.declared.known.Known.{Known};
ghost use Rattle.value_views.specs.Reads.{write_value};
ghost use Rattle.value_views.specs.Texts.{value_text};
ghost use Rattle.value_views.specs.Written.{IsWritten};

/// Each value that a client can write is read from the text that is shown of it.
pub fn a_value_that_can_be_written_is_read_as_it_is_shown()
    ensures { (value : Value) (known : Known) → IsWritten value
        → write_value (byte_of_tag (tag_of_value value)) (value_text value known) ≡ Ok value }
{}

/// No other value is read, and each by its own kind alone.
pub fn a_value_that_was_read_can_be_written()
    ensures { (kind : ℕ) (text : List ℕ) (value : Value) → write_value kind text ≡ Ok value
        → IsWritten value × (kind ≡ byte_of_tag (tag_of_value value)) }
{}

/// So what is shown of a value that was read is read as the same value.
pub fn a_value_that_was_read_is_read_as_it_is_shown()
    ensures { (kind : ℕ) (text : List ℕ) (value : Value) (known : Known) → write_value kind text ≡ Ok value
        → write_value kind (value_text value known) ≡ Ok value }
{}
