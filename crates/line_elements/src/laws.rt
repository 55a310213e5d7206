//! What the definitions of elements come to. Each law is a contract over all numbers.
ghost use Rattle.std.specs.Prelude.{◌≡◌, ◌<◌, ◌^◌, ℕ, List, Some, None};
ghost use Rattle.serde_json.specs.Data.{Num, Data, number, string};
ghost use Rattle.jdwp_values.specs.declared.value.Value.{Value};
ghost use Rattle.line_elements.specs.declared.version.Version.{Version};
ghost use Rattle.line_elements.specs.declared.version.Version.TheVariants.{First, Second};
ghost use Rattle.line_elements.specs.Values.{bits_in, value_of, value_data};
ghost use Rattle.line_elements.specs.Bits.{bits_text, bits_of};

/// The text of 64 bits is read as them again.
pub fn the_text_of_bits_is_read_again()
    ensures { (n : ℕ) → n < 2 ^ 64 → bits_of (bits_text n) ≡ Some n }
{}

/// Bits that are spelled as in the other version are none.
pub fn bits_have_the_spelling_of_their_version()
    ensures first { (most : ℕ) (text : List ℕ) → bits_in First most (string text) ≡ None }
    ensures second { (most : ℕ) (n : Num) → bits_in Second most (number n) ≡ None }
{}

/// What is printed of a value is read as it again, in the second version, whichever it was read in.
pub fn a_printed_value_is_read_again()
    ensures { (version : Version) (said : Data) (value : Value) → value_of version said ≡ Some value
        → value_of Second (value_data value) ≡ Some value }
{}
