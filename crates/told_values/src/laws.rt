//! What is read of told messages. The law is a contract over all messages.
ghost use Rattle.std.specs.Prelude.{◌≡◌, ◌<◌, ◌^◌, ℕ, true, Some};
ghost use Rattle.std.specs.Str.{is_utf8};
ghost use Rattle.serde_json.specs.Read.{read};
ghost use Rattle.dap_messages.specs.declared.told.Told.{Told};
ghost use Rattle.dap_messages.specs.Telling.{told_data, told_text};
ghost use Rattle.json_lines.specs.Lines.{IsLine};
ghost use Rattle.told_values.specs.Tellable.{IsTellable};

/// A message whose texts are UTF-8 and whose numbers have 64 bits has a text in UTF-8, and that text is read as the
/// value of the message. The text is one line. (DAP specification, Base Protocol, Content Part)
pub fn a_told_message_is_read_as_its_value()
    ensures utf8 { (seq : ℕ) (told : Told) → seq < 2 ^ 64 → IsTellable told → is_utf8 (told_text seq told) ≡ true }
    ensures is_read { (seq : ℕ) (told : Told) → seq < 2 ^ 64 → IsTellable told →
        read (told_text seq told) ≡ Some (told_data seq told) }
    ensures line { (seq : ℕ) (told : Told) → seq < 2 ^ 64 → IsTellable told → IsLine (told_data seq told) }
{}
