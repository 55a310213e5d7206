ghost use Rattle.std.specs.Prelude.{◌≡◌, ◌++◌, length, IsTrue, ◌↔◌, IfOk, OnOk, OnErr, IsErrOf, IsUtf8, string_bytes};
ghost use Rattle.wire_core.specs.declared.text.TextFault.TheVariants.{NotUtf8};

use crate::memory::NoMemory;
use std::alloc::Global;
use std::marker::Model;

/// A text. Contracts see it as the list of its UTF-8 bytes.
#[derive(Debug, Drop)]
pub struct Text {
    inner: String,
}

/// A word of a command line, or a name that is handed to the outside.
pub type Word = Text;

/// Why bytes are not made a text: memory was refused, or they are not well-formed UTF-8.
#[derive(Clone, Copy, Debug, PartialEq, Eq)]
pub enum TextFault {
    NoMemory,
    NotUtf8,
}

impl Model for Text {
    ghost use Rattle.std.specs.Prelude.{List, ℕ, string_bytes};

    ghost Value = { List ℕ };

    ghost view = { λ t. string_bytes t.inner };
}

impl Text {
    /// The text of these bytes: `NotUtf8` comes exactly where they are not well-formed UTF-8, `NoMemory` where they are
    /// and memory is refused.
    pub fn from_slice(alloc: Global, bytes: &[u8]) -> Result<Text, TextFault>
        ensures value { IfOk result (λ text. text ≡ bytes.now) }
        ensures utf8 { OnOk result (IsUtf8 bytes.now) }
        ensures not_utf8 { IsErrOf result NotUtf8 ↔ ¬ IsUtf8 bytes.now }
    {
        match std::str::from_utf8(bytes) {
            Ok(text) => match String::from_str(alloc, text) {
                Ok(inner) => Ok(Text { inner }),
                Err(_) => Err(TextFault::NoMemory),
            },
            Err(_) => Err(TextFault::NotUtf8),
        }
    }

    /// A copy of a text; `NoMemory` comes where memory is refused.
    pub fn from_str(alloc: Global, text: &str) -> Result<Text, NoMemory>
        ensures { IfOk result (λ copy. copy ≡ text.now) }
    {
        Ok(Text {
            inner: String::from_str(alloc, text)?,
        })
    }

    /// The text that a string holds, in its memory.
    pub fn from_string(inner: String) -> Text
        ensures { result ≡ string_bytes inner }
    {
        Text { inner }
    }

    /// The text itself.
    pub fn as_str(&self) -> &str
        ensures { result.now ≡ self.now }
    {
        self.inner.as_str()
    }

    /// The text's UTF-8 bytes.
    pub fn as_bytes(&self) -> &[u8]
        ensures { result.now ≡ self.now }
    {
        self.inner.as_bytes()
    }
}
