use crate::rows::check;
use std::alloc::Global;
use std::test::Fail;
use wire_core::Text;

// The text and its bytes, and what it is where it is made of a string and of these bytes.
const KEPT: &str = r#"
text => |||
text a "b" => a "b"|6120226222|a "b"|a "b"
text é€😀 => é€😀|c3a9e282acf09f9880|é€😀|é€😀
"#;

#[test]
fn a_text_keeps_its_bytes(rt: HostRuntime) -> Result<(), Fail> {
    check(rt.alloc(), KEPT)
}

const OTHERS: &str = "
# a stray byte, a character cut short, one spelled too long, a surrogate
bytes 61ff => NotUtf8
bytes e282 => NotUtf8
bytes c0af => NotUtf8
bytes eda080 => NotUtf8
";

#[test]
fn a_text_is_made_of_utf8_alone(rt: HostRuntime) -> Result<(), Fail> {
    check(rt.alloc(), OTHERS)
}

pub(crate) fn text_kept(alloc: Global, text: &str) -> Result<String, Fail> {
    let copy = Text::from_str(alloc, text)?;
    let bytes = hex::encode(alloc, copy.as_bytes())?;
    let kept = Text::from_string(String::from_str(alloc, text)?);
    let read = Text::from_slice(alloc, text.as_bytes())?;
    let (copy, kept, read) = (copy.as_str(), kept.as_str(), read.as_str());
    Ok(format!(in alloc; "{copy}|{bytes}|{kept}|{read}")?)
}

pub(crate) fn bytes_read(alloc: Global, digits: &str) -> Result<String, Fail> {
    let bytes = hex::decode(alloc, digits)?;
    match Text::from_slice(alloc, bytes.as_slice()) {
        Ok(text) => Ok(text.as_str().to_string(alloc)?),
        Err(fault) => Ok(format!(in alloc; "{fault:?}")?),
    }
}
