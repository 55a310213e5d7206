use serde_json::Value;
use std::alloc::Global;

/// Each line of a text, read as JSON and written again.
pub fn rewrite_lines(alloc: Global, text: &str) -> anyhow::Result<String> {
    let mut written = String::new(alloc);
    for line in text.lines() {
        let value = Value::from_slice(alloc, line.as_bytes())?;
        written.push_str(value.to_string(alloc)?.as_str())?;
        written.push('\n')?;
    }
    Ok(written)
}
