/// Whether a line of a text is a row: those that are empty or begin with `#` are none.
pub(crate) fn is_row(line: &str) -> bool {
    !line.is_empty() && !line.starts_with('#')
}

/// The first word of a text, and what follows it.
pub(crate) fn head(text: &str) -> (&str, &str) {
    match text.split_once(' ') {
        Some((word, rest)) => (word, rest),
        None => (text, ""),
    }
}
