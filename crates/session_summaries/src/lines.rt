//! The lines of a summary.
ghost use Rattle.std.specs.Prelude.{◌≡◌, IfOk, string_bytes};
ghost use Rattle.session_summaries.specs.Lines.{summary_line, summary_text};

use crate::summary::Summary;
use std::alloc::{AllocError, Global};
use wire_core::{NoMemory, Text};

/// The lines of a summary: the name of each number, a space, and the number in decimal. `NoMemory` comes where memory is
/// refused.
pub fn summary_text(alloc: Global, summary: Summary) -> Result<Text, NoMemory>
    ensures { IfOk result (λ text. text ≡ summary_text summary) }
{
    let requests = summary_line(alloc, "requests", summary.requests)?;
    let responses = summary_line(alloc, "responses", summary.responses)?;
    let events = summary_line(alloc, "events", summary.events)?;
    let stops = summary_line(alloc, "stops", summary.stops)?;
    let sum = summary_line(alloc, "sum", summary.sum)?;
    let lines = format!(in alloc; "{requests}{responses}{events}{stops}{sum}")?;
    Ok(Text::from_string(lines))
}

fn summary_line(alloc: Global, name: &str, number: u64) -> Result<String, AllocError>
    ensures { IfOk result (λ line. string_bytes line ≡ summary_line name.now number) }
{
    format!(in alloc; "{name} {number}\n")
}
