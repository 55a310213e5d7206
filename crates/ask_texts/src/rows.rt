//! What a line of a file of questions says.
ghost use Rattle.std.specs.Prelude.{◌≡◌, IfOk, option_and_then, option_map};
ghost use Rattle.serde_json.specs.Find.{as_str};
ghost use Rattle.serde_json.specs.View.{view, items_view};
ghost use Rattle.ask_texts.specs.Parts.{nothing_in, only_of};
ghost use Rattle.ask_texts.specs.Rows.{question_in, question_named, row_named, row_of, row_of_items, version_in};
ghost use Rattle.ask_texts.specs.declared.rows.Row.TheVariants.{Head as a_head, Ask as an_ask, End as the_end};

use crate::names::kind_of_name;
use crate::parts::only;
use crate::questions::question;
use jdwp_commands::Question;
use serde_json::Value as Json;
use std::alloc::Global;
use wire_core::NoMemory;

/// A line of a file of questions: the head, and whether its version is known; a question; or the end.
#[derive(Debug, Drop)]
pub(crate) enum Row {
    Head(bool),
    Ask(Question),
    End,
}

/// The row that a value is, where it is one. `NoMemory` comes where memory is refused.
pub(crate) fn row_of(alloc: Global, value: &Json) -> Result<Option<Row>, NoMemory>
    ensures { IfOk result (λ row. row ≡ row_of (view value.now)) }
{
    match value.as_array() {
        Some(items) => row_of_items(alloc, items.as_slice()),
        None => Ok(None),
    }
}

fn row_of_items(alloc: Global, items: &[Json]) -> Result<Option<Row>, NoMemory>
    ensures { IfOk result (λ row. row ≡ row_of_items (items_view items.now)) }
{
    match items {
        [] => Ok(None),
        [name, parts @ ..] => match name.as_str() {
            Some(name) => row_named(alloc, name, parts),
            None => Ok(None),
        },
    }
}

fn row_named(alloc: Global, name: &str, parts: &[Json]) -> Result<Option<Row>, NoMemory>
    ensures { IfOk result (λ row. row ≡ row_named (items_view parts.now) name.now) }
{
    match name {
        "ask" => asked(alloc, parts),
        "tap" => Ok(head(parts)),
        "end" => Ok(end(parts)),
        _ => Ok(None),
    }
}

#[tactic(auto, using(crate::proofs::PartLaws::nothing_in_many))]
fn end(parts: &[Json]) -> Option<Row>
    ensures { result ≡ nothing_in the_end (items_view parts.now) }
{
    match parts {
        [] => Some(Row::End),
        _ => None,
    }
}

fn head(parts: &[Json]) -> Option<Row>
    ensures { result ≡ option_map a_head (option_and_then version_in (only_of (items_view parts.now))) }
{
    Some(Row::Head(version_in(only(parts)?)?))
}

fn version_in(value: &Json) -> Option<bool>
    ensures { result ≡ version_in (view value.now) }
{
    match value.as_u64() {
        Some(version) => Some(version == 1),
        None => if value.is_i64() { Some(false) } else { None },
    }
}

fn asked(alloc: Global, parts: &[Json]) -> Result<Option<Row>, NoMemory>
    ensures { IfOk result (λ row. row ≡ option_map an_ask (question_in (items_view parts.now))) }
{
    match question_in(alloc, parts)? {
        Some(question) => Ok(Some(Row::Ask(question))),
        None => Ok(None),
    }
}

fn question_in(alloc: Global, items: &[Json]) -> Result<Option<Question>, NoMemory>
    ensures { IfOk result (λ question. question ≡ question_in (items_view items.now)) }
{
    match items {
        [] => Ok(None),
        [name, parts @ ..] => match name.as_str() {
            Some(name) => question_named(alloc, name, parts),
            None => Ok(None),
        },
    }
}

fn question_named(alloc: Global, name: &str, parts: &[Json]) -> Result<Option<Question>, NoMemory>
    ensures { IfOk result (λ question. question ≡ question_named (items_view parts.now) name.now) }
{
    match kind_of_name(name) {
        Some(kind) => question(alloc, kind, parts),
        None => Ok(None),
    }
}
