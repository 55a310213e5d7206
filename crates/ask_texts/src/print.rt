//! What the questions have come to, as text.
ghost use Rattle.std.specs.Prelude.{◌≡◌, ◌++◌, IfOk, OnOk};
ghost use Rattle.line_elements.specs.Numbers.{natural_data};
ghost use Rattle.line_elements.specs.Values.{array_of};
ghost use Rattle.serde_json.specs.Data.{string};
ghost use Rattle.serde_json.specs.View.{view};
ghost use Rattle.script_text.specs.Texts.{line_of};
ghost use Rattle.ask_texts.specs.Texts.{answers_text, numbered_data, reached_data};
ghost use Rattle.tap_model.specs.declared.ask.Reached.TheVariants.{Answer as an_answer, Error as an_error};

use crate::answers::answer_json;
use jdwp_commands::Answer;
use script_text::add_line;
use serde_json::{Value as Json, json};
use std::alloc::Global;
use tap_model::Reached;
use wire_core::{Blob, NoMemory};

/// The text of what questions have come to, in their order: a line for each, `["answer",n,form]`, `["error",n,code]`,
/// `["unfit",n]` or `["none",n]`, where n counts from 0. `NoMemory` comes where memory is refused.
pub fn print_answers(alloc: Global, answers: &[Reached]) -> Result<Blob, NoMemory>
    ensures { IfOk result (λ text. text ≡ answers_text 0 answers.now) }
{
    let mut text = Blob::new(alloc);
    for n in 0..answers.len() {
        add_reached(alloc, &mut text, n as u64, &answers[n])?;
    }
    Ok(text)
}

fn add_reached(alloc: Global, text: &mut Blob, n: u64, reached: &Reached) -> Result<(), NoMemory>
    ensures { OnOk result (text.new ≡ text.old ++ line_of (reached_data n reached.now)) }
{
    let value = reached_json(alloc, n, reached)?;
    add_line(alloc, text, &value)
}

fn reached_json(alloc: Global, n: u64, reached: &Reached) -> Result<Json, NoMemory>
    ensures { IfOk result (λ shown. view shown ≡ reached_data n reached.now) }
{
    match reached {
        Reached::Answer(answer) => answered_json(alloc, n, answer),
        Reached::Error(code) => refused_json(alloc, n, *code),
        Reached::Unfit => numbered_json(alloc, "unfit", n),
        Reached::Never => numbered_json(alloc, "none", n),
    }
}

fn answered_json(alloc: Global, n: u64, answer: &Answer) -> Result<Json, NoMemory>
    ensures { IfOk result (λ shown. view shown ≡ reached_data n (an_answer answer.now)) }
{
    let form = answer_json(alloc, answer)?;
    Ok(json!(in alloc; ["answer", n, form])?)
}

fn refused_json(alloc: Global, n: u64, code: u16) -> Result<Json, NoMemory>
    ensures { IfOk result (λ shown. view shown ≡ reached_data n (an_error code)) }
{
    Ok(json!(in alloc; ["error", n, code])?)
}

fn numbered_json(alloc: Global, name: &str, n: u64) -> Result<Json, NoMemory>
    ensures { IfOk result (λ shown. view shown ≡ numbered_data name.now n) }
{
    Ok(json!(in alloc; [name, n])?)
}
