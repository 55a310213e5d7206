ghost use Rattle.std.specs.Prelude.{◌<◌, ◌^◌, IfOk, length};

use crate::rows::head;
use jdwp_commands::{Answer, Asked, Replied, read_answer, read_command};
use jdwp_values::IdSizes;
use std::alloc::Global;
use std::test::Fail;
use wire_core::NoMemory;
use world_model::World;

// A body has no more bytes than this.
const MOST: usize = 100_000;

/// Bytes in hexadecimal digits, with spaces between some.
pub(crate) fn bytes_of(alloc: Global, text: &str) -> Result<Vec<u8>, Fail>
    ensures { IfOk result (λ bytes. length bytes.items < 2 ^ 32) }
{
    let mut bytes = Vec::new(alloc);
    for piece in text.split_whitespace() {
        bytes.extend_from_slice(hex::decode(alloc, piece)?.as_slice())?;
    }
    if bytes.len() > MOST {
        return Err("a body that is too long".into());
    }
    Ok(bytes)
}

fn asked_of(alloc: Global, sizes: IdSizes, command: &str) -> Result<Asked, Fail> {
    let (numbers, body) = head(command);
    let (set, number) = numbers.split_once('.').ok_or("a command without its set")?;
    let bytes = bytes_of(alloc, body)?;
    match read_command(
        alloc,
        sizes,
        set.parse()?,
        number.parse()?,
        bytes.as_slice(),
    ) {
        Ok(asked) => Ok(asked),
        Err(_) => Err("no command".into()),
    }
}

fn answered(alloc: Global, sizes: IdSizes, asked: &Asked, body: &str) -> Result<Answer, Fail> {
    let bytes = bytes_of(alloc, body)?;
    match read_answer(alloc, sizes, asked, bytes.as_slice()) {
        Ok(answer) => Ok(answer),
        Err(_) => Err("no answer to this command".into()),
    }
}

/// A reply as its contents are printed.
pub(crate) fn text_of(alloc: Global, replied: Replied) -> Result<String, NoMemory> {
    let text = format!(in alloc; "{replied:?}");
    drop(replied);
    Ok(text?)
}

/// The reply with this answer to a command.
pub(crate) fn answer_text(
    alloc: Global,
    sizes: IdSizes,
    command: &str,
    body: &str,
) -> Result<String, Fail> {
    let asked = asked_of(alloc, sizes, command)?;
    let answer = answered(alloc, sizes, &asked, body);
    drop(asked);
    Ok(text_of(alloc, Replied::Answer(answer?))?)
}

/// What the world replies to a command.
pub(crate) fn reply_text(alloc: Global, world: &mut World, command: &str) -> Result<String, Fail> {
    let asked = asked_of(alloc, world.sizes, command)?;
    let replied = replied(alloc, world, &asked);
    drop(asked);
    Ok(text_of(alloc, replied?)?)
}

fn replied(alloc: Global, world: &mut World, asked: &Asked) -> Result<Replied, NoMemory> {
    match asked {
        Asked::Question(question) => world.reply(alloc, question),
        Asked::Effect(effect) => world.apply(alloc, effect),
    }
}
