use std::alloc::Global;
use std::test::Fail;

/// The first word of a line, and what follows it.
pub(crate) fn head(line: &str) -> (&str, &str) {
    match line.split_once(' ') {
        Some((word, rest)) => (word, rest),
        None => (line, ""),
    }
}

/// Adds the bytes of a message. An object is a frame of that text (DAP overview, Base protocol). `reply ID`, `error ID
/// CODE` and `command ID SET.COMMAND` are packets, with the pieces of their body behind (JDWP, JDWP Packets). All else
/// is pieces.
pub(crate) fn add_message(alloc: Global, bytes: &mut Vec<u8>, message: &str) -> Result<(), Fail> {
    if message.starts_with('{') {
        return add_frame(alloc, bytes, message);
    }
    let (form, rest) = head(message);
    match form {
        "reply" => {
            let (id, pieces) = head(rest);
            add_packet(alloc, bytes, id, 0x80, [0, 0], pieces)
        }
        "error" => {
            let (id, rest) = head(rest);
            let (code, pieces) = head(rest);
            let code: u16 = code.parse()?;
            add_packet(alloc, bytes, id, 0x80, code.to_be_bytes(), pieces)
        }
        "command" => {
            let (id, rest) = head(rest);
            let (command, pieces) = head(rest);
            add_packet(alloc, bytes, id, 0, numbers_of(command)?, pieces)
        }
        _ => add_pieces(bytes, message),
    }
}

fn add_frame(alloc: Global, bytes: &mut Vec<u8>, text: &str) -> Result<(), Fail> {
    let header = format!(in alloc; "Content-Length: {}\r\n\r\n", text.len())?;
    bytes.extend_from_slice(header.as_bytes())?;
    bytes.extend_from_slice(text.as_bytes())?;
    Ok(())
}

// The command set and the command, each a byte.
fn numbers_of(command: &str) -> Result<[u8; 2], Fail> {
    let (set, number) = command.split_once('.').ok_or("a command without its set")?;
    Ok([set.parse()?, number.parse()?])
}

// The two bytes behind the flags are the command's numbers, or the error's code.
fn add_packet(
    alloc: Global,
    bytes: &mut Vec<u8>,
    id: &str,
    flags: u8,
    pair: [u8; 2],
    pieces: &str,
) -> Result<(), Fail> {
    let id: u32 = id.parse()?;
    let mut body = Vec::new(alloc);
    add_pieces(&mut body, pieces)?;
    let length = u32::try_from(body.len().wrapping_add(11))?;
    bytes.extend_from_slice(&length.to_be_bytes())?;
    bytes.extend_from_slice(&id.to_be_bytes())?;
    bytes.push(flags)?;
    bytes.extend_from_slice(&pair)?;
    bytes.extend_from_slice(body.as_slice())?;
    Ok(())
}

// Where a byte of pieces stands: where the first digit of a byte may stand, behind this first digit, or in a text up to
// this quote.
#[derive(Clone, Copy)]
enum Place {
    First,
    Second(u8),
    Quoted(u8),
}

// Adds the bytes of pieces: two hexadecimal digits a byte, spaces between bytes, and texts between quotes of one kind.
fn add_pieces(bytes: &mut Vec<u8>, pieces: &str) -> Result<(), Fail> {
    let mut place = Place::First;
    for byte in pieces.as_bytes() {
        place = add_byte(bytes, place, *byte)?;
    }
    match place {
        Place::First => Ok(()),
        _ => Err("pieces that are cut off".into()),
    }
}

fn add_byte(bytes: &mut Vec<u8>, place: Place, byte: u8) -> Result<Place, Fail> {
    match place {
        Place::First => match byte {
            b' ' => Ok(Place::First),
            b'"' | b'\'' => Ok(Place::Quoted(byte)),
            _ => Ok(Place::Second(digit(byte)?)),
        },
        Place::Second(high) => {
            bytes.push((high << 4) | digit(byte)?)?;
            Ok(Place::First)
        }
        Place::Quoted(quote) => {
            if byte == quote {
                return Ok(Place::First);
            }
            bytes.push(byte)?;
            Ok(place)
        }
    }
}

fn digit(byte: u8) -> Result<u8, Fail> {
    match byte {
        b'0'..=b'9' => Ok(byte - b'0'),
        b'a'..=b'f' => Ok(byte - b'a' + 10),
        _ => Err("no hexadecimal digit".into()),
    }
}
