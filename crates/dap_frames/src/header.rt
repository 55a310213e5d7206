ghost use Rattle.std.specs.Prelude.{◌≡◌, ◌+◌, ◌^◌, ◌<◌, ◌≤◌, length, drop};
ghost use Rattle.dap_frames.specs.Reading.{step, end_of, behind_name, next_match, is_name_byte, is_length_name};
ghost use Rattle.dap_frames.specs.Reading.{more_digits, head, later, onward};

use crate::fault::FrameFault;
use crate::usual::past_usual;

/// The name of the line that says how long the body is, in lower case.
pub(crate) const LENGTH_NAME: [u8; 14] = *b"content-length";

/// The most digits that a length may have, leading zeros among them.
pub(crate) const MOST_DIGITS: u8 = 10;

/// The longest body that a client may send, in bytes: 16 MiB.
pub(crate) const LONGEST_BODY: u64 = 16_777_216;

/// How far a header was read. A length stands beside the lines after its own.
#[derive(Clone, Copy, Debug)]
pub(crate) enum Reading {
    /// At the start of a line.
    Line(Option<u32>),
    /// In a line's name, with how many bytes of `content-length` it has, where it has no others.
    Name(Option<u32>, Option<u8>),
    /// In a length: how many digits were read, and the number that they spell.
    Digits(u8, u32),
    /// In the value of another line.
    Value(Option<u32>),
    /// Behind the `\r` of a line.
    LineEnd(Option<u32>),
    /// Behind the `\r` of the empty line.
    End(u32),
}

/// What one more byte of a header does: the header goes on, ends with this length of its body, or is refused.
#[derive(Clone, Copy)]
pub(crate) enum Step {
    Goes(Reading),
    Ends(u32),
    Refused(FrameFault),
}

/// What the bytes of a header say so far.
#[derive(Clone, Copy, Debug)]
pub(crate) enum Head {
    /// The header isn't whole.
    Reads(Reading),
    /// The header is whole: the length of the body, and the header's own length.
    Ends(u32, usize),
    /// A byte of it is refused, at this place.
    Refused(FrameFault, usize),
}

fn step_of(reading: Reading, byte: u8) -> Step
    ensures { result ≡ step reading byte }
{
    match reading {
        Reading::Line(length) => line_step(length, byte),
        Reading::Name(length, matched) => name_step(length, matched, byte),
        Reading::Digits(count, value) => digit_step(count, value, byte),
        Reading::Value(length) => value_step(length, byte),
        Reading::LineEnd(length) => line_end_step(length, byte),
        Reading::End(length) => end_step(length, byte),
    }
}

fn line_step(length: Option<u32>, byte: u8) -> Step
    ensures { result ≡ step (Reading.Line length) byte }
{
    if byte == b'\r' {
        end_of(length)
    } else if is_name_byte(byte) {
        Step::Goes(Reading::Name(length, next_match(Some(0), byte)))
    } else {
        Step::Refused(FrameFault::BadHeader)
    }
}

// The empty line may begin once a length was read.
fn end_of(length: Option<u32>) -> Step
    ensures { result ≡ end_of length }
{
    match length {
        Some(length) => Step::Goes(Reading::End(length)),
        None => Step::Refused(FrameFault::NoLength),
    }
}

fn name_step(length: Option<u32>, matched: Option<u8>, byte: u8) -> Step
    ensures { result ≡ step (Reading.Name length matched) byte }
{
    if byte == b':' {
        behind_name(length, is_length_name(matched))
    } else if is_name_byte(byte) {
        Step::Goes(Reading::Name(length, next_match(matched, byte)))
    } else {
        Step::Refused(FrameFault::BadHeader)
    }
}

// Behind the colon stands a length, where the name says so and none was read before, or any value.
fn behind_name(length: Option<u32>, is_length: bool) -> Step
    ensures { result ≡ behind_name length is_length }
{
    if !is_length {
        return Step::Goes(Reading::Value(length));
    }
    match length {
        Some(_) => Step::Refused(FrameFault::TwoLengths),
        None => Step::Goes(Reading::Digits(0, 0)),
    }
}

fn digit_step(count: u8, value: u32, byte: u8) -> Step
    ensures { result ≡ step (Reading.Digits count value) byte }
{
    if byte >= b'0' && byte <= b'9' {
        return one_more_digit(count, value, byte);
    }
    if byte == b' ' && count == 0 {
        return Step::Goes(Reading::Digits(0, value));
    }
    if byte == b'\r' && count > 0 {
        return Step::Goes(Reading::LineEnd(Some(value)));
    }
    Step::Refused(FrameFault::BadLength)
}

fn one_more_digit(count: u8, value: u32, byte: u8) -> Step
    requires digit { (48 ≤ byte) × (byte ≤ 57) }
    ensures { result ≡ more_digits count value byte }
{
    let longer = u64::from(value) * 10 + u64::from(byte - b'0');
    if longer > LONGEST_BODY {
        return Step::Refused(FrameFault::TooLong);
    }
    if count >= MOST_DIGITS {
        return Step::Refused(FrameFault::BadLength);
    }
    Step::Goes(Reading::Digits(count + 1, longer as u32))
}

fn value_step(length: Option<u32>, byte: u8) -> Step
    ensures { result ≡ step (Reading.Value length) byte }
{
    if byte == b'\r' {
        Step::Goes(Reading::LineEnd(length))
    } else if byte == b'\n' {
        Step::Refused(FrameFault::BadHeader)
    } else {
        Step::Goes(Reading::Value(length))
    }
}

fn line_end_step(length: Option<u32>, byte: u8) -> Step
    ensures { result ≡ step (Reading.LineEnd length) byte }
{
    if byte == b'\n' {
        Step::Goes(Reading::Line(length))
    } else {
        Step::Refused(FrameFault::BadHeader)
    }
}

fn end_step(length: u32, byte: u8) -> Step
    ensures { result ≡ step (Reading.End length) byte }
{
    if byte == b'\n' {
        Step::Ends(length)
    } else {
        Step::Refused(FrameFault::BadHeader)
    }
}

// A name has the visible ASCII characters but the colon.
fn is_name_byte(byte: u8) -> bool
    ensures { result ≡ is_name_byte byte }
{
    byte >= 0x21 && byte <= 0x7e && byte != b':'
}

// How many bytes of `content-length` a name has with one more byte, in any case.
fn next_match(matched: Option<u8>, byte: u8) -> Option<u8>
    ensures { result ≡ next_match matched byte }
{
    match matched {
        Some(read) => {
            if read < 14 && LENGTH_NAME[read as usize] == byte.to_ascii_lowercase() {
                Some(read + 1)
            } else {
                None
            }
        }
        None => None,
    }
}

fn is_length_name(matched: Option<u8>) -> bool
    ensures { result ≡ is_length_name matched }
{
    match matched {
        Some(read) => read == 14,
        None => false,
    }
}

fn head_of(start: Reading, bytes: &[u8]) -> Head
    ensures { result ≡ head start bytes.now }
{
    let past = past_usual(start, bytes);
    head_behind(past.reading, past.count, bytes)
}

// What is said of the bytes behind the first `from`, up to which `start` was read.
fn head_behind(start: Reading, from: usize, bytes: &[u8]) -> Head
    requires { from ≤ length bytes.now }
    ensures { result ≡ later from (head start (drop from bytes.now)) }
{
    let mut reading = start;
    for i in from..bytes.len() {
        match step_of(reading, bytes[i]) {
            Step::Goes(next) => reading = next,
            Step::Ends(length) => return Head::Ends(length, i + 1),
            Step::Refused(fault) => return Head::Refused(fault, i),
        }
    }
    Head::Reads(reading)
}

/// Reads on behind the first `read` bytes of a header, which say `head`.
pub(crate) fn read_on(head: Head, read: usize, bytes: &[u8]) -> Head
    requires { read + length bytes.now < 2 ^ 64 }
    ensures { result ≡ onward read head bytes.now }
{
    match head {
        Head::Reads(reading) => match head_of(reading, bytes) {
            Head::Reads(next) => Head::Reads(next),
            Head::Ends(length, header) => Head::Ends(length, read + header),
            Head::Refused(fault, place) => Head::Refused(fault, read + place),
        },
        Head::Ends(length, header) => Head::Ends(length, header),
        Head::Refused(fault, place) => Head::Refused(fault, place),
    }
}
