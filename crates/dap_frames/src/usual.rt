ghost use Rattle.std.specs.Prelude.{◌≡◌, ◌+◌, ◌≤◌, length, take, drop, IfSome};
ghost use Rattle.dap_frames.specs.declared.header.Head.{Head};
ghost use Rattle.dap_frames.specs.Reading.{head, later};

use crate::header::Reading;

/// How the headers of nearly all clients begin.
pub(crate) const USUAL_LINE: [u8; 16] = *b"Content-Length: ";

/// How far a header was read, behind so many bytes of a piece.
#[derive(Clone, Copy)]
pub(crate) struct Past {
    pub(crate) reading: Reading,
    pub(crate) count: usize,
}

/// Reads the bytes at once that go on with the usual line, where a header was read to a place in it.
pub(crate) fn past_usual(start: Reading, bytes: &[u8]) -> Past
    ensures within { result.count ≤ length bytes.now }
    ensures said { later result.count (head result.reading (drop result.count bytes.now)) ≡ head start bytes.now }
{
    match usual_read(start) {
        Some(read) => {
            let count = usual_count(read, bytes);
            Past {
                reading: usual_reading(read + count),
                count,
            }
        }
        None => Past {
            reading: start,
            count: 0,
        },
    }
}

// How many bytes of the usual line lead to here, if any do; behind its colon none are looked for.
fn usual_read(reading: Reading) -> Option<usize>
    ensures within { IfSome result (λ read. read ≤ 16) }
    ensures said { IfSome result (λ read. head (Reading.Line None) (take read USUAL_LINE) ≡ Head.Reads reading) }
{
    match reading {
        Reading::Line(None) => Some(0),
        Reading::Name(None, Some(read)) if read > 0 && read <= 14 => Some(read as usize),
        _ => None,
    }
}

// How far a header is read by so many bytes of the usual line.
fn usual_reading(read: usize) -> Reading
    requires { read ≤ 16 }
    ensures { head (Reading.Line None) (take read USUAL_LINE) ≡ Head.Reads result }
{
    match read {
        0 => Reading::Line(None),
        1..=14 => Reading::Name(None, Some(read as u8)),
        _ => Reading::Digits(0, 0),
    }
}

// How many of the bytes go on with the usual line behind its first `read`.
fn usual_count(read: usize, bytes: &[u8]) -> usize
    requires { read ≤ 16 }
    ensures line { read + result ≤ 16 }
    ensures within { result ≤ length bytes.now }
    ensures same { take result bytes.now ≡ take result (drop read USUAL_LINE) }
{
    let rest = &USUAL_LINE[read..];
    let most = rest.len().min(bytes.len());
    for i in 0..most {
        if bytes[i] != rest[i] {
            return i;
        }
    }
    most
}
