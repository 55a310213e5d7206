use crate::rows::{check, head};
use std::alloc::Global;
use std::test::Fail;
use wire_core::StreamBuffer;

// Behind each step the offset of the bytes that wait, and these; what is taken stands before that.
const TAKEN: &str = "
stream start; feed abc; feed de; take 3 => 0 ;0 abc;0 abcde;abc 3 de;
# a piece for which the rest has to move to the front
stream feed abcde; take 3; feed 0123456789abcdefghijklmnopqrstuvwxyz; take 4 => 0 abcde;abc 3 de;3 de0123456789abcdefghijklmnopqrstuvwxyz;de01 7 23456789abcdefghijklmnopqrstuvwxyz;
";

#[test]
fn bytes_are_taken_as_they_were_fed(rt: HostRuntime) -> Result<(), Fail> {
    check(rt.alloc(), TAKEN)
}

pub(crate) fn stream_told(alloc: Global, steps: &str) -> Result<String, Fail> {
    let mut stream = StreamBuffer::new(alloc);
    let mut told = String::new(alloc);
    for step in steps.split("; ") {
        let taken = make(alloc, &mut stream, step)?;
        told.push_str(taken.as_str())?;
        let pending = str::from_utf8(stream.pending())?;
        let standing = format!(in alloc; "{} {pending};", stream.at())?;
        told.push_str(standing.as_str())?;
    }
    Ok(told)
}

// Makes a step, and gives the bytes that were taken.
fn make(alloc: Global, stream: &mut StreamBuffer, step: &str) -> Result<String, Fail> {
    let mut taken = String::new(alloc);
    match head(step) {
        ("start", _) => {}
        ("feed", piece) => feed(stream, piece)?,
        ("take", count) => {
            let count: usize = count.parse()?;
            if count > stream.pending().len() {
                return Err("more than there is".into());
            }
            taken.push_str(str::from_utf8(stream.take(count))?)?;
            taken.push(' ')?;
        }
        _ => return Err("no step of a stream".into()),
    }
    Ok(taken)
}

fn feed(stream: &mut StreamBuffer, piece: &str) -> Result<(), Fail> {
    if stream.at() > 999 || stream.pending().len() > 999 || piece.len() > 999 {
        return Err("more than a row has".into());
    }
    Ok(stream.feed(piece.as_bytes())?)
}
