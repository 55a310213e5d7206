use crate::frame_feed::FrameFeed;
use crate::rows::{check, shown};
use dap_frames::frame;
use std::alloc::Global;
use std::test::Fail;

// The offset and the bytes of each body, in pieces of any size.
const BODIES: &str = "
frames Content-Length: 2␍␊␍␊{}X: y ␍␊content-length:  0003␍␊␍␊a␀bContent-Length: 0␍␊␍␊Content-Len => <21 {}><55 a␀b><79 >
";

#[test]
fn any_pieces_give_the_same_bodies(rt: HostRuntime) -> Result<(), Fail> {
    check(rt.alloc(), BODIES)
}

// The offset of the first refused byte, its fault and the words of it, each time that a body is asked for.
const REFUSED: &str = "
frames-twice Content-Length: 2␍␊Content-Length: 2␍␊␍␊{} => <33 TwoLengths, a header with two lengths><33 TwoLengths, a header with two lengths>
frames-twice content-length:0␍␊CONTENT-LENGTH: => <32 TwoLengths, a header with two lengths><32 TwoLengths, a header with two lengths>
frames-twice Content-Length: 16777217 => <23 TooLong, a body that is too long><23 TooLong, a body that is too long>
frames-twice Content-Length: 00000000002 => <26 BadLength, a length that is no number><26 BadLength, a length that is no number>
frames-twice Content-Length: ␍␊ => <16 BadLength, a length that is no number><16 BadLength, a length that is no number>
frames-twice X: y␍␊␍ => <6 NoLength, a header without a Content-Length><6 NoLength, a header without a Content-Length>
frames-twice Content-Length: 1␍␍ => <18 BadHeader, a header that is none><18 BadHeader, a header that is none>
frames-twice X: y␊ => <4 BadHeader, a header that is none><4 BadHeader, a header that is none>
frames-twice : y => <0 BadHeader, a header that is none><0 BadHeader, a header that is none>
";

#[test]
fn the_first_refused_byte_is_told(rt: HostRuntime) -> Result<(), Fail> {
    check(rt.alloc(), REFUSED)
}

// Before and behind its byte 4096, counted from 0.
const LONG: &str = "
long-header => then <4096 HeaderTooLong, a header that is too long>
";

#[test]
fn a_header_has_at_most_4096_bytes(rt: HostRuntime) -> Result<(), Fail> {
    check(rt.alloc(), LONG)
}

const FRAMED: &str = r#"
frame {"a":12345} => Content-Length: 11␍␊␍␊{"a":12345}
frame => Content-Length: 0␍␊␍␊
"#;

#[test]
fn a_body_is_framed(rt: HostRuntime) -> Result<(), Fail> {
    check(rt.alloc(), FRAMED)
}

pub(crate) fn frame_told(alloc: Global, body: &[u8]) -> Result<String, Fail> {
    shown(alloc, frame(alloc, body)?.as_slice())
}

// What is told of a stream in pieces of each size, which has to be the same.
pub(crate) fn frames_told(alloc: Global, stream: &[u8]) -> Result<String, Fail> {
    let whole = frames_in(alloc, stream, stream.len())?;
    for size in 1..stream.len() {
        if frames_in(alloc, stream, size)?.as_str() != whole.as_str() {
            return Err("another piece tells something else".into());
        }
    }
    Ok(whole)
}

fn frames_in(alloc: Global, stream: &[u8], size: usize) -> Result<String, Fail> {
    if size == 0 {
        return Err("no piece".into());
    }
    let mut feed = FrameFeed::new(alloc);
    let mut told = String::new(alloc);
    for piece in stream.chunks(size) {
        feed.feed(piece)?;
        feed.tell_all(alloc, &mut told)?;
    }
    Ok(told)
}

pub(crate) fn frames_told_twice(alloc: Global, stream: &[u8]) -> Result<String, Fail> {
    let mut feed = FrameFeed::new(alloc);
    let mut told = String::new(alloc);
    feed.feed(stream)?;
    feed.tell_all(alloc, &mut told)?;
    feed.tell_all(alloc, &mut told)?;
    Ok(told)
}

pub(crate) fn long_header_told(alloc: Global) -> Result<String, Fail> {
    let value = vec![in alloc; b'a'; 4094]?;
    let mut feed = FrameFeed::new(alloc);
    let mut told = String::new(alloc);
    feed.feed(b"X:")?;
    feed.feed(value.as_slice())?;
    feed.tell_all(alloc, &mut told)?;
    told.push_str("then ")?;
    feed.feed(b"a")?;
    feed.tell_all(alloc, &mut told)?;
    Ok(told)
}
