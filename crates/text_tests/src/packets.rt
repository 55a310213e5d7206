use crate::packet_feed::PacketFeed;
use crate::rows::check;
use jdwp_packets::{write_command, write_reply};
use std::alloc::Global;
use std::test::Fail;

// What a HotSpot 17 sends first, in pieces of any size: the handshake, a VMStart, and the replies to IDSizes and to a Set.
const CAPTURED: &str = "
packets 4a4457502d48616e647368616b650000001d0000000000406402000000015a0000000000000000000000010000001f0000000180000000000008000000080000000800000008000000080000000f0000000280000000000002 => <command 14 0 64.100 1><reply 43 1 0 8><reply 74 2 0 2>
";

#[test]
fn a_captured_stream_gives_its_packets_in_any_pieces(rt: HostRuntime) -> Result<(), Fail> {
    check(rt.alloc(), CAPTURED)
}

// Where a stream is refused and why, each time that a packet is asked for, and whether the handshake was there.
const REFUSED: &str = "
packets-twice 6a445750 => <0 BadHandshake><0 BadHandshake> false
packets-twice 4a4457502d48616e647368616b58 => <13 BadHandshake><13 BadHandshake> false
packets-twice 4a4457502d48616e647368616b650000000a => <14 ShortLength><14 ShortLength> true
packets-twice 4a4457502d48616e647368616b6504000001 => <14 TooLong><14 TooLong> true
packets-twice 4a4457502d48616e647368616b650000000b0000000101 => <14 BadFlags><14 BadFlags> true
";

#[test]
fn a_fault_stands_at_the_packet_or_the_first_wrong_byte(rt: HostRuntime) -> Result<(), Fail> {
    check(rt.alloc(), REFUSED)
}

#[test]
fn packets_are_written(rt: HostRuntime) -> Result<(), Fail> {
    let sizes = write_command(rt.alloc(), 1, 1, 7, b"")?;
    assert_eq!(rt;
        sizes.as_slice(),
        b"\0\0\0\x0b\0\0\0\x01\0\x01\x07".as_slice()
    );
    let set = write_reply(rt.alloc(), 2, 0x0114, b"\0\0\0\x02")?;
    assert_eq!(rt;
        set.as_slice(),
        b"\0\0\0\x0f\0\0\0\x02\x80\x01\x14\0\0\0\x02".as_slice()
    );
    Ok(())
}

// What is told of a stream in pieces of each size, which has to be the same.
pub(crate) fn packets_told(alloc: Global, digits: &[u8]) -> Result<String, Fail> {
    let stream = hex::decode(alloc, digits)?;
    let whole = packets_in(alloc, stream.as_slice(), stream.len())?;
    for size in 1..stream.len() {
        if packets_in(alloc, stream.as_slice(), size)?.as_str() != whole.as_str() {
            return Err("another piece tells something else".into());
        }
    }
    Ok(whole)
}

fn packets_in(alloc: Global, stream: &[u8], size: usize) -> Result<String, Fail> {
    if size == 0 {
        return Err("no piece".into());
    }
    let mut feed = PacketFeed::new(alloc);
    let mut told = String::new(alloc);
    for piece in stream.chunks(size) {
        feed.feed(piece)?;
        feed.tell_all(alloc, &mut told)?;
    }
    Ok(told)
}

pub(crate) fn packets_told_twice(alloc: Global, digits: &[u8]) -> Result<String, Fail> {
    let stream = hex::decode(alloc, digits)?;
    let mut feed = PacketFeed::new(alloc);
    let mut told = String::new(alloc);
    if feed.cutter.is_greeted() {
        return Err("a handshake before it came".into());
    }
    feed.feed(stream.as_slice())?;
    feed.tell_all(alloc, &mut told)?;
    feed.tell_all(alloc, &mut told)?;
    let greeted = format!(in alloc; " {}", feed.cutter.is_greeted())?;
    told.push_str(greeted.as_str())?;
    Ok(told)
}
