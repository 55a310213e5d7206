//! Cuts 256 MiB of frames of 200 bytes, or of packets of 60, in pieces of a size; or reads a number of small requests.
//! It prints what there was: bench/run.sh measures it beside plain Rust loops. Or it reads each line of a file as JSON and
//! prints it again: bench/replay.py measures the bridge beside that.
#![tactic(auto)]

mod lines;
mod requests;
mod streams;

use lines::rewrite_lines;
use requests::count_requests;
use std::alloc::Global;
use std::{env, fs};
use streams::{Tally, cut_frames, cut_packets};

const USAGE: &str = "usage: bridge_bench frames|packets PIECE, requests COUNT, lines FILE";

fn main(rt: HostRuntime) -> anyhow::Result<()> {
    let mut words = env::args(&rt)?;
    let _program = words.next();
    let (Some(kind), Some(number)) = (words.next(), words.next()) else {
        println!(rt; "{USAGE}")?;
        return Ok(());
    };
    if kind.as_str() == "lines" {
        let text = fs::read_to_string(&rt, number.as_str())?;
        print!(rt; "{}", rewrite_lines(rt.alloc(), text.as_str())?)?;
        return Ok(());
    }
    match run(rt.alloc(), kind.as_str(), number.parse::<usize>()?)? {
        Some(tally) => {
            let messages = tally.messages;
            let bytes = tally.bytes;
            println!(rt; "{messages} messages, {bytes} bytes")?;
        }
        None => println!(rt; "{USAGE}")?,
    }
    Ok(())
}

fn run(alloc: Global, kind: &str, number: usize) -> anyhow::Result<Option<Tally>> {
    if number == 0 {
        return Ok(None);
    }
    Ok(match kind {
        "frames" => Some(cut_frames(alloc, number)?),
        "packets" => Some(cut_packets(alloc, number)?),
        "requests" => Some(count_requests(alloc, number)?),
        _ => None,
    })
}
