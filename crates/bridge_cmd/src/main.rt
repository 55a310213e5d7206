//! The program `bridge`: a debug adapter between an editor that speaks the Debug Adapter Protocol and a Java machine
//! that speaks the Java Debug Wire Protocol.
#![tactic(auto)]

ghost use Rattle.std.specs.Prelude.{IfOk};
ghost use Rattle.bridge_cmd.specs.Program.{IsRun};

use bridge_runs::bridge_main;
use std::io::ErrorKind;
use std::process::ExitCode;
use std::{env, io};
use wire_core::{List, Text, Word};
use wire_edge::{DiskFiles, StdOutput, StdStreams, TcpWires};

// The status where nothing can be printed, and the one where memory runs out before the words are there.
const NOT_PRINTED: u8 = 9;

const OUT_OF_MEMORY: u8 = 70;

fn main(rt: HostRuntime) -> ExitCode {
    match run(rt) {
        Ok(status) => ExitCode::from(status),
        Err(_) => ExitCode::from(OUT_OF_MEMORY),
    }
}

// Words that are not all UTF-8 are none of the program's, and are refused as no words are.
fn run(rt: HostRuntime) -> io::Result<u8> {
    let mut words = List::new(rt.alloc());
    match env::args(&rt) {
        Ok(texts) => {
            for word in texts.skip(1) {
                if words.push(Text::from_string(word)).is_err() {
                    return Ok(OUT_OF_MEMORY);
                }
            }
        }
        Err(e) => {
            if e.kind() != ErrorKind::InvalidData {
                return Err(e);
            }
        }
    }
    run_on(rt, words.as_slice())
}

// Runs the program on these words over the network, the disk and the standard output. Where a standard stream is closed
// nothing is done: what is opened first would take its number, and be written to in its place.
fn run_on(rt: HostRuntime, words: &[Word]) -> io::Result<u8>
    ensures { IfOk result (IsRun words.now) }
{
    let mut streams = StdStreams::new(rt.stdin(), rt.stdout(), rt.stderr());
    if streams.try_all().is_err() {
        return Ok(NOT_PRINTED);
    }
    let mut wires = TcpWires::new(rt.clone()?);
    let mut files = DiskFiles::new(rt.clone()?);
    let mut out = StdOutput::new(rt.clone()?);
    let status = bridge_main(rt.alloc(), words, &mut wires, &mut files, &mut out);
    wires.close();
    Ok(status)
}
