use crate::links::read_side;
use crate::rows::{check, head};
use crate::running::Running;
use std::alloc::Global;
use std::test::Fail;
use wire_core::{Cut, List, MemoryWires, NoMemory, Side, Step, Text, Wires};

const LISTEN: &str = "localhost:4711";

const TARGET: &str = "localhost:5005";

// What comes of these steps until both sides are closed, how many entries are logged, and whether memory was refused.
const STEPS: &str = "
hear client abc; target ; quiet; target zeros; failed target; target x; shut target => Bytes(Client, 3); Quiet; Bytes(Target, 65536); Bytes(Target, 2); Failed(Target); Shut(Client); 6 false
hear  => Shut(Client); Shut(Target); 2 false
# no client is there, and its steps are passed over
reach client abc; target x; shut client; quiet; failed client; shut target; quiet => Bytes(Target, 1); Quiet; Shut(Target); 3 false
reach  => Shut(Target); 1 false
";

#[test]
fn steps_come_in_order(rt: HostRuntime) -> Result<(), Fail> {
    check(rt.alloc(), STEPS)
}

// Whether each send was done, the log, and whether memory was refused; the first send of the target and the second of
// the client are cut.
const SENDS: &str = "
send client abc; client def; target gh => true false false Log { entries: [Out(Client, List { items: [97, 98, 99] }), Out(Client, List { items: [100, 101] }), Failed(Client), Out(Target, List { items: [103] }), Failed(Target)] } false
";

#[test]
fn a_send_fails_where_a_cut_names_it(rt: HostRuntime) -> Result<(), Fail> {
    check(rt.alloc(), SENDS)
}

const CLOSED: &str = "
closed => Err(OpenFailed) Log { entries: [] }
closed alone => Err(OpenFailed) Log { entries: [] }
";

#[test]
fn closed_wires_are_not_opened(rt: HostRuntime) -> Result<(), Fail> {
    check(rt.alloc(), CLOSED)
}

// A value that goes at the end of a scope is taken apart in the proof of that scope: large ones are let go by a call.
pub(crate) fn heard_told(alloc: Global, steps: &str) -> Result<String, Fail> {
    let mut running = scripted(alloc, steps_of(alloc, steps)?)?;
    let told = heard(alloc, &mut running);
    drop(running);
    told
}

fn scripted(alloc: Global, steps: List<Step>) -> Result<Running<MemoryWires>, Fail> {
    let wires = MemoryWires::new(alloc, steps, List::new(alloc))?;
    Ok(Running::new(alloc, wires)?)
}

pub(crate) fn reached_told(alloc: Global, steps: &str) -> Result<String, Fail> {
    let mut running = reached(alloc, steps_of(alloc, steps)?)?;
    let told = heard(alloc, &mut running);
    drop(running);
    told
}

// Wires that reached the target alone.
fn reached(alloc: Global, steps: List<Step>) -> Result<Running<MemoryWires>, Fail> {
    let mut wires = MemoryWires::new(alloc, steps, List::new(alloc))?;
    match wires.reach(Text::from_str(alloc, TARGET)?) {
        Ok(()) => Ok(Running::reached(alloc, wires)?),
        Err(_) => Err("not reached".into()),
    }
}

fn heard(alloc: Global, running: &mut Running<MemoryWires>) -> Result<String, Fail> {
    let mut told = String::new(alloc);
    for _ in 0..16 {
        let Some(happening) = running.next() else {
            break;
        };
        told.push_str(format!(in alloc; "{happening:?}; ")?.as_str())?;
    }
    let logged = running.wires.log().as_slice().len();
    let refused = running.wires.refused();
    told.push_str(format!(in alloc; "{logged} {refused}")?.as_str())?;
    Ok(told)
}

fn steps_of(alloc: Global, text: &str) -> Result<List<Step>, Fail> {
    let mut steps = List::new(alloc);
    if !text.is_empty() {
        for step in text.split("; ") {
            steps.push(step_of(alloc, step)?)?;
        }
    }
    Ok(steps)
}

fn step_of(alloc: Global, step: &str) -> Result<Step, Fail> {
    match head(step) {
        ("quiet", _) => Ok(Step::Quiet),
        ("shut", name) => Ok(Step::Shut(read_side(name).ok_or("no side")?)),
        ("failed", name) => Ok(Step::Failed(read_side(name).ok_or("no side")?)),
        (name, bytes) => {
            let side = read_side(name).ok_or("no side")?;
            Ok(Step::Bytes(side, List::from_vec(bytes_of(alloc, bytes)?)))
        }
    }
}

// More zeros than a buffer holds, or these bytes.
fn bytes_of(alloc: Global, text: &str) -> Result<Vec<u8>, Fail> {
    if text == "zeros" {
        return Ok(vec![in alloc; 0; 65_538]?);
    }
    Ok(text.to_string(alloc)?.into_bytes())
}

pub(crate) fn sent_told(alloc: Global, sends: &str) -> Result<String, Fail> {
    let mut running = connected(alloc)?;
    let told = sent(alloc, &mut running, sends);
    drop(running);
    told
}

fn sent(alloc: Global, running: &mut Running<MemoryWires>, sends: &str) -> Result<String, Fail> {
    let mut told = String::new(alloc);
    for send in sends.split("; ") {
        let (name, bytes) = head(send);
        let side = read_side(name).ok_or("no side")?;
        let sent = running.send(side, bytes.as_bytes());
        told.push_str(if sent { "true " } else { "false " })?;
    }
    let log = log_text(alloc, &running.wires)?;
    let refused = running.wires.refused();
    told.push_str(format!(in alloc; "{log} {refused}")?.as_str())?;
    Ok(told)
}

// Wires that were connected, with a cut of each side.
fn connected(alloc: Global) -> Result<Running<MemoryWires>, Fail> {
    let listen = Text::from_str(alloc, LISTEN)?;
    let target = Text::from_str(alloc, TARGET)?;
    let mut wires = MemoryWires::new(alloc, List::new(alloc), cuts(alloc)?)?;
    match wires.connect(listen, target) {
        Ok(()) => Ok(Running::new(alloc, wires)?),
        Err(_) => Err("not connected".into()),
    }
}

fn cuts(alloc: Global) -> Result<List<Cut>, NoMemory> {
    let client = Cut {
        side: Side::Client,
        call: 1,
        kept: 2,
    };
    let target = Cut {
        side: Side::Target,
        call: 0,
        kept: 9,
    };
    List::from_slice(alloc, &[client, target])
}

pub(crate) fn closed_told(alloc: Global, what: &str) -> Result<String, Fail> {
    let target = Text::from_str(alloc, TARGET)?;
    let mut wires = MemoryWires::closed(alloc);
    let opened = if what == "alone" {
        wires.reach(target)
    } else {
        wires.connect(Text::from_str(alloc, LISTEN)?, target)
    };
    let log = log_text(alloc, &wires);
    drop(wires);
    let log = log?;
    Ok(format!(in alloc; "{opened:?} {log}")?)
}

fn log_text(alloc: Global, wires: &MemoryWires) -> Result<String, Fail> {
    let log = wires.log();
    Ok(format!(in alloc; "{log:?}")?)
}
