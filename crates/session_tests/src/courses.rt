ghost use Rattle.std.specs.Prelude.{IfOk, IfSome};
ghost use Rattle.session_endings.specs.Limits.{AreLimits};
ghost use Rattle.wire_core.specs.MemoryWires.{outside_of};
ghost use Rattle.wire_core.specs.Outside.{IsOpen};
ghost use Rattle.wire_core.specs.declared.outside.Side.TheVariants.{Client, Target};

use crate::messages::{add_message, head};
use crate::stages::stage;
use bridge_serve::serve;
use session_endings::{Ending, Limits};
use std::alloc::Global;
use std::test::Fail;
use wire_core::{Cut, Entry, List, MemoryWires, Side, Step};

/// Runs each session of a text over wires in memory: an error says which of them, from 1, does what otherwise. A session
/// begins with the line `session` and the names of the stages that it begins with. Its other lines are, besides those that are empty or
/// begin with `#`:
///
/// - `client` or `target`, and the messages of a piece of bytes that comes from there, with ` | ` between them;
/// - `shut`, `failed` and a side, or `quiet`, as the outside says it;
/// - `told` or `sent`, and a message that the client or the target is sent;
/// - `cut`, a side, the number of a send and of the bytes that go out before it fails;
/// - `limits`, and the three limits of the session: where it has no such line they are beyond its reach;
/// - `ending`, and how the session ends: where it has no such line the client has left.
pub(crate) fn check(alloc: Global, text: &str) -> Result<(), Fail> {
    for (number, session) in text.split("\nsession").enumerate().skip(1) {
        let (stages, lines) = session.split_once('\n').ok_or("a session on one line")?;
        if let Some(other) = Course::of(alloc, stages, lines)?.run(alloc)? {
            return Err(format!(in alloc; "session {number}: {other}")?.into());
        }
    }
    Ok(())
}

/// Wires in memory with the outside of a session that begins with the stages of these names and goes on with these lines.
pub(crate) fn wires_in(alloc: Global, stages: &str, lines: &str) -> Result<MemoryWires, Fail>
    ensures client { IfOk result (λ wires. IsOpen Client (outside_of wires)) }
    ensures target { IfOk result (λ wires. IsOpen Target (outside_of wires)) }
{
    let Course { steps, cuts, .. } = Course::of(alloc, stages, lines)?;
    wires_of(alloc, steps, cuts)
}

// A session, as its lines say it.
#[derive(Drop)]
struct Course {
    steps: List<Step>,
    limits: Limits,
    cuts: List<Cut>,
    told: Vec<u8>,
    sent: Vec<u8>,
    ending: String,
}

impl Course {
    fn new(alloc: Global) -> Result<Course, Fail> {
        Ok(Course {
            steps: List::new(alloc),
            limits: Limits {
                turns: 99,
                quiet: 9,
                waiting: 9,
            },
            cuts: List::new(alloc),
            told: Vec::new(alloc),
            sent: Vec::new(alloc),
            ending: "Left".to_string(alloc)?,
        })
    }

    // The session that begins with the stages of these names and goes on with these lines.
    fn of(alloc: Global, stages: &str, lines: &str) -> Result<Course, Fail> {
        let mut course = Course::new(alloc)?;
        for name in stages.split_whitespace() {
            course.add_lines(alloc, stage(name).ok_or("no stage has this name")?)?;
        }
        course.add_lines(alloc, lines)?;
        Ok(course)
    }

    fn add_lines(&mut self, alloc: Global, lines: &str) -> Result<(), Fail> {
        for line in lines.split('\n') {
            self.add_line(alloc, line)?;
        }
        Ok(())
    }

    fn add_line(&mut self, alloc: Global, line: &str) -> Result<(), Fail> {
        let (word, rest) = head(line);
        match word {
            "client" => self.add_piece(alloc, Side::Client, rest)?,
            "target" => self.add_piece(alloc, Side::Target, rest)?,
            "shut" => self.steps.push(Step::Shut(read_side(rest)?))?,
            "failed" => self.steps.push(Step::Failed(read_side(rest)?))?,
            "quiet" => self.steps.push(Step::Quiet)?,
            "told" => add_message(alloc, &mut self.told, rest)?,
            "sent" => add_message(alloc, &mut self.sent, rest)?,
            "cut" => self.cuts.push(read_cut(rest)?)?,
            "limits" => self.limits = read_limits(rest)?,
            "ending" => self.ending = rest.to_string(alloc)?,
            _ => {
                if !word.is_empty() && !word.starts_with('#') {
                    return Err("a line that says nothing".into());
                }
            }
        }
        Ok(())
    }

    fn add_piece(&mut self, alloc: Global, side: Side, messages: &str) -> Result<(), Fail> {
        let mut bytes = Vec::new(alloc);
        for message in messages.split(" | ") {
            add_message(alloc, &mut bytes, message)?;
        }
        self.steps.push(Step::Bytes(side, List::from_vec(bytes)))?;
        Ok(())
    }

    // What the session does otherwise, if anything.
    fn run(self, alloc: Global) -> Result<Option<&'static str>, Fail> {
        let limits = usable(self.limits).ok_or("limits that no session has")?;
        let mut wires = wires_of(alloc, self.steps, self.cuts)?;
        let ending = serve(alloc, &limits, &mut wires);
        if format!(in alloc; "{ending:?}")?.as_str() != self.ending.as_str() {
            return Ok(Some("another ending"));
        }
        if sent_to(alloc, Side::Client, &wires)?.as_slice() != self.told.as_slice() {
            return Ok(Some("the client is told something else"));
        }
        if sent_to(alloc, Side::Target, &wires)?.as_slice() != self.sent.as_slice() {
            return Ok(Some("the target is sent something else"));
        }
        Ok(None)
    }
}

fn read_side(word: &str) -> Result<Side, Fail> {
    match word {
        "client" => Ok(Side::Client),
        "target" => Ok(Side::Target),
        _ => Err("no side".into()),
    }
}

fn read_cut(words: &str) -> Result<Cut, Fail> {
    let (to, rest) = head(words);
    let (call, kept) = head(rest);
    Ok(Cut {
        side: read_side(to)?,
        call: call.parse()?,
        kept: kept.parse()?,
    })
}

fn read_limits(words: &str) -> Result<Limits, Fail> {
    let (turns, rest) = head(words);
    let (quiet, waiting) = head(rest);
    Ok(Limits {
        turns: turns.parse()?,
        quiet: quiet.parse()?,
        waiting: waiting.parse()?,
    })
}

// Limits that a session can be run with.
fn usable(limits: Limits) -> Option<Limits>
    ensures { IfSome result AreLimits }
{
    if limits.turns > 0 && limits.turns < 100 && limits.quiet > 0 && limits.waiting > 0 {
        Some(limits)
    } else {
        None
    }
}

fn wires_of(alloc: Global, steps: List<Step>, cuts: List<Cut>) -> Result<MemoryWires, Fail>
    ensures client { IfOk result (λ wires. IsOpen Client (outside_of wires)) }
    ensures target { IfOk result (λ wires. IsOpen Target (outside_of wires)) }
{
    Ok(MemoryWires::new(alloc, steps, cuts)?)
}

fn sent_to(alloc: Global, to: Side, wires: &MemoryWires) -> Result<Vec<u8>, Fail> {
    let mut sent = Vec::new(alloc);
    for entry in wires.log().as_slice() {
        if let Entry::Out(side, bytes) = entry {
            if *side == to {
                sent.extend_from_slice(bytes.as_slice())?;
            }
        }
    }
    Ok(sent)
}
