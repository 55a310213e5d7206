//! Packets of both sides: how many may wait, and their bytes.
ghost use Rattle.std.specs.Prelude.{◌≡◌, ◌+◌, ◌++◌, ◌∷◌, [], IfOk, MatchOption, OnErr, OnOk, nat_lt};
ghost use Rattle.jdwp_packets.specs.Packets.{command_packet, packet_bytes, reply_packet};
ghost use Rattle.tap_core.specs.Names.{Debugger};
ghost use Rattle.tap_model.specs.Steps.{lets_go, most_waiting};

use jdwp_packets::{write_command, write_reply};
use std::alloc::Global;
use std::collections::VecDeque;
use tap_model::{DebuggerCommand, Owner};
use wire_core::{Blob, NoMemory};

// So many of the debugger's commands have no reply at most, and so many messages wait.
const MOST_WAITING: usize = 65_536;

// The length of the longest body of a packet, whose header has 11 bytes (JDWP, JDWP Packets).
const LONGEST_BODY: usize = 67_108_853;

/// Whether one more message may wait.
pub(crate) fn fits_more(commands: usize, packets: usize) -> bool
    ensures { result ≡ nat_lt (commands + packets) most_waiting }
{
    commands < MOST_WAITING && packets < MOST_WAITING - commands
}

/// Whether one more command of the debugger's may be without a reply.
pub(crate) fn is_few(debuggers: usize) -> bool
    ensures { result ≡ nat_lt debuggers most_waiting }
{
    debuggers < MOST_WAITING
}

/// The bytes of a command; `NoMemory` comes where memory is refused, or the body is longer than a packet's.
pub(crate) fn command_bytes(
    alloc: Global,
    id: u32,
    set: u8,
    command: u8,
    body: &[u8],
) -> Result<Blob, NoMemory>
    ensures { IfOk result (λ bytes. bytes ≡ packet_bytes (command_packet id set command body.now)) }
{
    if body.len() > LONGEST_BODY {
        return Err(NoMemory);
    }
    write_command(alloc, id, set, command, body)
}

/// The bytes of a reply, in the same way.
pub(crate) fn reply_bytes(alloc: Global, id: u32, error: u16, body: &[u8]) -> Result<Blob, NoMemory>
    ensures { IfOk result (λ bytes. bytes ≡ packet_bytes (reply_packet id error body.now)) }
{
    if body.len() > LONGEST_BODY {
        return Err(NoMemory);
    }
    write_reply(alloc, id, error, body)
}

/// Whether a command lets the target go (JDWP, VirtualMachine command set, Dispose and Exit).
pub(crate) fn lets_go(set: u8, command: u8) -> bool
    ensures { result ≡ lets_go set command }
{
    set == 1 && (command == 6 || command == 10)
}

/// Whose a command of the debugger's is.
pub(crate) fn owner_of(command: &DebuggerCommand) -> Owner
    ensures { result ≡ Debugger command.now.id (lets_go command.now.set command.now.command) }
{
    Owner::Debugger {
        id: command.id,
        leaves: lets_go(command.set, command.command),
    }
}

/// The next command that waits, which waits no longer.
pub(crate) fn next_command(commands: &mut VecDeque<DebuggerCommand>) -> Option<DebuggerCommand>
    ensures { MatchOption result (commands.old.items ≡ [])
        (λ command. commands.old.items ≡ command ∷ commands.new.items) }
{
    commands.pop_front()
}

/// The next packet for the debugger.
pub(crate) fn next_packet(packets: &mut VecDeque<Blob>) -> Option<Blob>
    ensures { MatchOption result (packets.old.items ≡ []) (λ bytes. packets.old.items ≡ bytes ∷ packets.new.items) }
{
    packets.pop_front()
}

/// One command more waits.
pub(crate) fn add_command(
    commands: &mut VecDeque<DebuggerCommand>,
    command: DebuggerCommand,
) -> Result<(), NoMemory>
    ensures ok { OnOk result (commands.new.items ≡ commands.old.items ++ command ∷ []) }
    ensures err { OnErr result (commands.new.items ≡ commands.old.items) }
{
    commands.push_back(command)?;
    Ok(())
}

/// One packet more waits.
pub(crate) fn add_packet(packets: &mut VecDeque<Blob>, bytes: Blob) -> Result<(), NoMemory>
    ensures ok { OnOk result (packets.new.items ≡ packets.old.items ++ bytes ∷ []) }
    ensures err { OnErr result (packets.new.items ≡ packets.old.items) }
{
    packets.push_back(bytes)?;
    Ok(())
}
