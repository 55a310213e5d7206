//! The bytes of the client's side in a log.
ghost use Rattle.std.specs.Prelude.{◌≡◌, ◌++◌, flat_map, IfOk, OnOk};
ghost use Rattle.run_logs.specs.Runs.{entries_in, entries_of};
ghost use Rattle.session_summaries.specs.Summaries.{said_by_client, told_to_client};

use run_logs::Run;
use std::alloc::Global;
use wire_core::{Blob, Entry, NoMemory, Side};

/// All bytes that the client sent.
pub(crate) fn said_by_client(alloc: Global, log: &[Run]) -> Result<Blob, NoMemory>
    ensures { IfOk result (λ bytes. bytes ≡ flat_map said_by_client (entries_of log.now)) }
{
    let mut bytes = Blob::new(alloc);
    for run in log {
        add_said(&mut bytes, run)?;
    }
    Ok(bytes)
}

/// All bytes that were sent to it.
pub(crate) fn told_to_client(alloc: Global, log: &[Run]) -> Result<Blob, NoMemory>
    ensures { IfOk result (λ bytes. bytes ≡ flat_map told_to_client (entries_of log.now)) }
{
    let mut bytes = Blob::new(alloc);
    for run in log {
        add_told(&mut bytes, run)?;
    }
    Ok(bytes)
}

// Waits have no bytes.
fn add_said(bytes: &mut Blob, run: &Run) -> Result<(), NoMemory>
    ensures { OnOk result (bytes.new ≡ bytes.old ++ flat_map said_by_client (entries_in run.now)) }
{
    match run {
        Run::One(entry) => add_one_said(bytes, entry),
        Run::Quiets(_) => Ok(()),
    }
}

fn add_told(bytes: &mut Blob, run: &Run) -> Result<(), NoMemory>
    ensures { OnOk result (bytes.new ≡ bytes.old ++ flat_map told_to_client (entries_in run.now)) }
{
    match run {
        Run::One(entry) => add_one_told(bytes, entry),
        Run::Quiets(_) => Ok(()),
    }
}

fn add_one_said(bytes: &mut Blob, entry: &Entry) -> Result<(), NoMemory>
    ensures { OnOk result (bytes.new ≡ bytes.old ++ said_by_client entry.now) }
{
    match entry {
        Entry::In(Side::Client, piece) => bytes.extend_from_slice(piece.as_slice()),
        Entry::In(Side::Target, _) => Ok(()),
        Entry::Out(_, _) => Ok(()),
        Entry::Shut(_) => Ok(()),
        Entry::Failed(_) => Ok(()),
        Entry::Quiet => Ok(()),
    }
}

fn add_one_told(bytes: &mut Blob, entry: &Entry) -> Result<(), NoMemory>
    ensures { OnOk result (bytes.new ≡ bytes.old ++ told_to_client entry.now) }
{
    match entry {
        Entry::Out(Side::Client, piece) => bytes.extend_from_slice(piece.as_slice()),
        Entry::Out(Side::Target, _) => Ok(()),
        Entry::In(_, _) => Ok(()),
        Entry::Shut(_) => Ok(()),
        Entry::Failed(_) => Ok(()),
        Entry::Quiet => Ok(()),
    }
}
