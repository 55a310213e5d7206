//! How a frame is shown: its name, its line and its source.
ghost use Rattle.std.specs.Prelude.{◌≡◌, ◌==◌, ◌++◌, codes, find, option_copied, IfOk};
ghost use Rattle.machine_model.specs.Frames.{in_package, line_at, method_name, path_in, path_of, spot_by};
ghost use Rattle.talk_look_ups.specs.FramePlanning.{frame_by};
ghost use Rattle.value_views.specs.Names.{class_name};
ghost use Rattle.wish_sets.specs.Places.{key_by};

use class_tables::{entry_at, package_in};
use dap_messages::Source;
use jdwp_commands::Frame;
use jdwp_values::{LineTable, Method, MethodId, ThreadId, lossy};
use machine_model::{ShownFrame, Spot};
use std::alloc::Global;
use stop_refs::FrameThing;
use talk_state::{State, trimmed};
use value_views::class_name;
use wire_core::{Blob, NoMemory, Text};

/// What was heard of a class, and the line at which a frame stands in it; what wasn't is absent (JDWP, ReferenceType
/// command set, Signature, SourceFile and Methods; JDWP, Method command set, LineTable).
#[derive(Clone, Copy)]
pub(crate) struct ClassHeard<'a> {
    pub(crate) signature: &'a [u8],
    pub(crate) source: Option<&'a Blob>,
    pub(crate) methods: &'a [Method],
    pub(crate) line: Option<i32>,
}

// Two texts with another between them.
fn joined(alloc: Global, front: &str, between: &str, back: &str) -> Result<Text, NoMemory>
    ensures { IfOk result (λ text. text ≡ front.now ++ between.now ++ back.now) }
{
    let mut text = String::from_str(alloc, front)?;
    text.push_str(between)?;
    text.push_str(back)?;
    Ok(Text::from_string(text))
}

// The first method with this id.
fn method_with(id: MethodId, methods: &[Method]) -> Option<&Method>
    ensures { option_copied result ≡ find (λ method. method.id.0 == id.0) methods.now }
{
    for method in methods {
        if method.id.0 == id.0 {
            return Some(method);
        }
    }
    None
}

// The name of a method, nothing where its class has none with this id (JDWP, ReferenceType command set, Methods).
fn method_name(alloc: Global, id: MethodId, methods: &[Method]) -> Result<Text, NoMemory>
    ensures { IfOk result (λ name. name ≡ method_name id methods.now) }
{
    match method_with(id, methods) {
        None => Text::from_str(alloc, ""),
        Some(method) => lossy(alloc, method.name.as_slice()),
    }
}

fn frame_name(
    alloc: Global,
    signature: &[u8],
    id: MethodId,
    methods: &[Method],
) -> Result<Text, NoMemory>
    ensures { IfOk result (λ name. name ≡ class_name signature.now ++ codes "." ++ method_name id methods.now) }
{
    let class = class_name(alloc, signature)?;
    let method = method_name(alloc, id, methods)?;
    joined(alloc, class.as_str(), ".", method.as_str())
}

/// The line of a code index (JDWP, Method command set, LineTable).
pub(crate) fn line_at(index: u64, table: Option<&LineTable>) -> Option<i32>
    ensures { result ≡ line_at index (option_copied table.entry) }
{
    let entry = entry_at(index, table?.lines.as_slice())?;
    Some(entry.line)
}

// A file in the folder of its package.
fn in_package(alloc: Global, folder: &[u8], file: Text) -> Result<Text, NoMemory>
    ensures { IfOk result (λ path. path ≡ in_package folder.now file) }
{
    match folder {
        [] => Ok(file),
        [_, ..] => {
            let front = lossy(alloc, folder)?;
            joined(alloc, front.as_str(), "/", file.as_str())
        }
    }
}

// What stands in a folder. A folder is a text without its last `/`, so that memory alone is refused.
fn in_folder(alloc: Global, folder: &[u8], path: &str) -> Result<Text, NoMemory>
    ensures { IfOk result (λ text. text ≡ folder.now ++ codes "/" ++ path.now) }
{
    match std::str::from_utf8(folder) {
        Ok(folder) => joined(alloc, folder, "/", path),
        Err(_) => Err(NoMemory),
    }
}

// A source in the first folder of sources.
fn path_in(alloc: Global, roots: &[Text], folder: &[u8], file: &[u8]) -> Result<Text, NoMemory>
    ensures { IfOk result (λ path. path
        ≡ path_in roots.now (record { package_path = folder.now; file = file.now })) }
{
    let path = in_package(alloc, folder, lossy(alloc, file)?)?;
    match roots {
        [] => in_folder(alloc, &[], path.as_str()),
        [root, ..] => in_folder(alloc, trimmed(root.as_bytes()), path.as_str()),
    }
}

// The path of a source: as the client named it last, else in the first folder of sources (DAP specification, Types,
// Source, path).
fn path_of(alloc: Global, state: &State, folder: &[u8], file: &[u8]) -> Result<Text, NoMemory>
    ensures { IfOk result (λ path. path
        ≡ path_of state.now (record { package_path = folder.now; file = file.now })) }
{
    match state.paths.listed(folder, file) {
        Some(path) => Text::from_str(alloc, path.as_str()),
        None => path_in(alloc, state.roots.as_slice(), folder, file),
    }
}

// Where a frame stands, by the signature and the source of its class, and by its line.
fn spot_by(
    alloc: Global,
    state: &State,
    signature: &[u8],
    source: Option<&Blob>,
    line: Option<i32>,
) -> Result<Option<Spot>, NoMemory>
    ensures { IfOk result (λ spot. spot
        ≡ spot_by state.now (key_by signature.now (option_copied source.entry)) line) }
{
    let Some(file) = source else {
        return Ok(None);
    };
    let Some(folder) = package_in(signature) else {
        return Ok(None);
    };
    let Some(line) = line else {
        return Ok(None);
    };
    let file = file.as_slice();
    let source = Source {
        name: lossy(alloc, file)?,
        path: path_of(alloc, state, folder, file)?,
    };
    Ok(Some(Spot { source, line }))
}

/// A frame as it is shown, by what was heard of its class and its method (DAP specification, Types, StackFrame).
pub(crate) fn frame_shown(
    alloc: Global,
    state: &State,
    thread: ThreadId,
    frame: Frame,
    heard: ClassHeard<'_>,
) -> Result<ShownFrame, NoMemory>
    ensures { IfOk result (λ shown. shown ≡ frame_by state.now thread frame heard.entry) }
{
    Ok(ShownFrame {
        frame: FrameThing {
            thread,
            frame: frame.id,
            at: frame.at,
        },
        name: frame_name(alloc, heard.signature, frame.at.method, heard.methods)?,
        spot: spot_by(alloc, state, heard.signature, heard.source, heard.line)?,
    })
}
