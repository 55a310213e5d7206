ghost use Rattle.std.specs.Prelude.{◌≡◌, IfOk, option_map};
ghost use Rattle.serde_json.specs.View.{view};
ghost use Rattle.dap_messages.specs.Bodies.{frame_data, scope_data, scopes_data, source_data, stack_frames_data};

use crate::objects::{Member, object};
use crate::told::{Source, StackFrame};
use serde_json::Value;
use std::alloc::{AllocError, Global};

/// Frames of a thread, and how many it has in all.
pub(crate) fn stack_frames_value(
    alloc: Global,
    frames: &[StackFrame],
    total: u32,
) -> Result<Value, AllocError>
    ensures { IfOk result (λ value. view value ≡ stack_frames_data frames.now total) }
{
    let mut items = Vec::new(alloc);
    for frame in frames {
        items.push(frame_value(alloc, frame)?)?;
    }
    let members = vec![in alloc;
        ("stackFrames", Member::Items(items)),
        ("totalFrames", Member::Count(u64::from(total))),
    ]?;
    object(alloc, members)
}

fn frame_value(alloc: Global, frame: &StackFrame) -> Result<Value, AllocError>
    ensures { IfOk result (λ value. view value ≡ frame_data frame.now) }
{
    let source = maybe_source(alloc, &frame.source)?;
    let members = vec![in alloc;
        ("column", Member::Count(u64::from(frame.column))),
        ("id", Member::Count(u64::from(frame.id))),
        ("line", Member::Integer(frame.line)),
        ("name", Member::Words(frame.name.as_str())),
        ("source", Member::MaybeInner(source)),
    ]?;
    object(alloc, members)
}

fn maybe_source(alloc: Global, source: &Option<Source>) -> Result<Option<Value>, AllocError>
    ensures { IfOk result (λ value. option_map view value ≡ option_map source_data source.now) }
{
    match source {
        Some(source) => Ok(Some(source_value(alloc, source)?)),
        None => Ok(None),
    }
}

fn source_value(alloc: Global, source: &Source) -> Result<Value, AllocError>
    ensures { IfOk result (λ value. view value ≡ source_data source.now) }
{
    let members = vec![in alloc;
        ("name", Member::Words(source.name.as_str())),
        ("path", Member::Words(source.path.as_str())),
    ]?;
    object(alloc, members)
}

/// The one scope of a frame.
pub(crate) fn scopes_value(alloc: Global, reference: u32) -> Result<Value, AllocError>
    ensures { IfOk result (λ value. view value ≡ scopes_data reference) }
{
    let scope = scope_value(alloc, reference)?;
    let members = vec![in alloc; ("scopes", Member::Items(vec![in alloc; scope]?))]?;
    object(alloc, members)
}

fn scope_value(alloc: Global, reference: u32) -> Result<Value, AllocError>
    ensures { IfOk result (λ value. view value ≡ scope_data reference) }
{
    let members = vec![in alloc;
        ("expensive", Member::Flag(false)),
        ("name", Member::Words("Locals")),
        ("presentationHint", Member::Words("locals")),
        ("variablesReference", Member::Count(u64::from(reference))),
    ]?;
    object(alloc, members)
}
