ghost use Rattle.std.specs.Prelude.{◌≡◌, ◌<◌, ◌^◌, length, Ok, IfOk};
ghost use Rattle.jdwp_events.specs.declared.composite.Composite.{Composite as AComposite};
ghost use Rattle.jdwp_events.specs.Composites.{composite_fault, composite_at, spell_composite, FitsComposite};
ghost use Rattle.jdwp_events.specs.Composites.{InRangeComposite, IsRead};

use crate::event::Event;
use crate::kind::Policy;
use jdwp_values::{
    IdSizes, Limit, ReadTrouble, Reader, RowFault, ValueFault, Writer, read_list, write_list,
};
use std::alloc::Global;
use wire_core::{Blob, List, NoMemory};

/// What happened in the target at one time, and which threads that suspended (JDWP, Event command set, Composite).
#[derive(Debug, Drop)]
pub struct Composite {
    pub policy: Policy,
    pub events: List<Event>,
}

/// Why a body is no composite: the first fault from the left. Its `at` is the offset, in bytes from the body's start,
/// of the part that can't be read.
#[derive(Clone, Copy, Debug, PartialEq, Eq)]
pub enum CompositeFault {
    /// Memory for the events or their texts was refused.
    NoMemory,
    /// Too few bytes are left for a part.
    Short { at: u32 },
    /// A byte is no event kind's.
    BadKind { at: u32 },
    /// A byte is no suspend policy's.
    BadPolicy { at: u32 },
    /// A count or a length is negative.
    BadCount { at: u32 },
    /// A tag byte is none that its place allows.
    BadTag { at: u32 },
    /// All was read, and bytes are left.
    Trailing { at: u32 },
}

impl From<RowFault> for CompositeFault {
    ghost from_gives = { λ fault e. e ≡ composite_fault fault };

    fn from(fault: RowFault) -> CompositeFault {
        match fault {
            RowFault::NoMemory => CompositeFault::NoMemory,
            RowFault::Part(trouble) => trouble.into(),
            RowFault::BadKind { at } => CompositeFault::BadKind { at },
        }
    }
}

impl From<ReadTrouble> for CompositeFault {
    ghost use Rattle.jdwp_events.specs.Composites.{fault_at};

    ghost from_gives = { λ trouble e. e ≡ fault_at trouble.fault trouble.at };

    fn from(trouble: ReadTrouble) -> CompositeFault {
        let at = trouble.at;
        match trouble.fault {
            ValueFault::Short => CompositeFault::Short { at },
            ValueFault::BadTag => CompositeFault::BadTag { at },
            ValueFault::BadCount => CompositeFault::BadCount { at },
        }
    }
}

#[tactic(auto, unfolding(crate::specs::Composites::composite_at))]
fn read(alloc: Global, sizes: IdSizes, body: &[u8]) -> Result<Composite, CompositeFault>
    requires { length body.now < 2 ^ 32 }
    ensures { IsRead (composite_at sizes body.now) result }
{
    let mut reader = Reader::new(body, sizes);
    let at = reader.at();
    let policy = match Policy::from_byte(reader.byte()?) {
        Some(policy) => policy,
        None => return Err(CompositeFault::BadPolicy { at }),
    };
    let events = read_list(alloc, Limit::Any, &mut reader)?;
    if reader.left() > 0 {
        return Err(CompositeFault::Trailing { at: reader.at() });
    }
    Ok(Composite { policy, events })
}

/// Reads the composite that the whole body spells, the data of a command packet behind its header (JDWP, Event command
/// set, Composite). The ids take as many bytes as the sizes say; the texts are copied. Else the fault is that of the
/// first part from the left that can't be read.
pub fn read_composite(
    alloc: Global,
    sizes: IdSizes,
    body: &[u8],
) -> Result<Composite, CompositeFault>
    requires { length body.now < 2 ^ 32 }
    // What is read is spelled so.
    ensures found { IfOk result (λ c. FitsComposite sizes c × (body.now ≡ spell_composite sizes c)) }
    // What is spelled so is read, unless memory runs out.
    ensures only { (c : AComposite) → FitsComposite sizes c → InRangeComposite c → body.now ≡ spell_composite sizes c
        → IsRead (Ok c) result }
    // Which fault it is: that of the first part from the left that can't be read.
    ensures exact { IsRead (composite_at sizes body.now) result }
{
    read(alloc, sizes, body)
}

/// The body that spells a composite (JDWP, Event command set, Composite), without a packet's header. Its ids fit the
/// sizes; its texts and its list have fewer than 2^31 bytes and events. `NoMemory` comes where memory is refused.
#[tactic(auto, unfolding(crate::specs::Composites::spell_composite))]
pub fn write_composite(
    alloc: Global,
    sizes: IdSizes,
    composite: &Composite,
) -> Result<Blob, NoMemory>
    requires { FitsComposite sizes composite.now }
    ensures { IfOk result (λ body. body ≡ spell_composite sizes composite.now) }
{
    let mut writer = Writer::new(alloc, sizes);
    writer.byte(composite.policy.byte())?;
    write_list(&mut writer, composite.events.as_slice())?;
    Ok(writer.done())
}
