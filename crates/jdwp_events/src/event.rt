ghost use Rattle.std.specs.Prelude.{◌≡◌};
ghost use Rattle.jdwp_values.specs.Rows.{Tells, spell_told, FitsTold};
ghost use Rattle.jdwp_values.specs.Spelling.{Writes};
ghost use Rattle.jdwp_events.specs.declared.event.Event.TheVariants as events;
ghost use Rattle.jdwp_events.specs.declared.kind.EventKind.TheVariants.{SingleStep, Breakpoint, Exception, ThreadStart};
ghost use Rattle.jdwp_events.specs.declared.kind.EventKind.TheVariants.{ThreadDeath, ClassPrepare, VMStart, VMDeath};
ghost use Rattle.jdwp_events.specs.Events.{kind_of, told_class, told, event_behind};

use crate::kind::EventKind;
use jdwp_values::{ClassId, Location, Reader, Row, RowFault, ThreadId, TypeTag, Value, Writer};
use std::alloc::Global;
use wire_core::{Blob, NoMemory};

/// An event of a composite, with the id of the request that asked for it; 0 where none did (JDWP, Event command set,
/// Composite).
#[derive(Debug, Drop)]
pub enum Event {
    /// The thread made its step, and stands at a place.
    SingleStep {
        request: u32,
        thread: ThreadId,
        at: Location,
    },
    /// The thread came to a breakpoint.
    Breakpoint {
        request: u32,
        thread: ThreadId,
        at: Location,
    },
    /// The thread threw an object, which is caught at the place `catch`, or nowhere if that is null.
    Exception {
        request: u32,
        thread: ThreadId,
        at: Location,
        exception: Value,
        catch: Location,
    },
    /// The thread started.
    ThreadStart {
        request: u32,
        thread: ThreadId,
    },
    /// The thread ended.
    ThreadDeath {
        request: u32,
        thread: ThreadId,
    },
    /// The thread prepared a class, of this signature and with these bits of status (JDWP, Constants, ClassStatus).
    ClassPrepare {
        request: u32,
        thread: ThreadId,
        tag: TypeTag,
        class: ClassId,
        signature: Blob,
        status: i32,
    },
    /// The target started, with this thread.
    VMStart {
        request: u32,
        thread: ThreadId,
    },
    /// The target ends.
    VMDeath {
        request: u32,
    },
}

fn single_step(reader: &mut Reader<'_>) -> Result<Event, RowFault>
    ensures { Tells (λ x. x) (event_behind SingleStep reader.old) reader.new result }
{
    Ok(Event::SingleStep {
        request: reader.number()?,
        thread: reader.thread()?,
        at: reader.location()?,
    })
}

fn breakpoint(reader: &mut Reader<'_>) -> Result<Event, RowFault>
    ensures { Tells (λ x. x) (event_behind Breakpoint reader.old) reader.new result }
{
    Ok(Event::Breakpoint {
        request: reader.number()?,
        thread: reader.thread()?,
        at: reader.location()?,
    })
}

fn exception(reader: &mut Reader<'_>) -> Result<Event, RowFault>
    ensures { Tells (λ x. x) (event_behind Exception reader.old) reader.new result }
{
    Ok(Event::Exception {
        request: reader.number()?,
        thread: reader.thread()?,
        at: reader.location()?,
        exception: reader.reference()?,
        catch: reader.location()?,
    })
}

fn class_prepare(alloc: Global, reader: &mut Reader<'_>) -> Result<Event, RowFault>
    ensures { Tells (λ x. x) (event_behind ClassPrepare reader.old) reader.new result }
{
    Ok(Event::ClassPrepare {
        request: reader.number()?,
        thread: reader.thread()?,
        tag: reader.type_tag()?,
        class: reader.class()?,
        signature: Blob::from_slice(alloc, reader.text()?)?,
        status: reader.int()?,
    })
}

/// The event behind its kind's byte.
fn behind_kind(alloc: Global, kind: EventKind, reader: &mut Reader<'_>) -> Result<Event, RowFault>
    ensures { Tells (λ x. x) (event_behind kind reader.old) reader.new result }
{
    match kind {
        EventKind::SingleStep => single_step(reader),
        EventKind::Breakpoint => breakpoint(reader),
        EventKind::Exception => exception(reader),
        EventKind::ThreadStart => Ok(Event::ThreadStart {
            request: reader.number()?,
            thread: reader.thread()?,
        }),
        EventKind::ThreadDeath => Ok(Event::ThreadDeath {
            request: reader.number()?,
            thread: reader.thread()?,
        }),
        EventKind::ClassPrepare => class_prepare(alloc, reader),
        EventKind::VMStart => Ok(Event::VMStart {
            request: reader.number()?,
            thread: reader.thread()?,
        }),
        EventKind::VMDeath => Ok(Event::VMDeath {
            request: reader.number()?,
        }),
    }
}

impl Event {
    /// What kind of event it is.
    pub fn kind(&self) -> EventKind
        ensures { result ≡ kind_of self.now }
    {
        match self {
            Event::SingleStep { .. } => EventKind::SingleStep,
            Event::Breakpoint { .. } => EventKind::Breakpoint,
            Event::Exception { .. } => EventKind::Exception,
            Event::ThreadStart { .. } => EventKind::ThreadStart,
            Event::ThreadDeath { .. } => EventKind::ThreadDeath,
            Event::ClassPrepare { .. } => EventKind::ClassPrepare,
            Event::VMStart { .. } => EventKind::VMStart,
            Event::VMDeath { .. } => EventKind::VMDeath,
        }
    }
}

// The request and the thread of an event.
#[tactic(auto, using(jdwp_values::proofs::Appends::appends))]
fn write_thread(request: u32, thread: ThreadId, writer: &mut Writer) -> Result<(), NoMemory>
    requires { FitsTold writer.old.sizes (told (events.VMStart request thread)) }
    ensures { Writes (spell_told writer.old.sizes (told (events.VMStart request thread))) writer.old writer.new result }
{
    writer.number(request)?;
    writer.thread(thread)?;
    Ok(())
}

// The request, the thread and the place of an event.
#[tactic(auto, using(jdwp_values::proofs::Appends::appends))]
fn write_place(
    request: u32,
    thread: ThreadId,
    at: Location,
    writer: &mut Writer,
) -> Result<(), NoMemory>
    requires { FitsTold writer.old.sizes (told (events.Breakpoint request thread at)) }
    ensures { Writes (spell_told writer.old.sizes (told (events.Breakpoint request thread at)))
        writer.old writer.new result }
{
    writer.number(request)?;
    writer.thread(thread)?;
    writer.location(at)?;
    Ok(())
}

// The class of an event.
#[tactic(auto, using(jdwp_values::proofs::Appends::appends))]
fn write_class(
    tag: TypeTag,
    class: ClassId,
    signature: &Blob,
    status: i32,
    writer: &mut Writer,
) -> Result<(), NoMemory>
    requires { FitsTold writer.old.sizes (told_class tag class signature.now status) }
    ensures { Writes (spell_told writer.old.sizes (told_class tag class signature.now status))
        writer.old writer.new result }
{
    writer.type_tag(tag)?;
    writer.class(class)?;
    writer.text(signature.as_slice())?;
    writer.int(status)?;
    Ok(())
}

#[tactic(auto, using(jdwp_values::proofs::Appends::appends))]
fn write_parts(event: &Event, writer: &mut Writer) -> Result<(), NoMemory>
    requires { FitsTold writer.old.sizes (told event.now) }
    ensures { Writes (spell_told writer.old.sizes (told event.now)) writer.old writer.new result }
{
    match event {
        Event::SingleStep {
            request,
            thread,
            at,
        } => write_place(*request, *thread, *at, writer)?,
        Event::Breakpoint {
            request,
            thread,
            at,
        } => write_place(*request, *thread, *at, writer)?,
        Event::Exception {
            request,
            thread,
            at,
            exception,
            catch,
        } => {
            write_place(*request, *thread, *at, writer)?;
            writer.reference(exception)?;
            writer.location(*catch)?;
        }
        Event::ThreadStart { request, thread } => write_thread(*request, *thread, writer)?,
        Event::ThreadDeath { request, thread } => write_thread(*request, *thread, writer)?,
        Event::ClassPrepare {
            request,
            thread,
            tag,
            class,
            signature,
            status,
        } => {
            write_thread(*request, *thread, writer)?;
            write_class(*tag, *class, signature, *status, writer)?;
        }
        Event::VMStart { request, thread } => write_thread(*request, *thread, writer)?,
        Event::VMDeath { request } => writer.number(*request)?,
    }
    Ok(())
}

impl Row for Event {
    ghost use Rattle.jdwp_events.specs.Events.{event_at, spell_event, FitsEvent};

    ghost read_at = { event_at };

    ghost spell = { spell_event };

    ghost Fits = { FitsEvent };

    /// An event begins with its kind's byte: `BadKind` at a byte that is no kind's.
    #[tactic(auto, unfolding(crate::specs::Events::event_at))]
    fn read(alloc: Global, reader: &mut Reader<'_>) -> Result<Event, RowFault> {
        let at = reader.at();
        match EventKind::from_byte(reader.byte()?) {
            Some(kind) => behind_kind(alloc, kind, reader),
            None => Err(RowFault::BadKind { at }),
        }
    }

    #[tactic(auto, using(jdwp_values::proofs::Appends::appends))]
    fn write(&self, writer: &mut Writer) -> Result<(), NoMemory> {
        writer.byte(self.kind().byte())?;
        write_parts(self, writer)?;
        Ok(())
    }
}
