//! Which answers and composites have a spelling: their ids fit the sizes, and their texts and lists have room for their
//! lengths (JDWP, Detailed Command Information, common data types).
ghost use Rattle.std.specs.Prelude.{◌<◌, ◌^◌, ◌↔◌, IsTrue, length, MatchResult};
ghost use Rattle.std.specs.List.{AllByRecursion};
ghost use Rattle.jdwp_values.specs.Rows.{FitsList};
ghost use Rattle.jdwp_values.specs.Parts.{reference};
ghost use Rattle.jdwp_values.specs.Spelling.{FitsLocation, FitsPart, FitsValue};
ghost use Rattle.jdwp_events.specs.Composites.{FitsComposite};

use jdwp_events::{Composite, Event};
use jdwp_values::{
    ClassId, Field, IdSizes, Line, Location, Method, Row, ThreadId, Value, Variable,
};
use wire_core::{Blob, NoMemory};

/// What lists are made of, and whether one has a spelling.
pub(crate) trait Fitting: Row {
    /// Whether it has a spelling.
    fn fits(&self, sizes: IdSizes) -> bool
        ensures { IsTrue result ↔ Self.Fits sizes self.now };
}

/// Whether an id takes so many bytes.
pub(crate) fn id_fits(size: u8, id: u64) -> bool
    ensures { IsTrue result ↔ (id < 256 ^ size) }
{
    match 256u64.checked_pow(u32::from(size)) {
        Some(end) => id < end,
        None => true,
    }
}

/// Whether an int has room for a length (JDWP, Detailed Command Information, common data types, string).
pub(crate) fn length_fits(length: usize) -> bool
    ensures { IsTrue result ↔ (length < 2 ^ 31) }
{
    length < 1 << 31
}

/// Whether a value has a spelling.
pub(crate) fn value_fits(value: Value, sizes: IdSizes) -> bool
    ensures { IsTrue result ↔ FitsValue sizes value }
{
    match value {
        Value::Object(id) => id_fits(sizes.object, id.0),
        Value::Array(id) => id_fits(sizes.object, id.0),
        Value::String(id) => id_fits(sizes.object, id.0),
        Value::Thread(id) => id_fits(sizes.object, id.0),
        Value::ThreadGroup(id) => id_fits(sizes.object, id.0),
        Value::ClassLoader(id) => id_fits(sizes.object, id.0),
        Value::ClassObject(id) => id_fits(sizes.object, id.0),
        _ => true,
    }
}

/// Whether a value has a spelling where a reference stands.
pub(crate) fn reference_fits(value: Value, sizes: IdSizes) -> bool
    ensures { IsTrue result ↔ FitsPart sizes reference value }
{
    value.tag().is_reference() && value_fits(value, sizes)
}

/// Whether a place in code has a spelling.
pub(crate) fn location_fits(at: Location, sizes: IdSizes) -> bool
    ensures { IsTrue result ↔ FitsLocation sizes at }
{
    id_fits(sizes.class, at.class.0) && id_fits(sizes.method, at.method.0)
}

impl Fitting for ThreadId {
    fn fits(&self, sizes: IdSizes) -> bool {
        id_fits(sizes.object, self.0)
    }
}

impl Fitting for Value {
    fn fits(&self, sizes: IdSizes) -> bool {
        value_fits(*self, sizes)
    }
}

impl Fitting for Method {
    fn fits(&self, sizes: IdSizes) -> bool {
        id_fits(sizes.method, self.id.0)
            && length_fits(self.name.len())
            && length_fits(self.signature.len())
    }
}

impl Fitting for Field {
    fn fits(&self, sizes: IdSizes) -> bool {
        id_fits(sizes.field, self.id.0)
            && length_fits(self.name.len())
            && length_fits(self.signature.len())
    }
}

impl Fitting for Line {
    fn fits(&self, _sizes: IdSizes) -> bool {
        true
    }
}

impl Fitting for Variable {
    fn fits(&self, _sizes: IdSizes) -> bool {
        length_fits(self.name.len()) && length_fits(self.signature.len())
    }
}

// Whether each of some has a spelling.
fn each_fits<T: Fitting>(items: &[T], sizes: IdSizes) -> bool
    ensures { IsTrue result ↔ AllByRecursion (T.Fits sizes) items.now }
{
    for item in items {
        if !item.fits(sizes) {
            return false;
        }
    }
    true
}

/// Whether a list has a spelling.
pub(crate) fn list_fits<T: Fitting>(items: &[T], sizes: IdSizes) -> bool
    ensures { IsTrue result ↔ FitsList (T.Fits sizes) items.now }
{
    length_fits(items.len()) && each_fits(items, sizes)
}

// Whether what an event says of a class has a spelling.
fn class_fits(class: ClassId, signature: &Blob, sizes: IdSizes) -> bool
    ensures { IsTrue result ↔ ((class.0 < 256 ^ sizes.class) × (length signature.now < 2 ^ 31)) }
{
    id_fits(sizes.class, class.0) && length_fits(signature.len())
}

// Whether what an event says of an exception has a spelling.
fn exception_fits(at: Location, exception: Value, catch: Location, sizes: IdSizes) -> bool
    ensures { IsTrue result ↔ (FitsLocation sizes at × FitsPart sizes reference exception × FitsLocation sizes catch) }
{
    location_fits(at, sizes) && reference_fits(exception, sizes) && location_fits(catch, sizes)
}

impl Fitting for Event {
    fn fits(&self, sizes: IdSizes) -> bool {
        match self {
            Event::SingleStep { thread, at, .. } => {
                id_fits(sizes.object, thread.0) && location_fits(*at, sizes)
            }
            Event::Breakpoint { thread, at, .. } => {
                id_fits(sizes.object, thread.0) && location_fits(*at, sizes)
            }
            Event::Exception {
                thread,
                at,
                exception,
                catch,
                ..
            } => {
                id_fits(sizes.object, thread.0) && exception_fits(*at, *exception, *catch, sizes)
            }
            Event::ThreadStart { thread, .. } => id_fits(sizes.object, thread.0),
            Event::ThreadDeath { thread, .. } => id_fits(sizes.object, thread.0),
            Event::ClassPrepare {
                thread,
                class,
                signature,
                ..
            } => id_fits(sizes.object, thread.0) && class_fits(*class, signature, sizes),
            Event::VMStart { thread, .. } => id_fits(sizes.object, thread.0),
            Event::VMDeath { .. } => true,
        }
    }
}

// Whether a composite has a spelling.
fn composite_fits(composite: &Composite, sizes: IdSizes) -> bool
    ensures { IsTrue result ↔ FitsComposite sizes composite.now }
{
    list_fits(composite.events.as_slice(), sizes)
}

/// A composite is spelled. It takes no memory: `NoMemory` comes just where it has no spelling.
pub(crate) fn fit_composite(composite: &Composite, sizes: IdSizes) -> Result<(), NoMemory>
    ensures { MatchResult result (λ _. FitsComposite sizes composite.now) (λ _. ¬ FitsComposite sizes composite.now) }
{
    if !composite_fits(composite, sizes) {
        return Err(NoMemory);
    }
    Ok(())
}
