//! The value that a text is in a place, and how it is written there (JDWP, StackFrame, ObjectReference and ArrayReference
//! command sets, SetValues).
ghost use Rattle.std.specs.Prelude.{◌≡◌, IfOk};
ghost use Rattle.machine_model.specs.Plans.{made_with, need};
ghost use Rattle.machine_model.specs.Values.{declared_plan};
ghost use Rattle.machine_model.specs.Writing.{element_store, field_store, misread, slot_store, value_failure, value_for};
ghost use Rattle.machine_model.specs.Writing.{write_with};
ghost use Rattle.look_ups.specs.Needs.{need_with, seen_by};
ghost use Rattle.look_ups.specs.Shown.{declared_of};
ghost use Rattle.child_pages.specs.Shown.{place_of, write_said, writing_of};

use crate::children::Place;
use dap_messages::Failure;
use jdwp_values::{ObjectId, Tag, Value};
use look_ups::{Declared, Need, Sight, as_int, childless, declared_need, first_byte, type_if};
use machine_model::{Seen, Store, Write};
use std::alloc::Global;
use stop_refs::FrameThing;
use value_views::{Known, WriteFault, value_text, write_value};
use wire_core::{NoMemory, Text};

/// What is written, and how it is shown; or why nothing is.
pub(crate) type Written = Result<(Write, Seen), Failure>;

/// How a value is to be written: whether its type is shown, how many bytes an object's id takes, and its text.
#[derive(Clone, Copy)]
pub(crate) struct Writing<'a> {
    pub(crate) types: bool,
    pub(crate) size: u32,
    pub(crate) text: &'a Text,
}

// Why a text is none of the values of a kind: a reference takes null alone.
fn misread(kind: Option<Tag>) -> Failure
    ensures { result ≡ misread kind }
{
    match kind {
        None => Failure::not_writable(),
        Some(tag) => {
            if tag.is_reference() {
                Failure::not_writable()
            } else {
                Failure::bad_expression(0)
            }
        }
    }
}

fn value_failure(kind: Option<Tag>, fault: WriteFault) -> Failure
    ensures { result ≡ value_failure kind fault }
{
    match fault {
        WriteFault::BadText => misread(kind),
        WriteFault::NotWritable => Failure::not_writable(),
    }
}

// The value that a text is in a place, by the first byte of its signature.
fn value_for(declared: &[u8], text: &Text) -> Result<Value, Failure>
    ensures { result ≡ value_for declared.now text.now }
{
    let kind = first_byte(declared);
    match write_value(kind, text) {
        Ok(value) => Ok(value),
        Err(fault) => Err(value_failure(Tag::from_byte(kind), fault)),
    }
}

/// Where a variable of a frame stands; the receiver is none.
pub(crate) fn slot_store(frame: FrameThing, place: Place) -> Option<Store>
    ensures { result ≡ slot_store frame (place_of place) }
{
    match place {
        Place::Slot(slot) => Some(Store::Slot {
            thread: frame.thread,
            frame: frame.frame,
            slot: slot.slot,
        }),
        Place::Known(_) => None,
        Place::Field(_) => None,
        Place::Index(_) => None,
    }
}

/// Where a field of an object stands.
pub(crate) fn field_store(object: u64, place: Place) -> Option<Store>
    ensures { result ≡ field_store object (place_of place) }
{
    match place {
        Place::Field(field) => Some(Store::Field {
            object: ObjectId(object),
            field,
        }),
        Place::Known(_) => None,
        Place::Slot(_) => None,
        Place::Index(_) => None,
    }
}

/// Where an element of an array stands. An index that no array has comes to no memory.
pub(crate) fn element_store(array: u64, place: Place) -> Result<Option<Store>, NoMemory>
    ensures { IfOk result (λ store. store ≡ element_store array (place_of place)) }
{
    match place {
        Place::Index(index) => {
            let index = as_int(index)?;
            Ok(Some(Store::Element {
                array: ObjectId(array),
                index,
            }))
        }
        Place::Known(_) => Ok(None),
        Place::Slot(_) => Ok(None),
        Place::Field(_) => Ok(None),
    }
}

// A value is written, and shown with the type of its place.
fn write_with(
    alloc: Global,
    writing: Writing<'_>,
    store: Option<Store>,
    declared: &[u8],
) -> Result<Written, NoMemory>
    ensures { IfOk result (λ written. write_said written
        ≡ write_with (writing_of writing.entry) store declared.now (value_for declared.now (writing_of writing.entry).text)) }
{
    let value = match value_for(declared, writing.text) {
        Ok(value) => value,
        Err(failure) => return Ok(Err(failure)),
    };
    let Some(store) = store else {
        return Ok(Err(Failure::not_writable()));
    };
    let text = value_text(alloc, &value, &Known::Plain)?;
    let seen = childless(text, type_if(alloc, writing.types, declared)?);
    let size = writing.size;
    Ok(Ok((Write { store, value, size }, seen)))
}

/// A value is written to a place with this signature.
#[tactic(auto, using(machine_model::proofs::PlanIds::need_made))]
pub(crate) fn place_written(
    alloc: Global,
    sight: Sight<'_>,
    writing: Writing<'_>,
    store: Option<Store>,
    declared: &Declared,
) -> Result<Need<Written>, NoMemory>
    ensures { IfOk result (λ found. need_with write_said found ≡ need (seen_by sight.entry)
        (made_with (λ signature. write_with (writing_of writing.entry) store signature (value_for signature (writing_of writing.entry).text))
        (declared_plan (declared_of declared.now)))) }
{
    match declared_need(alloc, sight, declared)? {
        Need::Has(signature) => Ok(Need::Has(write_with(
            alloc,
            writing,
            store,
            signature.as_slice(),
        )?)),
        Need::Fails { place, code } => Ok(Need::Fails { place, code }),
        Need::Lacks { first, others } => Ok(Need::Lacks { first, others }),
    }
}
