//! Classes that are told, beside those that may lack something.
ghost use Rattle.std.specs.Prelude.{◌≡◌, ◌++◌, ◌||◌, IfOk, OnOk};
ghost use Rattle.class_tables.specs.Facts.{same_class};
ghost use Rattle.class_tables.specs.Lookups.{found_in};
ghost use Rattle.machine_model.specs.Classes.{with_listed};
ghost use Rattle.session_facts.specs.OpenClasses.{has_class, kept_by, left_told, placed, risen, stands_within, stood};
ghost use Rattle.session_facts.specs.OpenClasses.{told_as};

use crate::facts::learn_loaded;
use crate::known_classes::known_signature;
use crate::open_classes::{OpenClasses, Standing, may_be_found, may_lack, standing_of};
use crate::places::next_place;
use class_tables::Classes;
use jdwp_values::{ClassId, TypeTag};
use std::alloc::Global;
use wire_core::{List, NoMemory};
use wish_sets::Wishes;

// So many classes may be found where one takes its place among them.
const MOST_FOUND: usize = 16;

fn stands_within(now: Standing, was: Standing) -> bool
    ensures { result ≡ stands_within now was }
{
    match now {
        Standing::Passed => true,
        Standing::Settled => may_be_found(was),
        Standing::Open => may_lack(was),
    }
}

// How a class stood, where it was listed or told before.
fn stood(classes: &Classes, wishes: &Wishes, class: ClassId) -> Option<Standing>
    ensures { result ≡ stood wishes.now.wanted (found_in classes.now) class }
{
    match known_signature(classes, class) {
        None => None,
        Some(_) => Some(standing_of(classes, wishes, class)),
    }
}

// Whether a class is among others.
fn has_class(classes: &[ClassId], class: ClassId) -> bool
    ensures { result ≡ has_class classes.now class }
{
    classes.iter().any(|other| class.0 == other.0)
}

// A class behind others, where it is the one that takes its place, or is left.
fn add_placed(
    those: &mut List<ClassId>,
    class: ClassId,
    left: &[ClassId],
    other: ClassId,
) -> Result<(), NoMemory>
    ensures { OnOk result (those.new
        ≡ those.old ++ kept_by (same_class class other || has_class left.now other) other) }
{
    if class.0 == other.0 || has_class(left, other) {
        return those.push(other);
    }
    Ok(())
}

// Of all classes one and those that are left, in order.
fn placed(
    alloc: Global,
    classes: &Classes,
    class: ClassId,
    left: &[ClassId],
) -> Result<List<ClassId>, NoMemory>
    ensures { IfOk result (λ those. those ≡ placed class left.now (found_in classes.now).order) }
{
    let mut those = List::new(alloc);
    let mut place = 0;
    while let Some(other) = classes.nth(place) {
        add_placed(&mut those, class, left, other)?;
        place = next_place(place)?;
    }
    Ok(those)
}

// A class takes its place among those that are left, where these are few.
fn risen(
    alloc: Global,
    classes: &Classes,
    class: ClassId,
    left: OpenClasses,
) -> Result<Option<OpenClasses>, NoMemory>
    ensures { IfOk result (λ later. later ≡ risen (found_in classes.now).order class left) }
{
    if left.found.len() > MOST_FOUND {
        return Ok(None);
    }
    let lacking = placed(alloc, classes, class, left.lacking.as_slice())?;
    let found = placed(alloc, classes, class, left.found.as_slice())?;
    Ok(Some(OpenClasses { lacking, found }))
}

// The classes that are left once one is told, by how it stood and stands.
fn told_as(
    alloc: Global,
    classes: &Classes,
    was: Option<Standing>,
    now: Standing,
    class: ClassId,
    mut left: OpenClasses,
) -> Result<Option<OpenClasses>, NoMemory>
    ensures { IfOk result (λ later. later ≡ told_as (found_in classes.now).order was now class left) }
{
    match was {
        None => {
            left.add(now, class)?;
            Ok(Some(left))
        }
        Some(was) if stands_within(now, was) => Ok(Some(left)),
        Some(_) => risen(alloc, classes, class, left),
    }
}

/// Learns a class by the event that it was prepared, and gives the classes that may lack something by then: it joins
/// them where it is new. Where it was known and stands higher than before it takes its place among them, or, where these
/// are many, they are given up. `NoMemory` comes where memory is refused (JDWP, Event command set, Composite,
/// ClassPrepare).
pub(crate) fn learn_told(
    alloc: Global,
    classes: &mut Classes,
    wishes: &Wishes,
    left: Option<OpenClasses>,
    class: ClassId,
    tag: TypeTag,
    signature: &[u8],
    status: i32,
) -> Result<Option<OpenClasses>, NoMemory>
    ensures known { OnOk result (classes.new ≡ with_listed classes.old
        (record { tag = tag; class = class; signature = signature.now; status = status })) }
    ensures left { IfOk result (λ later. later ≡ left_told wishes.now.wanted classes.old
        (record { tag = tag; class = class; signature = signature.now; status = status }) left) }
{
    let Some(left) = left else {
        learn_loaded(alloc, classes, class, tag, signature, status)?;
        return Ok(None);
    };
    let was = stood(classes, wishes, class);
    learn_loaded(alloc, classes, class, tag, signature, status)?;
    let now = standing_of(classes, wishes, class);
    told_as(alloc, classes, was, now, class, left)
}
