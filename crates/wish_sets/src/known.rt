//! Classes are made known, and what they replace is kept, so that it may be put back.
ghost use Rattle.std.specs.Prelude.{◌≡◌, ◌↔◌, [], IsTrue, OnOk};
ghost use Rattle.class_tables.specs.Facts.{same_class};
ghost use Rattle.class_tables.specs.Lookups.{found_in};
ghost use Rattle.class_tables.specs.Tables.{put};
ghost use Rattle.wish_sets.specs.Counts.{AreEarly, IsTold};
ghost use Rattle.wish_sets.specs.Tables.{all_known, put_back, undone};
ghost use Rattle.wish_sets.specs.Wanted.{class_found, nothing_wanted, put_known};

use crate::facts::KnownClass;
use crate::learnt::class_found;
use crate::same::is_found;
use crate::share::{Entries, Shift, add_class_share, add_known_share};
use class_tables::Classes;
use indexmap::IndexMap;
use jdwp_values::ClassId;
use std::alloc::Global;
use std::mem;
use wire_core::NoMemory;

/// What a class replaced as it was made known: what was known of it, nothing where it was new.
#[derive(Drop)]
pub(crate) struct Replaced {
    pub(crate) class: ClassId,
    pub(crate) facts: Option<KnownClass>,
}

// Whether a class is known as it is found now.
fn is_known(known: &IndexMap<ClassId, KnownClass>, classes: &Classes, class: ClassId) -> bool
    ensures { IsTrue result
        → put_known class (class_found (found_in classes.now) class) known.now.entries ≡ known.now.entries }
{
    match known.get(&class) {
        Some(facts) => is_found(classes, class, facts),
        None => false,
    }
}

/// Whether these classes are known as they are found now, so that nothing changes where they are made known.
pub(crate) fn are_known(
    known: &IndexMap<ClassId, KnownClass>,
    classes: &Classes,
    those: &[ClassId],
) -> bool
    ensures { IsTrue result
        → all_known (found_in classes.now) those.now known.now.entries ≡ known.now.entries }
{
    for class in those {
        if !is_known(known, classes, *class) {
            return false;
        }
    }
    true
}

// What was known of a class is known again; where it was new, the last class goes.
fn take_back(known: &mut IndexMap<ClassId, KnownClass>, class: ClassId, before: Option<KnownClass>)
    ensures { known.new.entries ≡ put_back same_class class before known.old.entries }
{
    match before {
        Some(before) => {
            if let Some(facts) = known.get_mut(&class) {
                let _ = mem::replace(facts, before);
            }
        }
        None => {
            let _ = known.pop();
        }
    }
}

// Puts what was found of a class, and keeps what it replaces. Where memory is refused nothing changes.
#[tactic(auto, using(crate::proofs::TakenLaws::undone_append))]
fn replace(
    known: &mut IndexMap<ClassId, KnownClass>,
    replaced: &mut Vec<Replaced>,
    class: ClassId,
    facts: KnownClass,
) -> Result<(), NoMemory>
    ensures ok { OnOk result (known.new.entries ≡ put same_class class facts known.old.entries) }
    ensures back { undone replaced.new.items known.new.entries ≡ undone replaced.old.items known.old.entries }
{
    let facts = known.insert(class, facts)?;
    if let Err(refused) = replaced.push(Replaced { class, facts }) {
        take_back(known, class, refused.value.facts);
        return Err(NoMemory);
    }
    Ok(())
}

// Makes a class known, if something is new of it, and adds what is wished more and less by it. Where memory is refused
// nothing else changes.
fn know(
    known: &mut IndexMap<ClassId, KnownClass>,
    replaced: &mut Vec<Replaced>,
    shift: &mut Shift,
    alloc: Global,
    classes: &Classes,
    class: ClassId,
    entries: Entries<'_>,
) -> Result<(), NoMemory>
    ensures early { OnOk result (AreEarly shift.old.added.items → AreEarly shift.new.added.items) }
    ensures shift { OnOk result (IsTold
        (record nothing_wanted { lists = entries.entry.lists.now; functions = entries.entry.functions.now }) known.old.entries known.new.entries shift.old.added.items shift.new.added.items
        shift.old.taken.items shift.new.taken.items) }
    ensures ok { OnOk result (known.new.entries
        ≡ put_known class (class_found (found_in classes.now) class) known.old.entries) }
    ensures back { undone replaced.new.items known.new.entries ≡ undone replaced.old.items known.old.entries }
{
    if is_known(known, classes, class) {
        return Ok(());
    }
    let Some(facts) = class_found(alloc, classes, class)? else {
        return Ok(());
    };
    add_known_share(&mut shift.taken, alloc, entries, class, known.get(&class))?;
    add_class_share(&mut shift.added, alloc, entries, class, &facts)?;
    replace(known, replaced, class, facts)
}

/// Makes classes known, one after the other, keeps what they replace, and adds what is wished more and less by them.
/// Where memory is refused some may be known.
pub(crate) fn know_all(
    known: &mut IndexMap<ClassId, KnownClass>,
    replaced: &mut Vec<Replaced>,
    shift: &mut Shift,
    alloc: Global,
    classes: &Classes,
    those: &[ClassId],
    entries: Entries<'_>,
) -> Result<(), NoMemory>
    ensures early { OnOk result (AreEarly shift.old.added.items → AreEarly shift.new.added.items) }
    ensures shift { OnOk result (IsTold
        (record nothing_wanted { lists = entries.entry.lists.now; functions = entries.entry.functions.now }) known.old.entries known.new.entries shift.old.added.items shift.new.added.items
        shift.old.taken.items shift.new.taken.items) }
    ensures ok { OnOk result (known.new.entries ≡ all_known (found_in classes.now) those.now known.old.entries) }
    ensures back { undone replaced.new.items known.new.entries ≡ undone replaced.old.items known.old.entries }
{
    for class in those {
        know(known, replaced, shift, alloc, classes, *class, entries)?;
    }
    Ok(())
}

/// Whether nothing was replaced.
pub(crate) fn is_nothing(replaced: &[Replaced]) -> bool
    ensures { IsTrue result ↔ (replaced.now ≡ []) }
{
    replaced.is_empty()
}

/// Puts back what was replaced, the last first.
#[tactic(auto, using(crate::proofs::TakenLaws::undone_append))]
pub(crate) fn put_back(known: &mut IndexMap<ClassId, KnownClass>, replaced: Vec<Replaced>)
    ensures { known.new.entries ≡ undone replaced.items known.old.entries }
{
    let mut replaced = replaced;
    while let Some(one) = replaced.pop() {
        take_back(known, one.class, one.facts);
    }
}
