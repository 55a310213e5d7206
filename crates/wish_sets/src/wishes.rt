//! What is wished of the target, and what stands.
ghost use Rattle.std.specs.Prelude.{◌≡◌, ◌<◌, ◌^◌, ◌∷◌, [], Some, None, true, option_map, IfOk, IsTrue, OnOk, OnErr};
ghost use Rattle.std.specs.Option.{option_copied};
ghost use Rattle.std.specs.Result.{result_map_both};
ghost use Rattle.wish_sets.specs.Wanted.{with_class, with_exceptions, with_functions, with_known, with_lines};
ghost use Rattle.wish_sets.specs.Wanted.{with_step};
ghost use Rattle.wish_sets.specs.Wishes.{new_wishes, rewished, next_change, next_place, is_outcome, settled, owner_of};
ghost use Rattle.class_tables.specs.Lookups.{found_in};
ghost use Rattle.wish_sets.specs.Entries.{entries_at, state_of, verified};
ghost use Rattle.wish_sets.specs.Forming.{wished_or_installed};
ghost use Rattle.wish_sets.specs.Slots.{change_shown, place_shown};
ghost use Rattle.wish_sets.specs.Wished.{is_watched, is_listed, is_named};

use crate::asked::{is_listed, is_named, watches};
use crate::bound::{Bound, has_id, of_id, of_location};
use crate::change::{Change, Settled};
use crate::cursor::Cursor;
use crate::entry::{EntryAt, EntryState, FunctionEntry, LineEntry, VerifiedEntry};
use crate::fixed::{fixed_slots, want_step, want_thrown};
use crate::forming::form;
use crate::known::{are_known, is_nothing, know_all, put_back};
use crate::owners::{Owners, owner};
use crate::share::{Entries, Shift, functions_shift, lines_shift};
use crate::slot::{Slot, late, settle, unset};
use crate::standing::{entries_at, entry_state};
use crate::table::{put_at, take_back};
use crate::verified::verified_entries;
use crate::wants::{Wants, list_at};
use crate::wish::{Depth, StepWish, Wish};
use class_tables::Classes;
use jdwp_events::EventKind;
use jdwp_values::{ClassId, Location, ThreadId};
use std::alloc::Global;
use std::marker::Model;
use std::mem;
use wire_core::{List, NoMemory, Text};

/// What is wanted, and the event requests that the target holds or has refused (JDWP, EventRequest command set, Set and
/// Clear).
///
/// Contracts see what is wanted, what is installed and what was refused.
#[derive(Drop)]
pub struct Wishes {
    wants: Wants,
    bound: Bound,
    slots: Vec<Slot>,
    owners: Owners,
    cursor: Cursor,
    fixed: [Slot; 5],
}

impl Model for Wishes {
    ghost use Rattle.std.specs.Prelude.{◌≡◌, ◌++◌};
    ghost use Rattle.wish_sets.specs.Wishes.{Wishes as WhatStands};
    ghost use Rattle.wish_sets.specs.Kept.{wanted_by, wishes_by, AreKept};
    ghost use Rattle.wish_sets.specs.Bounds.{IsBound};
    ghost use Rattle.wish_sets.specs.Cursors.{IsPast};
    ghost use Rattle.wish_sets.specs.Owners.{AreOwned};
    ghost use Rattle.wish_sets.specs.Counts.{AreCounts};

    ghost Value = { WhatStands };

    ghost view = { λ w. wishes_by w.wants (w.slots.items ++ w.fixed) };

    ghost invariant = { λ w. AreKept (wanted_by w.wants) w.slots.items w.fixed
        × IsBound (wanted_by w.wants) w.bound × IsPast w.cursor w.slots.items
        × AreOwned w.owners w.slots.items × AreCounts (wanted_by w.wants) w.slots.items };
}

impl Wishes {
    /// Nothing is wanted, and nothing stands: the starts and ends of threads alone are wished. `NoMemory` comes where
    /// memory is refused.
    pub fn new(alloc: Global) -> Result<Wishes, NoMemory>
        ensures { IfOk result (λ wishes. wishes ≡ new_wishes) }
    {
        let mut slots = Vec::new(alloc);
        slots.push(Slot::new(Wish::ThreadStart, true))?;
        slots.push(Slot::new(Wish::ThreadDeath, true))?;
        Ok(Wishes {
            wants: Wants::new(alloc),
            bound: Bound::new(alloc),
            slots,
            owners: Owners::new(alloc),
            cursor: Cursor::new(),
            fixed: fixed_slots(),
        })
    }

    /// Replaces which exceptions stop, those that are caught and those that are not. It takes no memory (DAP
    /// specification, SetExceptionBreakpoints request; JDWP, EventRequest command set, Set, ExceptionOnly).
    pub fn set_exceptions(&mut self, caught: bool, uncaught: bool)
        ensures { self.new ≡ rewished (with_exceptions caught uncaught self.old.wanted) self.old }
    {
        self.wants.caught = caught;
        self.wants.uncaught = uncaught;
        want_thrown(&mut self.fixed, caught, uncaught);
    }

    /// A step is in flight, in place of any other. It takes no memory (DAP specification, Next, StepIn and StepOut
    /// requests; JDWP, EventRequest command set, Set, Step).
    pub fn set_step(&mut self, thread: ThreadId, depth: Depth)
        ensures { self.new ≡ rewished (with_step (Some (record { thread = thread; depth = depth })) self.old.wanted)
            self.old }
    {
        let step = Some(StepWish { thread, depth });
        self.wants.step = step;
        want_step(&mut self.fixed, step);
    }

    /// No step is in flight. It takes no memory.
    pub fn clear_step(&mut self)
        ensures { self.new ≡ rewished (with_step None self.old.wanted) self.old }
    {
        self.wants.step = None;
        want_step(&mut self.fixed, None);
    }

    /// Replaces the list of a source, by its key: the path of its package, `/` and the name of its file, or that name
    /// alone in the default package. `NoMemory` comes where memory is refused, or where 2^31 or more would be wished or
    /// installed; then nothing changes (DAP specification, SetBreakpoints request).
    pub fn set_lines(
        &mut self,
        alloc: Global,
        key: Text,
        entries: List<LineEntry>,
    ) -> Result<(), NoMemory>
        ensures ok { OnOk result (self.new ≡ rewished (with_lines key entries self.old.wanted) self.old) }
        ensures bound { OnOk result (wished_or_installed self.new < 2 ^ 31) }
        ensures err { OnErr result (self.new ≡ self.old) }
    {
        let at = list_at(&self.wants.lists, &key);
        let shift = lines_shift(alloc, &self.wants, at, &key, entries.as_slice())?;
        let before = put_at(&mut self.wants.lists, at, key, entries)?;
        if let Err(refused) = form(
            &mut self.slots,
            &mut self.bound,
            &mut self.owners,
            &mut self.cursor,
            alloc,
            &self.wants,
            &shift,
        ) {
            take_back(&mut self.wants.lists, at, before);
            return Err(refused);
        }
        Ok(())
    }

    /// Replaces the functions to stop in. `NoMemory` comes where memory is refused, or where 2^31 or more would be
    /// wished or installed; then nothing changes (DAP specification, SetFunctionBreakpoints request).
    pub fn set_functions(
        &mut self,
        alloc: Global,
        entries: List<FunctionEntry>,
    ) -> Result<(), NoMemory>
        ensures ok { OnOk result (self.new ≡ rewished (with_functions entries self.old.wanted) self.old) }
        ensures bound { OnOk result (wished_or_installed self.new < 2 ^ 31) }
        ensures err { OnErr result (self.new ≡ self.old) }
    {
        let shift = functions_shift(alloc, &self.wants, entries.as_slice())?;
        let before = mem::replace(&mut self.wants.functions, entries);
        if let Err(refused) = form(
            &mut self.slots,
            &mut self.bound,
            &mut self.owners,
            &mut self.cursor,
            alloc,
            &self.wants,
            &shift,
        ) {
            self.wants.functions = before;
            return Err(refused);
        }
        Ok(())
    }

    /// Copies what is known of a class: its tag, its signature, its source, whether it is prepared, its methods and
    /// their lines. A class that was not loaded changes nothing, nor does one that is made known again with nothing
    /// new. `NoMemory` comes where memory is refused, or where 2^31 or more would be wished or installed; then nothing
    /// changes (JDWP, VirtualMachine command set, AllClasses; JDWP, Event command set, Composite, ClassPrepare).
    pub fn class_known(
        &mut self,
        alloc: Global,
        classes: &Classes,
        class: ClassId,
    ) -> Result<(), NoMemory>
        ensures ok { OnOk result
            (self.new ≡ rewished (with_class (found_in classes.now) class self.old.wanted) self.old) }
        ensures bound { OnOk result (wished_or_installed self.new < 2 ^ 31) }
        ensures err { OnErr result (self.new ≡ self.old) }
    {
        self.classes_known(alloc, classes, &[class])
    }

    /// Copies what is known of several classes, as `class_known` does of each in turn, but forms what is wished once;
    /// where nothing is new of any, not at all. `NoMemory` comes where memory is refused, or where 2^31 or more would
    /// be wished or installed; then nothing changes (JDWP, VirtualMachine command set, AllClasses; JDWP, ReferenceType
    /// command set, SourceFile and Methods; JDWP, Method command set, LineTable).
    pub fn classes_known(
        &mut self,
        alloc: Global,
        classes: &Classes,
        those: &[ClassId],
    ) -> Result<(), NoMemory>
        ensures ok { OnOk result
            (self.new ≡ rewished (with_known (found_in classes.now) those.now self.old.wanted) self.old) }
        ensures bound { OnOk result (wished_or_installed self.new < 2 ^ 31) }
        ensures err { OnErr result (self.new ≡ self.old) }
    {
        let mut replaced = Vec::new(alloc);
        let mut shift = Shift::new(alloc);
        let entries = Entries {
            lists: &self.wants.lists,
            functions: self.wants.functions.as_slice(),
        };
        let told = know_all(
            &mut self.wants.classes,
            &mut replaced,
            &mut shift,
            alloc,
            classes,
            those,
            entries,
        );
        if let Err(refused) = told {
            put_back(&mut self.wants.classes, replaced);
            return Err(refused);
        }
        if is_nothing(&replaced) {
            return Ok(());
        }
        // Most classes have no place at which an entry is bound: then all that is wished stays as it is.
        if shift.is_nothing() {
            return Ok(());
        }
        if let Err(refused) = form(
            &mut self.slots,
            &mut self.bound,
            &mut self.owners,
            &mut self.cursor,
            alloc,
            &self.wants,
            &shift,
        ) {
            put_back(&mut self.wants.classes, replaced);
            return Err(refused);
        }
        Ok(())
    }

    /// Whether these classes are known as they are found now: then nothing changes where they are made known. It takes no
    /// memory.
    pub fn knows(&self, classes: &Classes, those: &[ClassId]) -> bool
        ensures { IsTrue result
            → rewished (with_known (found_in classes.now) those.now self.now.wanted) self.now ≡ self.now }
    {
        are_known(&self.wants.classes, classes, those)
    }

    /// The next change: the first request that is installed and no longer wished, as a Clear; else the first wish that
    /// is neither installed nor refused, as a Set. `None` exactly where what is installed is what is wished less what
    /// was refused. It takes no memory.
    pub fn next_change(&self) -> Option<Change<'_>>
        ensures change { option_map change_shown result ≡ next_change self.now }
        ensures place { option_map place_shown result ≡ next_place self.now }
    {
        match late(&self.slots, &self.fixed, self.cursor) {
            Ok(_) => unset(&self.slots, &self.fixed, self.cursor).err(),
            Err(change) => Some(change),
        }
    }

    /// Marks what came of the next change, which stands at this place: a Clear was cleared, a Set was installed or
    /// refused. It takes no memory.
    pub fn settled(&mut self, _place: u32, outcome: Settled)
        requires next { next_place self.old ≡ Some _place }
        requires outcome { is_outcome (next_change self.old) outcome ≡ true }
        ensures { self.new ≡ settled outcome self.old }
    {
        let found = settle(&mut self.slots, &mut self.fixed, &mut self.cursor, outcome);
        self.owners.keep(&self.slots, found);
    }

    /// The wish of an event, by its kind and the id of its request: the first installed one, in wish order, that has
    /// both; `None` exactly where none has. It takes no memory (JDWP, Event command set, Composite, requestID).
    pub fn owner_of(&self, kind: EventKind, request: u32) -> Option<&Wish>
        ensures { option_copied result ≡ owner_of self.now.installed kind request }
    {
        owner(&self.owners, &self.slots, &self.fixed, kind, request)
    }

    /// Whether the classes of a package are wished as they are prepared, by the path that a signature has, in bytes
    /// with `/` between its parts and empty in the default package. It takes no memory (JDWP, EventRequest command set,
    /// Set, ClassMatch).
    pub fn is_watched(&self, path: &[u8]) -> bool
        ensures { result ≡ is_watched self.now.wanted path.now }
    {
        watches(&self.slots, path)
    }

    /// Whether a source is listed, with an entry at least, by the path of its package and the name of its file. It
    /// takes no memory (DAP specification, SetBreakpoints request).
    pub fn is_listed(&self, path: &[u8], file: &[u8]) -> bool
        ensures { result ≡ is_listed self.now.wanted (record { package_path = path.now; file = file.now }) }
    {
        is_listed(&self.wants.lists, path, file)
    }

    /// Whether a function names a class, by its signature, and the method where one is given. It takes no memory (DAP
    /// specification, SetFunctionBreakpoints request).
    pub fn is_named(&self, signature: &[u8], method: Option<&[u8]>) -> bool
        ensures { result ≡ is_named self.now.wanted signature.now (option_copied method.entry) }
    {
        is_named(self.wants.functions.as_slice(), signature, method)
    }

    /// How an entry stands, by its id; `None` exactly where no entry that is listed has it. It takes no memory (DAP
    /// specification, Breakpoint, verified).
    pub fn state_of(&self, id: u64) -> Option<EntryState>
        ensures { result ≡ state_of self.now id }
    {
        if !has_id(&self.bound.ids, id) {
            return None;
        }
        let places = of_id(&self.bound.by_id, id);
        Some(entry_state(places, id, &self.slots, &self.fixed))
    }

    /// The entries that have a location, in order of their ids, each once. `NoMemory` comes where memory is refused
    /// (JDWP, Event command set, Composite, Breakpoint, location).
    pub fn entries_at(&self, alloc: Global, at: &Location) -> Result<List<EntryAt>, NoMemory>
        ensures { IfOk result (λ found. found ≡ entries_at self.now.wanted at.now) }
    {
        entries_at(alloc, of_location(&self.bound.by_location, *at), *at)
    }

    /// The entries that are verified, breakpoints of sources and of functions, in order of their ids, each id once.
    /// Takes memory for the list; `NoMemory` comes where it is refused (DAP specification, Types, Breakpoint, verified).
    pub fn verified(&self, alloc: Global) -> Result<List<VerifiedEntry>, NoMemory>
        ensures { IfOk result (λ entries. entries ≡ verified self.now) }
    {
        verified_entries(alloc, self, &self.wants)
    }
}
