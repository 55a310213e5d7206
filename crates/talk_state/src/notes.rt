//! What an item writes down.
ghost use Rattle.std.specs.Prelude.{◌≡◌, ◌++◌, ◌+◌, ◌^◌, ◌≤◌, MatchResult, OnOk};
ghost use Rattle.machine_model.specs.Rows.{noted};
ghost use Rattle.machine_model.specs.declared.parts.Note.TheVariants.{Classes, Functions, Lines};
ghost use Rattle.machine_model.specs.declared.parts.Note.TheVariants.{Exceptions as StopsAt, Step as Steps};
ghost use Rattle.wish_sets.specs.Wanted.{with_step};
ghost use Rattle.wish_sets.specs.Wishes.{rewished};

use crate::state::State;
use jdwp_values::ClassId;
use machine_model::{Note, Thrown};
use std::alloc::Global;
use wire_core::{List, NoMemory, Text};
use wish_sets::{FunctionEntry, LineEntry, StepWish, Wishes};

impl State {
    /// Something is written down: what the client asked for, what breakpoints are bound by, or where the session stands
    /// with the target's entry. `NoMemory` comes where memory is refused, or where the ids of breakpoints have no room.
    pub fn note(&mut self, alloc: Global, note: Note) -> Result<(), NoMemory>
        ensures { OnOk result (self.new ≡ noted note self.old) }
    {
        match note {
            Note::Options(options) => {
                self.options = options;
                Ok(())
            }
            Note::Roots(roots) => {
                self.roots = roots;
                Ok(())
            }
            Note::Lines { key, path, entries } => self.list_lines(alloc, key, path, entries),
            Note::Functions(entries) => self.list_functions(alloc, entries),
            Note::Exceptions { caught, uncaught } => {
                self.stop_at(caught, uncaught);
                Ok(())
            }
            Note::Step(step) => {
                self.step(step);
                Ok(())
            }
            Note::Thrown(thrown) => add_thrown(&mut self.thrown, thrown.as_slice()),
            Note::Classes(those) => self.know(alloc, those.as_slice()),
            Note::EntryHeld => {
                self.entry = true;
                Ok(())
            }
            Note::Configured => {
                self.configured = true;
                Ok(())
            }
        }
    }

    // Which exceptions stop is noted. No list changes, so classes that lack nothing still do.
    #[tactic(auto, using(session_facts::proofs::AlikeLaws::exceptions_open))]
    fn stop_at(&mut self, caught: bool, uncaught: bool)
        ensures { self.new ≡ noted (StopsAt caught uncaught) self.old }
    {
        self.wishes.set_exceptions(caught, uncaught);
    }

    // A step is in flight, or none is. No list changes, so classes that lack nothing still do.
    #[tactic(auto, using(session_facts::proofs::AlikeLaws::step_open))]
    fn step(&mut self, step: Option<StepWish>)
        ensures { self.new ≡ noted (Steps step) self.old }
    {
        want_step(&mut self.wishes, step);
    }

    // Classes are made known to what is bound in them. No list changes, so classes that lack nothing still do.
    #[tactic(auto, using(session_facts::proofs::AlikeLaws::known_open))]
    fn know(&mut self, alloc: Global, those: &[ClassId]) -> Result<(), NoMemory>
        ensures { OnOk result (self.new ≡ noted (Classes those.now) self.old) }
    {
        if self.wishes.knows(&self.classes, those) {
            return Ok(());
        }
        self.told = false;
        self.wishes.classes_known(alloc, &self.classes, those)
    }

    // The breakpoints of a source are listed under a path, each under an id of its own; without a key none is kept.
    fn list_lines(
        &mut self,
        alloc: Global,
        key: Option<Text>,
        path: Text,
        entries: List<LineEntry>,
    ) -> Result<(), NoMemory>
        ensures { OnOk result (self.new ≡ noted (Lines key path entries) self.old) }
    {
        let next = id_behind(self.next_entry, entries.len())?;
        if let Some(key) = key {
            self.left = None;
            self.told = false;
            self.paths.put(alloc, &key, path)?;
            self.wishes.set_lines(alloc, key, entries)?;
        }
        self.next_entry = next;
        Ok(())
    }

    // The functions to stop in are listed, each under an id of its own.
    fn list_functions(
        &mut self,
        alloc: Global,
        entries: List<FunctionEntry>,
    ) -> Result<(), NoMemory>
        ensures { OnOk result (self.new ≡ noted (Functions entries) self.old) }
    {
        let next = id_behind(self.next_entry, entries.len())?;
        self.left = None;
        self.told = false;
        self.wishes.set_functions(alloc, entries)?;
        self.next_entry = next;
        Ok(())
    }
}

// The id behind so many, from this one on. It takes no memory: `NoMemory` comes just where that would reach 2^64.
fn id_behind(first: u64, count: usize) -> Result<u64, NoMemory>
    ensures { MatchResult result (λ next. next ≡ first + count) (λ _. 2 ^ 64 ≤ first + count) }
{
    match first.checked_add(count as u64) {
        Some(next) => Ok(next),
        None => Err(NoMemory),
    }
}

// A step is in flight, or none is (DAP specification, Next, StepIn and StepOut requests).
fn want_step(wishes: &mut Wishes, step: Option<StepWish>)
    ensures { wishes.new ≡ rewished (with_step step wishes.old.wanted) wishes.old }
{
    match step {
        None => wishes.clear_step(),
        Some(step) => wishes.set_step(step.thread, step.depth),
    }
}

// What was thrown is written down, behind what was before (DAP specification, ExceptionInfo request).
fn add_thrown(thrown: &mut List<Thrown>, more: &[Thrown]) -> Result<(), NoMemory>
    ensures { OnOk result (thrown.new ≡ thrown.old ++ more.now) }
{
    for one in more {
        thrown.push(*one)?;
    }
    Ok(())
}
