//! What a session knows.
ghost use Rattle.std.specs.Prelude.{◌≡◌, true, IfOk, OnOk, option_map};
ghost use Rattle.std.specs.List.{list_all};
ghost use Rattle.machine_model.specs.Breakpoints.{has_id};
ghost use Rattle.machine_model.specs.Plans.{answer_in};
ghost use Rattle.machine_model.specs.Replying.{done_by, learnt, told_by};
ghost use Rattle.session_facts.specs.Sizes.{sizes_seen};
ghost use Rattle.session_facts.specs.Effects.{IsNext};
ghost use Rattle.machine_model.specs.Composites.{learnt_in};
ghost use Rattle.machine_model.specs.Due.{after_deed};
ghost use Rattle.machine_model.specs.Rest.{awaits_greeting};
ghost use Rattle.machine_model.specs.Rows.{taken};
ghost use Rattle.machine_model.specs.State.{is_attached, is_gone, lost, nothing_known};
ghost use Rattle.machine_model.specs.Telling.{after_event, attached_from};

use class_tables::Classes;
use jdwp_commands::{Question, Replied};
use jdwp_events::Composite;
use machine_model::{ClientOptions, Deed, Effect, Event, Item, News, Phase, Thrown};
use session_facts::{
    BoundIds, Numbers, OpenClasses, Paths, SizesRead, ThreadNumbers, all_open, begin_stop,
    end_stop, entry_by, forget_thrown, has_stop, learn, learn_in, send, settle, sizes_in, spend,
    stays_open, trimmed, unlisted_by,
};
use std::alloc::Global;
use std::marker::Model;
use std::mem;
use stop_refs::Running;
use wire_core::{List, NoMemory, Text};
use wish_sets::{VerifiedEntry, Wishes};

/// What a session knows. It has to be spent by `finish`.
pub struct State {
    /// How the client wants to be served (DAP specification, Initialize request).
    pub options: ClientOptions,
    /// Where the session stands with its target.
    pub phase: Phase,
    /// Whether the handshake went out (JDWP, JDWP Start Up).
    pub greeting_sent: bool,
    /// Whether the target's handshake came (JDWP, JDWP Start Up).
    pub greeting_heard: bool,
    /// How many bytes each kind of id takes, once the target said it (JDWP, VirtualMachine command set, IDSizes).
    pub sizes: Option<SizesRead>,
    /// The folders that sources stand in.
    pub roots: List<Text>,
    /// The paths under which the client listed breakpoints of sources (DAP specification, SetBreakpoints request).
    pub paths: Paths,
    /// The id that the next breakpoint gets (DAP specification, Types, Breakpoint, id).
    pub next_entry: u64,
    /// Which event requests are wished, and which stand (JDWP, EventRequest command set).
    pub wishes: Wishes,
    /// Whether a watch was set since all classes were listed.
    pub unlisted: bool,
    /// The facts of classes.
    pub classes: Classes,
    /// The threads that were told, with their numbers.
    pub threads: ThreadNumbers,
    /// The breakpoints that were told to be verified.
    pub bound: BoundIds,
    /// Whether a stop is in hand, and the numbers of what was told in it.
    pub numbers: Numbers,
    /// What was thrown in the stop in hand.
    pub thrown: List<Thrown>,
    /// Whether the target's entry is held.
    pub entry: bool,
    /// Whether the client has configured all (DAP specification, ConfigurationDone request).
    pub configured: bool,
    /// Whether the client was told that nothing more comes of the target (DAP specification, Events, Terminated).
    pub terminated: bool,
    /// The classes that may lack something, where that was found out. Contracts see nothing of it.
    pub left: Option<OpenClasses>,
    /// Whether it was found out that the client knows of each breakpoint that is verified. Contracts see nothing of it.
    pub told: bool,
}

impl Model for State {
    ghost use Rattle.std.specs.Prelude.{IfSome, option_map};
    ghost use Rattle.std.specs.Bool.{OnTrue};
    ghost use Rattle.class_tables.specs.Lookups.{found_in};
    ghost use Rattle.machine_model.specs.State.{State as AState};
    ghost use Rattle.talk_state.specs.News.{AreTold};
    ghost use Rattle.session_facts.specs.Numbering.{has_stop, stop_of};
    ghost use Rattle.session_facts.specs.OpenClasses.{AreOpen};
    ghost use Rattle.session_facts.specs.Sizes.{sizes_seen};

    ghost Value = { AState };

    ghost view = { λ s. record {
      options = s.options;
      phase = s.phase;
      greeting_sent = s.greeting_sent;
      greeting_heard = s.greeting_heard;
      sizes = option_map sizes_seen s.sizes;
      roots = s.roots;
      paths = s.paths;
      next_entry = s.next_entry;
      wishes = s.wishes;
      unlisted = s.unlisted;
      classes = s.classes;
      threads = s.threads;
      bound = s.bound;
      stopped = has_stop s.numbers;
      numbers = stop_of s.numbers;
      thrown = s.thrown;
      entry = s.entry;
      configured = s.configured;
      terminated = s.terminated;
    } };

    ghost invariant = { λ s. (IfSome s.left (λ left. AreOpen s.wishes.wanted (found_in s.classes) left))
        × OnTrue s.told (AreTold s.wishes s.bound) };
}

impl State {
    /// Before anything was heard. `NoMemory` comes where memory is refused.
    pub fn new(alloc: Global) -> Result<State, NoMemory>
        ensures { IfOk result (λ state. state ≡ nothing_known) }
    {
        let wishes = Wishes::new(alloc)?;
        Ok(State {
            options: ClientOptions {
                lines_from_one: true,
                columns_from_one: true,
                shows_types: false,
            },
            phase: Phase::Fresh,
            greeting_sent: false,
            greeting_heard: false,
            sizes: None,
            roots: List::new(alloc),
            paths: Paths::new(alloc),
            next_entry: 1,
            wishes,
            unlisted: false,
            classes: Classes::new(alloc),
            threads: ThreadNumbers::new(alloc),
            bound: BoundIds::new(alloc),
            numbers: Numbers::Running(Running::new(alloc)),
            thrown: List::new(alloc),
            entry: false,
            configured: false,
            terminated: false,
            left: None,
            told: false,
        })
    }

    /// Where the session stands with its target: not attached yet, attached, or left behind by it.
    pub fn phase(&self) -> Phase
        ensures { result ≡ self.now.phase }
    {
        self.phase
    }

    /// Whether the session is attached to its target.
    pub fn is_attached(&self) -> bool
        ensures { result ≡ is_attached self.now.phase }
    {
        matches!(self.phase, Phase::Attached)
    }

    /// Whether the target is gone.
    pub fn is_gone(&self) -> bool
        ensures { result ≡ is_gone self.now.phase }
    {
        matches!(self.phase, Phase::Gone)
    }

    /// Whether a stop is in hand (DAP specification, Events, Stopped).
    pub fn is_stopped(&self) -> bool
        ensures { result ≡ self.now.stopped }
    {
        has_stop(&self.numbers)
    }

    /// The sizes of ids, once the target said them.
    pub fn sizes(&self) -> Option<SizesRead>
        ensures { option_map sizes_seen result ≡ self.now.sizes }
    {
        self.sizes
    }

    /// Whether the target's handshake came (JDWP, JDWP Start Up).
    pub fn is_greeted(&self) -> bool
        ensures { result ≡ self.now.greeting_heard }
    {
        self.greeting_heard
    }

    /// Whether the handshake went out, and the target's didn't come yet (JDWP, JDWP Start Up).
    pub fn awaits_greeting(&self) -> bool
        ensures { result ≡ awaits_greeting self.now }
    {
        if self.is_gone() || !self.greeting_sent {
            return false;
        }
        !self.greeting_heard
    }

    /// Whether the client was told that nothing more comes of the target (DAP specification, Events, Terminated).
    pub fn is_terminated(&self) -> bool
        ensures { result ≡ self.now.terminated }
    {
        self.terminated
    }

    /// The target's handshake came (JDWP, JDWP Start Up).
    pub fn target_greeted(&mut self)
        ensures { self.new ≡ record self.old { greeting_heard = true } }
    {
        self.greeting_heard = true;
    }

    /// The target has ended, and with it the stop in hand and the entry that was held (JDWP, Event command set,
    /// Composite, VMDeath).
    pub fn target_ended(&mut self, alloc: Global)
        ensures { self.new ≡ lost self.old }
    {
        self.phase = Phase::Gone;
        end_stop(alloc, &mut self.numbers);
        self.thrown = List::new(alloc);
        self.entry = false;
    }

    /// The session stands with its target as before a message that couldn't be told.
    pub fn return_to(&mut self, phase: Phase)
        ensures { self.new ≡ record self.old { phase = phase } }
    {
        self.phase = phase;
    }

    /// Gives up what is known.
    pub fn finish(self) {
        let State {
            options: _,
            phase: _,
            greeting_sent: _,
            greeting_heard: _,
            sizes: _,
            roots: _,
            paths: _,
            next_entry: _,
            wishes: _,
            unlisted: _,
            classes: _,
            threads: _,
            bound: _,
            numbers,
            thrown: _,
            entry: _,
            configured: _,
            terminated: _,
            left: _,
            told: _,
        } = self;
        spend(numbers);
    }

    /// An event is told: a session attaches, a stop begins, the target has ended, or the client knows of a breakpoint or
    /// a thread. `NoMemory` comes where memory is refused (DAP specification, Events).
    pub fn tell(&mut self, alloc: Global, event: &Event) -> Result<(), NoMemory>
        ensures { OnOk result (self.new ≡ after_event event.now self.old) }
    {
        match event {
            Event::Initialized => {
                self.phase = attached_from(self.phase);
                Ok(())
            }
            Event::News(News::Verified(entry)) => {
                self.told = false;
                self.bound.add(entry.id)
            }
            Event::News(News::Thread { thread, .. }) => self.threads.add(*thread),
            Event::Logged(_) => Ok(()),
            Event::Stopped(stopping) => {
                begin_stop(alloc, &mut self.numbers)?;
                self.threads.add(stopping.thread)
            }
            Event::Terminated => {
                self.terminated = true;
                self.target_ended(alloc);
                Ok(())
            }
        }
    }

    /// A deed is sent: the stop in hand is over, or the entry is held no longer. `NoMemory` comes where memory is refused
    /// (JDWP, VirtualMachine command set, Suspend, Resume, Dispose and Exit).
    pub fn sent(&mut self, alloc: Global, deed: Deed) -> Result<(), NoMemory>
        ensures { OnOk result (self.new ≡ after_deed deed self.old) }
    {
        send(alloc, deed, &mut self.numbers)?;
        forget_thrown(alloc, deed, &mut self.thrown);
        self.entry = entry_by(deed, self.entry);
        Ok(())
    }

    /// What an item tells of classes is learnt as it is begun: a class that is new joins those that may lack something,
    /// where it does. `NoMemory` comes where memory is refused (JDWP, Event command set, Composite, ClassPrepare).
    pub fn take(&mut self, alloc: Global, item: &Item) -> Result<(), NoMemory>
        ensures { OnOk result (self.new ≡ taken item.now self.old) }
    {
        match item {
            Item::Request(_) => Ok(()),
            Item::Composite { composite, .. } => self.learn_told(alloc, composite),
            Item::Raw { .. } => Ok(()),
            Item::TargetEnd => Ok(()),
        }
    }

    // The classes are learnt that a composite tells of.
    #[tactic(auto, using(session_facts::proofs::ToldLaws::taken_open))]
    fn learn_told(&mut self, alloc: Global, composite: &Composite) -> Result<(), NoMemory>
        ensures { OnOk result (self.new
            ≡ record self.old { classes = learnt_in self.old.phase composite.now self.old.classes }) }
    {
        let left = mem::replace(&mut self.left, None);
        let classes = &mut self.classes;
        self.left = learn_in(alloc, self.phase, composite, classes, &self.wishes, left)?;
        Ok(())
    }

    /// What a reply to a question tells is known from now on. `NoMemory` comes where memory is refused (JDWP, JDWP
    /// Packets, reply packet).
    pub fn hear(
        &mut self,
        alloc: Global,
        question: &Question,
        replied: &Replied,
    ) -> Result<(), NoMemory>
        ensures { OnOk result (self.new ≡ told_by question.now replied.now self.old) }
    {
        match question {
            Question::IdSizes => {
                self.sizes = sizes_in(replied);
                Ok(())
            }
            Question::AllClasses => {
                self.left = None;
                learn(alloc, question, replied, &mut self.classes)?;
                self.unlisted = false;
                Ok(())
            }
            _ => self.learn_fact(alloc, question, replied),
        }
    }

    // The fact of a class is learnt. Classes that lack nothing still do, where none are listed by it.
    #[tactic(auto, using(session_facts::proofs::OpenLaws::stay_found_out))]
    fn learn_fact(
        &mut self,
        alloc: Global,
        question: &Question,
        replied: &Replied,
    ) -> Result<(), NoMemory>
        ensures { OnOk result (self.new
            ≡ record self.old { classes = learnt question.now (answer_in replied.now) self.old.classes }) }
    {
        let left = mem::replace(&mut self.left, None);
        learn(alloc, question, replied, &mut self.classes)?;
        if stays_open(question) {
            self.left = left;
        }
        Ok(())
    }

    /// It is found out which classes may lack something, by what is known now. Contracts don't see which these are:
    /// they say that nothing else changes, and the invariant that what is left is enough. `NoMemory` comes where memory
    /// is refused (JDWP, ReferenceType command set, SourceFile and Methods; JDWP, Method command set, LineTable).
    pub fn open_classes(&mut self, alloc: Global) -> Result<(), NoMemory>
        ensures { OnOk result (self.new ≡ self.old) }
    {
        let left = match mem::replace(&mut self.left, None) {
            None => all_open(alloc, &self.classes, &self.wishes)?,
            Some(left) => trimmed(alloc, &self.classes, &self.wishes, left)?,
        };
        self.left = Some(left);
        Ok(())
    }

    /// It is found out whether the client knows of each breakpoint that is verified. Contracts don't see it: they say that
    /// nothing changes. `NoMemory` comes where memory is refused (DAP specification, Events, Breakpoint).
    pub fn find_news(&mut self, alloc: Global) -> Result<(), NoMemory>
        ensures { OnOk result (self.new ≡ self.old) }
    {
        if !self.told {
            let verified = self.wishes.verified(alloc)?;
            self.told = all_told(&self.bound, verified.as_slice());
        }
        Ok(())
    }

    /// What the reply to the effect that was due tells is known from now on. No list changes, so classes that lack nothing
    /// still do (JDWP, EventRequest command set, Set and Clear).
    #[tactic(auto, using(session_facts::proofs::AlikeLaws::settled_open))]
    pub fn settle(&mut self, effect: &Effect, replied: &Replied)
        requires { IsNext effect.now self.old.wishes }
        ensures { self.new ≡ done_by effect.now replied.now self.old }
    {
        self.unlisted = unlisted_by(effect, replied, self.unlisted);
        match effect {
            Effect::Does(_) => {}
            Effect::Set(_) => self.told = false,
            Effect::Clear { .. } => self.told = false,
        }
        settle(&mut self.wishes, effect, replied);
    }
}

// Whether all these breakpoints were told to be verified.
fn all_told(bound: &BoundIds, entries: &[VerifiedEntry]) -> bool
    ensures { result ≡ list_all (λ entry. has_id bound.now entry.id) entries.now }
{
    for entry in entries {
        if !bound.has(entry.id) {
            return false;
        }
    }
    true
}

// A target that is gone stays gone.
fn attached_from(phase: Phase) -> Phase
    ensures { result ≡ attached_from phase }
{
    match phase {
        Phase::Fresh => Phase::Attached,
        Phase::Attached => Phase::Attached,
        Phase::Gone => Phase::Gone,
    }
}
