//! The machine: what is known, the items that wait, the one in hand, and the commands that were left without a reply.
ghost use Rattle.std.specs.Prelude.{◌≡◌, ◌<◌, Bool, false, None, Some, length, remove, IfErr, IfOk, OnOk, option_map};
ghost use Rattle.machine_model.specs.Due.{can_read, due, due_as, is_full};
ghost use Rattle.machine_model.specs.Replying.{answered, ended, ended_with, pending_in};
ghost use Rattle.machine_model.specs.Rest.{awaits_greeting};
ghost use Rattle.machine_model.specs.Runs.{greeting_heard, heard, with_item};
ghost use Rattle.machine_model.specs.State.{Hand, Machine as AMachine, fresh, is_gone};
ghost use Rattle.machine_model.specs.declared.acts.Effect.{Effect as AnEffect};
ghost use Rattle.machine_model.specs.declared.acts.TargetCommand.TheVariants.{Effect as an_effect};
ghost use Rattle.machine_model.specs.declared.acts.TargetCommand.TheVariants.{Question as a_question};
ghost use Rattle.bridge_core.specs.Calls.{AreRead};
ghost use Rattle.bridge_core.specs.Moving.{IsFlight, RefusesKept};
ghost use Rattle.bridge_core.specs.Packets.{CanReply, Replies};
ghost use Rattle.session_facts.specs.Sizes.{sizes_seen};
ghost use Rattle.talk_plans.specs.Talking.{AreSized, act_of};
ghost use Rattle.session_facts.specs.Effects.{IsNext};

use crate::hand::{answered, done, give_up, go_on, hold, is_leaving, note_done, note_reply};
use dap_messages::Request;
use jdwp_commands::{Asked, Question, Replied};
use machine_model::{Item, TargetCommand};
use message_bodies::{is_dead, is_disconnect, known, read_kept, take_next};
use session_endings::Ending;
use session_facts::SizesRead;
use std::alloc::Global;
use std::collections::VecDeque;
use std::marker::Model;
use talk_plans::{Next, Talk};
use talk_state::State;
use wire_core::NoMemory;

/// The translation machine, which has to be spent by `finish`. Contracts see it as the machine's own state.
pub(crate) struct Machine {
    pub(crate) state: State,
    pub(crate) waiting: VecDeque<Item>,
    pub(crate) talk: Option<Talk>,
    late: VecDeque<TargetCommand>,
    closing: bool,
}

impl Model for Machine {
    ghost use Rattle.machine_model.specs.State.{Machine as AMachine};

    ghost Value = { AMachine };

    ghost view = { λ m. record {
      state = m.state;
      waiting = m.waiting.items;
      hand = m.talk;
      late = m.late.items;
      closing = m.closing;
    } };
}

impl Machine {
    /// A machine that has heard nothing.
    pub(crate) fn new(alloc: Global) -> Result<Machine, NoMemory>
        ensures { IfOk result (λ machine. machine ≡ fresh) }
    {
        Ok(Machine {
            state: State::new(alloc)?,
            waiting: VecDeque::new(alloc),
            talk: None,
            late: VecDeque::new(alloc),
            closing: false,
        })
    }

    /// Gives the machine up.
    pub(crate) fn finish(self) {
        let Machine {
            state,
            waiting: _,
            talk: _,
            late: _,
            closing: _,
        } = self;
        state.finish();
    }

    /// A request waits for its turn.
    pub(crate) fn hear(&mut self, request: Request) -> Result<(), NoMemory>
        ensures { OnOk result (self.new ≡ heard self.old request) }
    {
        self.closing = is_disconnect(&request.command);
        self.waiting.push_back(Item::Request(request))?;
        Ok(())
    }

    /// The target's handshake is taken up.
    pub(crate) fn greet(&mut self)
        ensures { self.new ≡ greeting_heard self.old }
    {
        self.state.target_greeted();
    }

    /// An item of the target's waits for its turn.
    pub(crate) fn add(&mut self, item: Item) -> Result<(), NoMemory>
        ensures { OnOk result (self.new ≡ with_item self.old item) }
    {
        self.waiting.push_back(item)?;
        Ok(())
    }

    /// The target ends.
    pub(crate) fn end(&mut self, alloc: Global) -> Result<(), NoMemory>
        ensures { OnOk result (self.new ≡ ended (is_gone self.old.state.phase) self.old) }
    {
        if self.state.is_gone() {
            return Ok(());
        }
        self.end_now(alloc)
    }

    fn end_now(&mut self, alloc: Global) -> Result<(), NoMemory>
        ensures { OnOk result (self.new ≡ ended_with (pending_in self.old.hand) self.old) }
    {
        give_up(alloc, &mut self.talk, &mut self.late)?;
        self.waiting.push_back(Item::TargetEnd)?;
        self.state.target_ended(alloc);
        Ok(())
    }

    /// Whether the target is gone.
    pub(crate) fn is_gone(&self) -> bool
        ensures { result ≡ is_gone self.now.state.phase }
    {
        self.state.is_gone()
    }

    /// Whether the target's handshake was taken up (JDWP, JDWP Start Up).
    pub(crate) fn is_greeted(&self) -> bool
        ensures { result ≡ self.now.state.greeting_heard }
    {
        self.state.is_greeted()
    }

    /// The sizes of ids, once the target said them (JDWP, VirtualMachine command set, IDSizes).
    pub(crate) fn sizes(&self) -> Option<SizesRead>
        ensures { option_map sizes_seen result ≡ self.now.state.sizes }
    {
        self.state.sizes()
    }

    /// Whether a `disconnect` was heard.
    pub(crate) fn is_closing(&self) -> bool
        ensures { result ≡ self.now.closing }
    {
        self.closing
    }

    /// Reads the composites that were kept, once the sizes of ids are known; the first whose body has a fault ends the
    /// session (JDWP, Event command set, Composite).
    pub(crate) fn read_kept(&mut self, alloc: Global) -> Result<(), Ending>
        ensures ok { OnOk result (AreRead self.old self.new) }
        ensures none { OnOk result (can_read self.new ≡ false) }
        ensures err { IfErr result (RefusesKept self.old self.new) }
    {
        if self.state.is_gone() {
            return Ok(());
        }
        match self.state.sizes() {
            None => Ok(()),
            Some(sizes) => read_kept(alloc, known(sizes)?, &mut self.waiting),
        }
    }

    /// What is due, where no composite is to be read; after it the machine stands where that leads.
    pub(crate) fn step(&mut self, alloc: Global, full: bool) -> Result<Next, NoMemory>
        requires read { can_read self.old ≡ false }
        requires sized { (hand : Hand) → self.old.hand ≡ Some hand → AreSized self.old.state hand }
        ensures { (id_pending : Bool) → is_full id_pending self.old ≡ full
            → IfOk result (λ next. due_as (act_of next) self.new ≡ due id_pending self.old) }
    {
        if self.talk.is_none() {
            return self.begin(alloc);
        }
        go_on(alloc, &mut self.talk, &mut self.state, full)
    }

    // An item is begun, where one waits that can be.
    fn begin(&mut self, alloc: Global) -> Result<Next, NoMemory>
        requires none { self.old.hand ≡ None }
        requires read { can_read self.old ≡ false }
        ensures { (id_pending : Bool)
            → IfOk result (λ next. due_as (act_of next) self.new ≡ due id_pending self.old) }
    {
        match take_next(self.state.is_gone(), &mut self.waiting) {
            None => Ok(Next::Wait),
            Some(item) => {
                let talk = Talk::start(alloc, item, &mut self.state)?;
                hold(&mut self.talk, talk);
                Ok(Next::Go)
            }
        }
    }

    /// A question of the item in hand is replied to, while there is a target.
    pub(crate) fn answer(
        &mut self,
        alloc: Global,
        question: Question,
        replied: Replied,
    ) -> Result<(), NoMemory>
        requires { is_gone self.old.state.phase ≡ false }
        ensures { (hand : Hand) → self.old.hand ≡ Some hand
            → OnOk result (self.new ≡ answered self.old (a_question question) replied) }
    {
        if is_dead(&replied) {
            note_reply(alloc, &mut self.talk, question, replied)?;
            return self.end_now(alloc);
        }
        answered(alloc, &mut self.talk, &mut self.state, question, replied)
    }

    /// The effect of the item in hand is replied to, while there is a target.
    pub(crate) fn done(&mut self, alloc: Global, replied: Replied) -> Result<(), NoMemory>
        requires near { is_gone self.old.state.phase ≡ false }
        requires next { (hand : Hand) (effect : AnEffect) → IsFlight self.old hand effect
            → IsNext effect self.old.state.wishes }
        ensures { (hand : Hand) (effect : AnEffect) → IsFlight self.old hand effect
            → OnOk result (self.new ≡ answered self.old (an_effect effect) replied) }
    {
        if !is_leaving(&self.talk) && is_dead(&replied) {
            note_done(&mut self.talk, replied);
            return self.end_now(alloc);
        }
        done(&mut self.talk, &mut self.state, replied);
        Ok(())
    }

    /// The command at this place of those that are pending is replied to.
    pub(crate) fn reply(
        &mut self,
        alloc: Global,
        place: usize,
        asked: Asked,
        replied: Replied,
    ) -> Result<(), NoMemory>
        requires { CanReply self.old place }
        ensures { OnOk result (Replies self.old place asked replied self.new) }
    {
        if self.state.is_gone() {
            self.forget(place);
            return Ok(());
        }
        match asked {
            Asked::Question(question) => self.answer(alloc, question, replied),
            Asked::Effect(_) => self.done(alloc, replied),
        }
    }

    /// A command is replied to that an item left which was given up.
    pub(crate) fn forget(&mut self, place: usize)
        requires { place < length self.old.late }
        ensures { self.new ≡ record self.old { late = remove self.old.late place } }
    {
        let _ = self.late.remove(place);
    }

    /// Whether the handshake went out, and the target's hasn't come yet (JDWP, JDWP Start Up).
    pub(crate) fn awaits_greeting(&self) -> bool
        ensures { result ≡ awaits_greeting self.now.state }
    {
        self.state.awaits_greeting()
    }
}
