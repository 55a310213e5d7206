//! The talk about the item in hand.
ghost use Rattle.std.specs.Prelude.{◌≡◌, ◌++◌, IfOk, OnOk};
ghost use Rattle.machine_model.specs.Due.{asked_by, asked_first, lacked_by, way};
ghost use Rattle.machine_model.specs.Plans.{lacking};
ghost use Rattle.machine_model.specs.Rows.{parts_of, taken};
ghost use Rattle.machine_model.specs.State.{Machine, State as AState, in_hand};
ghost use Rattle.talk_plans.specs.Talking.{AreSized, StaysSized, asks, does, goes_on, holding, step_of, talk_due};
ghost use Rattle.talk_look_ups.specs.Planning.{need_of};
ghost use Rattle.machine_model.specs.declared.parts.Part.TheVariants as parts;
ghost use Rattle.machine_model.specs.declared.parts.Guard.TheVariants.{Handshake as handshake, IdSizes as id_sizes};
ghost use Rattle.talk_plans.specs.declared.next.Next.{Next as ANext};

use crate::next::Next;
use crate::plans::found_for;
use dap_messages::Told;
use jdwp_commands::Question;
use machine_model::{Choice, Deed, Doing, Effect, Guard, Item, Lookup, Outcome, Part, Want};
use session_facts::{effect_copy, effect_due};
use std::alloc::Global;
use std::collections::VecDeque;
use std::marker::Model;
use talk_bodies::{chosen, event_told, outcome_told, response_to};
use talk_look_ups::{Asking, Need};
use talk_rows::{found_parts, parts_of, refused_parts};
use talk_state::State;
use wire_core::NoMemory;

/// The talk about the item in hand: what is left of it to do, what is to be asked for it and what was, and the last
/// effect that was sent for it.
#[derive(Drop)]
pub struct Talk {
    pub(crate) item: Item,
    pub(crate) parts: VecDeque<Part>,
    pub(crate) asking: Asking,
    pub(crate) effect: Option<Doing>,
}

impl Model for Talk {
    ghost use Rattle.machine_model.specs.State.{Hand};

    ghost Value = { Hand };

    ghost view = { λ t. record {
      item = t.item;
      parts = t.parts.items;
      queue = t.asking.queue;
      asked = t.asking.asked;
      effect = t.effect;
    } };
}

fn put_first(mut parts: VecDeque<Part>, others: &mut VecDeque<Part>) -> Result<(), NoMemory>
    ensures { OnOk result (others.new.items ≡ parts.items ++ others.old.items) }
{
    while let Some(part) = parts.pop_back() {
        others.push_front(part)?;
    }
    Ok(())
}

// What is lacking of a look-up.
fn lacking(alloc: Global, need: Need) -> Result<VecDeque<Want>, NoMemory>
    ensures { IfOk result (λ wants. wants.items ≡ lacking (need_of need)) }
{
    match need {
        Need::Has(_finding) => Ok(VecDeque::new(alloc)),
        Need::Fails {
            place: _place,
            code: _code,
        } => Ok(VecDeque::new(alloc)),
        Need::Lacks { first, mut others } => {
            others.push_front(first)?;
            Ok(others)
        }
    }
}

impl Talk {
    /// An item is begun. The classes that a composite tells of are learnt; `NoMemory` comes where memory is refused
    /// (JDWP, Event command set, Composite, ClassPrepare).
    pub fn start(alloc: Global, item: Item, state: &mut State) -> Result<Talk, NoMemory>
        ensures begun { IfOk result (λ talk. talk ≡ in_hand item (parts_of state.old item)) }
        ensures taken { OnOk result (state.new ≡ taken item state.old) }
        ensures sized { IfOk result (λ talk. AreSized state.new talk) }
    {
        let parts = parts_of(alloc, state, &item)?;
        state.take(alloc, &item)?;
        Ok(Talk {
            item,
            parts,
            asking: Asking::new(alloc),
            effect: None,
        })
    }

    /// What the talk has next; where the window is full nothing is asked. Sizes of ids that were asked for and replied
    /// to are known, unless the target is gone. `NoMemory` comes where memory is refused.
    #[tactic(auto, unfolding(machine_model::specs::Due::wanted, machine_model::specs::Due::newly_lacked), using(crate::proofs::TalkLaws::talk_due, crate::proofs::TalkLaws::stays_sized))]
    pub fn step(&mut self, alloc: Global, state: &mut State, full: bool) -> Result<Next, NoMemory>
        requires { AreSized state.old self.old }
        ensures due { IfOk result (λ next. (m : Machine)
            → step_of m next state.new self.new ≡ talk_due full m state.old self.old) }
        ensures sized { OnOk result (AreSized state.new self.new) }
    {
        if state.is_gone() {
            return self.go_on(alloc, state);
        }
        if self.is_flying() {
            return Ok(Next::Wait);
        }
        if self.asking.has_queued() {
            return self.ask(alloc, full);
        }
        let wants = self.lacked(alloc, state)?;
        self.asking.queue(alloc, wants)?;
        if self.asking.has_queued() {
            return Ok(Next::Go);
        }
        if self.asking.asked().has_waiting() {
            return Ok(Next::Wait);
        }
        self.go_on(alloc, state)
    }
}

impl Talk {
    // What the part in front lacks.
    fn lacked(&self, alloc: Global, state: &mut State) -> Result<VecDeque<Want>, NoMemory>
        ensures wants { IfOk result (λ wants. wants.items ≡ lacked_by state.old self.now self.now.parts) }
        ensures same { OnOk result (state.new ≡ state.old) }
    {
        match self.parts.front() {
            Some(Part::Looks(lookup)) => {
                look_ahead(alloc, lookup, state)?;
                lacking(alloc, found_for(alloc, lookup, state, self.asking.asked())?)
            }
            Some(Part::Awaits(guard)) => awaited(alloc, *guard, state),
            _ => Ok(VecDeque::new(alloc)),
        }
    }

    // The first of what is to be asked is asked, where there is room.
    fn ask(&mut self, alloc: Global, full: bool) -> Result<Next, NoMemory>
        ensures due { IfOk result (λ next. (m : Machine) (state : AState)
            → step_of m next state self.new ≡ asked_first full (holding m state self.old) self.old.queue) }
        ensures sized { (state : AState) → AreSized state self.old → OnOk result (AreSized state self.new) }
    {
        if full {
            return Ok(Next::Wait);
        }
        let asked = self.asking.ask(alloc)?;
        Ok(asks(asked))
    }

    // The next part of the item, which nothing hinders.
    fn go_on(&mut self, alloc: Global, state: &mut State) -> Result<Next, NoMemory>
        ensures due { IfOk result (λ next. (m : Machine)
            → step_of m next state.new self.new ≡ goes_on m state.old self.old) }
        ensures same { OnOk result (StaysSized state.old self.old state.new self.new) }
    {
        match self.parts.pop_front() {
            None => Ok(Next::Done),
            Some(part) => self.do_part(alloc, state, part),
        }
    }

    // A part is done, which was taken out.
    fn do_part(&mut self, alloc: Global, state: &mut State, part: Part) -> Result<Next, NoMemory>
        ensures due { IfOk result (λ next. (m : Machine)
            → step_of m next state.new self.new ≡ does m state.old self.old part) }
        ensures same { OnOk result (StaysSized state.old self.old state.new self.new) }
    {
        match part {
            Part::Responds(outcome) => self.responds(alloc, state, outcome),
            Part::Tells(event) => {
                state.tell(alloc, &event)?;
                Ok(Next::Tell(Told::Event(event_told(alloc, event, state)?)))
            }
            Part::Sends(deed) => self.sends(alloc, state, deed),
            Part::Looks(lookup) => self.looks(alloc, state, lookup),
            Part::Awaits(Guard::Handshake) => self.awaits_handshake(state),
            Part::Awaits(Guard::IdSizes) => self.awaits_sizes(state),
            Part::Updates => self.updates(alloc, state),
            Part::Notes(note) => {
                state.note(alloc, note)?;
                Ok(Next::Go)
            }
            Part::Unfolds(choice) => {
                look_for_news(alloc, &choice, state)?;
                let parts = chosen(alloc, choice, state, &self.item, &self.effect)?;
                put_first(parts, &mut self.parts)?;
                Ok(Next::Go)
            }
            Part::Ends(finish) => {
                self.parts.push_front(Part::Ends(finish))?;
                Ok(Next::Over(finish))
            }
        }
    }

    fn responds(
        &mut self,
        alloc: Global,
        state: &mut State,
        outcome: Outcome,
    ) -> Result<Next, NoMemory>
        ensures due { IfOk result (λ next. (m : Machine)
            → step_of m next state.new self.new ≡ does m state.old self.old (parts.Responds outcome)) }
        ensures same { OnOk result (StaysSized state.old self.old state.new self.new) }
    {
        match &self.item {
            Item::Request(request) => {
                let told = outcome_told(alloc, outcome, state)?;
                Ok(Next::Tell(response_to(alloc, request, told)?))
            }
            Item::Composite { .. } => Ok(passed(outcome)),
            Item::Raw { .. } => Ok(passed(outcome)),
            Item::TargetEnd => Ok(passed(outcome)),
        }
    }

    // Nothing is sent to a target that is gone.
    fn sends(&mut self, alloc: Global, state: &mut State, deed: Deed) -> Result<Next, NoMemory>
        ensures due { IfOk result (λ next. (m : Machine)
            → step_of m next state.new self.new ≡ does m state.old self.old (parts.Sends deed)) }
        ensures same { OnOk result (StaysSized state.old self.old state.new self.new) }
    {
        if state.is_gone() {
            self.parts.push_front(Part::Sends(deed))?;
            return Ok(Next::Wait);
        }
        state.sent(alloc, deed)?;
        self.effect = Some(Doing {
            effect: Effect::Does(deed),
            reply: None,
        });
        Ok(Next::Send(Effect::Does(deed)))
    }

    fn looks(&mut self, alloc: Global, state: &State, lookup: Lookup) -> Result<Next, NoMemory>
        ensures due { IfOk result (λ next. (m : Machine)
            → step_of m next state.now self.new ≡ does m state.now self.old (parts.Looks lookup)) }
        ensures same { OnOk result (StaysSized state.now self.old state.now self.new) }
    {
        match found_for(alloc, &lookup, state, self.asking.asked())? {
            Need::Has(finding) => {
                let parts = found_parts(alloc, &lookup, finding, state)?;
                put_first(parts, &mut self.parts)?;
                Ok(Next::Go)
            }
            Need::Fails { place: _, code } => {
                let parts = refused_parts(alloc, &lookup, code, state)?;
                put_first(parts, &mut self.parts)?;
                Ok(Next::Go)
            }
            Need::Lacks {
                first: _,
                others: _,
            } => {
                self.parts.push_front(Part::Looks(lookup))?;
                Ok(Next::Wait)
            }
        }
    }

    // The handshake goes out first, and then that of the target is waited for (JDWP, JDWP Start Up).
    fn awaits_handshake(&mut self, state: &mut State) -> Result<Next, NoMemory>
        ensures due { IfOk result (λ next. (m : Machine)
            → step_of m next state.new self.new ≡ does m state.old self.old (parts.Awaits handshake)) }
        ensures same { OnOk result (StaysSized state.old self.old state.new self.new) }
    {
        if state.greeting_sent && state.greeting_heard {
            return Ok(Next::Go);
        }
        self.parts.push_front(Part::Awaits(Guard::Handshake))?;
        if state.greeting_sent || state.is_gone() {
            return Ok(Next::Wait);
        }
        state.greeting_sent = true;
        Ok(Next::Greet)
    }

    fn awaits_sizes(&mut self, state: &State) -> Result<Next, NoMemory>
        ensures due { IfOk result (λ next. (m : Machine)
            → step_of m next state.now self.new ≡ does m state.now self.old (parts.Awaits id_sizes)) }
        ensures same { OnOk result (StaysSized state.now self.old state.now self.new) }
    {
        match state.sizes {
            Some(_) => Ok(Next::Go),
            None => {
                self.parts.push_front(Part::Awaits(Guard::IdSizes))?;
                Ok(Next::Wait)
            }
        }
    }

    // The change of event requests that is due goes, until none is.
    fn updates(&mut self, alloc: Global, state: &State) -> Result<Next, NoMemory>
        ensures due { IfOk result (λ next. (m : Machine)
            → step_of m next state.now self.new ≡ does m state.now self.old parts.Updates) }
        ensures same { OnOk result (StaysSized state.now self.old state.now self.new) }
    {
        match effect_due(alloc, &state.wishes)? {
            None => Ok(Next::Go),
            Some(effect) => {
                self.parts.push_front(Part::Updates)?;
                if state.is_gone() {
                    return Ok(Next::Wait);
                }
                self.effect = Some(Doing {
                    effect: effect_copy(alloc, &effect)?,
                    reply: None,
                });
                Ok(Next::Send(effect))
            }
        }
    }
}

// An outcome is passed over that nobody waits for.
fn passed(_outcome: Outcome) -> Next
    ensures { result ≡ ANext.Go }
{
    Next::Go
}

// Before classes are gone through, it is found out which may lack something.
fn look_ahead(alloc: Global, lookup: &Lookup, state: &mut State) -> Result<(), NoMemory>
    ensures { OnOk result (state.new ≡ state.old) }
{
    match lookup {
        Lookup::Threads => Ok(()),
        Lookup::Frames { .. } => Ok(()),
        Lookup::Variables { .. } => Ok(()),
        Lookup::Value { .. } => Ok(()),
        Lookup::Write { .. } => Ok(()),
        Lookup::ExceptionText { .. } => Ok(()),
        Lookup::Exception(_) => Ok(()),
        Lookup::Hits(_) => Ok(()),
        Lookup::Classes => state.open_classes(alloc),
    }
}

// Before the client is told of breakpoints, it is found out whether there is news of them.
fn look_for_news(alloc: Global, choice: &Choice, state: &mut State) -> Result<(), NoMemory>
    ensures { OnOk result (state.new ≡ state.old) }
{
    match choice {
        Choice::TellsNews(_) => state.find_news(alloc),
        Choice::Judges => Ok(()),
        Choice::Decides { .. } => Ok(()),
        Choice::Stepped => Ok(()),
        Choice::Written(_) => Ok(()),
        Choice::Leaves(_) => Ok(()),
    }
}

// A question is asked, where there is one.
fn asks(question: Option<Question>) -> Next
    ensures { result ≡ asks question }
{
    match question {
        None => Next::Wait,
        Some(question) => Next::Ask(question),
    }
}

// What is asked for a guard: the sizes of ids, until they are known.
fn awaited(alloc: Global, guard: Guard, state: &State) -> Result<VecDeque<Want>, NoMemory>
    ensures { IfOk result (λ wants. wants.items ≡ asked_by (way guard state.now)) }
{
    match guard {
        Guard::Handshake => Ok(VecDeque::new(alloc)),
        Guard::IdSizes => match state.sizes {
            Some(_) => Ok(VecDeque::new(alloc)),
            None => Ok(VecDeque::from_array(alloc, [Want::Must(Question::IdSizes)])?),
        },
    }
}
