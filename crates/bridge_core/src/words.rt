//! What is said after an ending.
ghost use Rattle.std.specs.Prelude.{◌≡◌, ◌++◌, ◌∷◌, [], map, IfOk, MatchOption, OnOk};
ghost use Rattle.std.specs.List.{flat_map};
ghost use Rattle.machine_model.specs.Rest.{request_in, unanswered_hand};
ghost use Rattle.bridge_core.specs.Wording.{leaves_target, tells_client, word_seen};
ghost use Rattle.session_model.specs.LastWords.{client_words, end_word, fails_gone, last_words, target_words};

use crate::machine::Machine;
use dap_messages::{Event, Failure, Outcome, Request, Told};
use machine_model::Item;
use session_endings::Ending;
use std::alloc::Global;
use std::collections::VecDeque;
use std::marker::Model;
use talk_bodies::response_to;
use talk_plans::Talk;
use talk_state::State;
use wire_core::NoMemory;

/// What is said after an ending: something is told to the client, or the target is left to run on (JDWP, VirtualMachine
/// command set, Dispose).
#[derive(Drop)]
pub(crate) enum Word {
    Tells(Told),
    Disposes,
}

/// The last words that are left to say, in order. Contracts see them as the definitions have them.
#[derive(Drop)]
pub(crate) struct Words {
    left: VecDeque<Word>,
}

impl Model for Words {
    ghost use Rattle.std.specs.Prelude.{List, map};
    ghost use Rattle.bridge_core.specs.Wording.{word_seen};
    ghost use Rattle.session_model.specs.LastWords.{LastWord};

    ghost Value = { List LastWord };

    ghost view = { λ w. map word_seen w.left.items };
}

impl Words {
    /// The last words of an ending.
    pub(crate) fn of(alloc: Global, machine: &Machine, ending: &Ending) -> Result<Words, NoMemory>
        ensures { IfOk result (λ words. words ≡ last_words ending.now machine.now) }
    {
        let mut words = Words {
            left: VecDeque::new(alloc),
        };
        if tells_client(ending) {
            tell_client(alloc, machine, &mut words)?;
        }
        if leaves_target(ending) {
            leave_target(&machine.state, &mut words)?;
        }
        Ok(words)
    }

    /// The next word, which is left no more.
    pub(crate) fn next(&mut self) -> Option<Word>
        ensures { MatchOption result ((self.old ≡ []) × (self.new ≡ []))
            (λ word. self.old ≡ word_seen word ∷ self.new) }
    {
        self.left.pop_front()
    }

    // One more word is said.
    fn add(&mut self, word: Word) -> Result<(), NoMemory>
        ensures { OnOk result (self.new ≡ self.old ++ word_seen word ∷ []) }
    {
        self.left.push_back(word)?;
        Ok(())
    }
}

// Whether the client is told of an ending.
fn tells_client(ending: &Ending) -> bool
    ensures { result ≡ tells_client ending.now }
{
    match ending {
        Ending::BadTarget { .. } => true,
        Ending::TargetLink => true,
        Ending::TargetRefused { .. } => true,
        Ending::Idle => true,
        _ => false,
    }
}

// Whether a target that is attached is left to run on.
fn leaves_target(ending: &Ending) -> bool
    ensures { result ≡ leaves_target ending.now }
{
    match ending {
        Ending::Left => true,
        Ending::BadClient { .. } => true,
        Ending::ClientLink => true,
        Ending::TargetRefused { .. } => true,
        Ending::Idle => true,
        Ending::Spent => true,
        Ending::Flood => true,
        _ => false,
    }
}

// The request fails, since its target is gone.
fn fail(alloc: Global, request: &Request, words: &mut Words) -> Result<(), NoMemory>
    ensures { OnOk result (words.new ≡ words.old ++ fails_gone request.now ∷ []) }
{
    let told = response_to(alloc, request, Outcome::Failure(Failure::target_gone()))?;
    words.add(Word::Tells(told))
}

// A request that waits fails; no other item concerns the client.
fn fail_item(alloc: Global, item: &Item, words: &mut Words) -> Result<(), NoMemory>
    ensures { OnOk result (words.new ≡ words.old ++ map fails_gone (request_in item.now)) }
{
    match item {
        Item::Request(request) => fail(alloc, request, words),
        Item::Composite { .. } => Ok(()),
        Item::Raw { .. } => Ok(()),
        Item::TargetEnd => Ok(()),
    }
}

// The requests that wait fail.
fn fail_waiting(alloc: Global, waiting: &VecDeque<Item>, words: &mut Words) -> Result<(), NoMemory>
    ensures { OnOk result (words.new ≡ words.old ++ map fails_gone (flat_map request_in waiting.now.items)) }
{
    for place in 0..waiting.len() {
        fail_item(alloc, &waiting[place], words)?;
    }
    Ok(())
}

// The request in hand fails, unless its response was told.
fn fail_in_hand(alloc: Global, hand: &Option<Talk>, words: &mut Words) -> Result<(), NoMemory>
    ensures { OnOk result (words.new ≡ words.old ++ map fails_gone (unanswered_hand hand.now)) }
{
    match hand {
        None => Ok(()),
        Some(talk) => match talk.waiting_request() {
            None => Ok(()),
            Some(request) => fail(alloc, request, words),
        },
    }
}

// The client is told that nothing more comes of the target, unless it was (DAP specification, Events, Terminated).
fn tell_end(terminated: bool, words: &mut Words) -> Result<(), NoMemory>
    ensures { OnOk result (words.new ≡ words.old ++ end_word terminated) }
{
    if terminated {
        return Ok(());
    }
    words.add(Word::Tells(Told::Event(Event::Terminated)))
}

// The client is told that its requests fail, and that nothing more comes of the target.
fn tell_client(alloc: Global, machine: &Machine, words: &mut Words) -> Result<(), NoMemory>
    ensures { OnOk result (words.new ≡ words.old ++ client_words machine.now) }
{
    fail_in_hand(alloc, &machine.talk, words)?;
    fail_waiting(alloc, &machine.waiting, words)?;
    tell_end(machine.state.is_terminated(), words)
}

// A target that is attached is left to run on.
fn leave_target(state: &State, words: &mut Words) -> Result<(), NoMemory>
    ensures { OnOk result (words.new ≡ words.old ++ target_words state.now.phase) }
{
    if state.is_attached() {
        return words.add(Word::Disposes);
    }
    Ok(())
}
