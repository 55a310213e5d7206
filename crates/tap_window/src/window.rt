//! The commands that were sent and have no reply yet.
ghost use Rattle.std.specs.Prelude.{◌≡◌, ◌<◌, ◌+◌, ◌-◌, ◌%◌, ◌∷◌, ◌++◌, [], IfOk, None, OnErr, OnOk};
ghost use Rattle.std.specs.Prelude.{count_by, if◌then◌else◌};
ghost use Rattle.std.specs.BTreeMap.{is_at};
ghost use Rattle.std.specs.Map.{lookup};
ghost use Rattle.std.specs.Ordering.{nat_cmp};
ghost use Rattle.pending_table.specs.Windows.{id_of, turn};
ghost use Rattle.tap_window.specs.Pending.{former_behind, is_of, key_of};
ghost use Rattle.tap_model.specs.States.{id_taken, is_debuggers, is_question, pending_under, settled, with_sent};
ghost use Rattle.tap_model.specs.Steps.{can_ask};

use std::alloc::Global;
use std::collections::BTreeMap;
use std::marker::Model;
use tap_model::Owner;
use wire_core::NoMemory;

// So many of the tap's questions have no reply at most.
const MOST_ASKED: usize = 16;

// The numbers that the ids of a turn are kept under.
const PER_TURN: u64 = 4_294_967_296;

// The turns before this one begin below it.
const LAST_TURN: u64 = 4_611_686_018_427_387_904;

/// The commands that have no reply yet, in the order in which they were sent, and how many were sent so far, whole
/// turns of ids left out (JDWP, JDWP Packets, id). Contracts see each command as its id, and whose it is. No call looks
/// at all of them.
#[derive(Debug, Drop)]
pub struct Window {
    sent: BTreeMap<u64, Owner>,
    former: u64,
    next: u32,
    debuggers: usize,
    questions: usize,
}

impl Model for Window {
    ghost use Rattle.tap_window.specs.Pending.{IsWindow, pending_in};
    ghost use Rattle.tap_model.specs.States.{SentCommands};

    ghost Value = { SentCommands };

    ghost view = { λ w. record { pending = pending_in w.sent.entries; next = w.next } };

    ghost invariant = { λ w. IsWindow w.sent.entries w.former w.next w.debuggers w.questions };
}

// The number that the latest command of an id is kept under, where that many were sent in this turn, and the one before
// begins there.
fn key_of(former: u64, sent: u32, id: u32) -> u64
    requires { former < 9223372036854775808 }
    ensures { result ≡ key_of former sent id }
{
    if id <= sent {
        former + PER_TURN + u64::from(id)
    } else {
        former + u64::from(id)
    }
}

// Where the turn before begins, once one more command is sent.
fn former_behind(former: u64, sent: u32) -> u64
    requires small { former < 9223372036854775808 }
    requires in_turn { sent < turn }
    ensures { result ≡ former_behind former sent }
{
    if sent + 1 >= u32::MAX {
        former + PER_TURN
    } else {
        former
    }
}

// Whose the command of this number is.
fn owner_at(sent: &BTreeMap<u64, Owner>, key: u64) -> Option<Owner>
    ensures { result ≡ lookup (is_at (nat_cmp key)) sent.now.entries }
{
    match sent.get(&key) {
        Some(owner) => Some(*owner),
        None => None,
    }
}

fn is_debuggers(owner: Owner) -> bool
    ensures { result ≡ is_debuggers (0, owner) }
{
    match owner {
        Owner::Debugger { .. } => true,
        Owner::Sizes => false,
        Owner::Question(_) => false,
    }
}

fn is_question(owner: Owner) -> bool
    ensures { result ≡ is_question (0, owner) }
{
    match owner {
        Owner::Debugger { .. } => false,
        Owner::Sizes => false,
        Owner::Question(_) => true,
    }
}

fn has_debuggers(found: Option<Owner>) -> bool
    ensures { result ≡ is_of (λ owner. is_debuggers (0, owner)) found }
{
    match found {
        Some(owner) => is_debuggers(owner),
        None => false,
    }
}

fn has_question(found: Option<Owner>) -> bool
    ensures { result ≡ is_of (λ owner. is_question (0, owner)) found }
{
    match found {
        Some(owner) => is_question(owner),
        None => false,
    }
}

// How many are left, where one of them may be gone.
fn less(count: usize, gone: bool) -> usize
    ensures { result ≡ count - (if gone then 1 else 0) }
{
    if gone { count.saturating_sub(1) } else { count }
}

// How many there are, where one more may be.
fn more(count: usize, one: bool) -> Result<usize, NoMemory>
    ensures { IfOk result (λ all. all ≡ count + (if one then 1 else 0)) }
{
    match count.checked_add(usize::from(one)) {
        Some(all) => Ok(all),
        None => Err(NoMemory),
    }
}

impl Window {
    /// No command was sent; it takes no memory.
    pub fn new(alloc: Global) -> Window
        ensures { result ≡ record { pending = []; next = 0 } }
    {
        Window {
            sent: BTreeMap::new(alloc),
            former: 0,
            next: 0,
            debuggers: 0,
            questions: 0,
        }
    }

    /// The id of the next command.
    pub fn next_id(&self) -> u32
        ensures { result ≡ id_of self.now.next }
    {
        self.next + 1
    }

    /// Whose the command is that is pending under an id.
    pub fn owner(&self, id: u32) -> Option<Owner>
        ensures { result ≡ pending_under id self.now.pending }
    {
        owner_at(&self.sent, key_of(self.former, self.next, id))
    }

    /// Whether the next id is that of a command that has no reply yet.
    pub fn is_taken(&self) -> bool
        ensures { result ≡ id_taken self.now }
    {
        self.owner(self.next_id()).is_some()
    }

    /// How many of the debugger's commands have no reply.
    pub fn debuggers(&self) -> usize
        ensures { result ≡ count_by is_debuggers self.now.pending }
    {
        self.debuggers
    }

    // How many of the questions have no reply.
    fn questions(&self) -> usize
        ensures { result ≡ count_by is_question self.now.pending }
    {
        self.questions
    }

    /// Whether one more question may be sent.
    pub fn can_ask(&self) -> bool
        ensures { result ≡ can_ask self.now }
    {
        self.questions() < MOST_ASKED && !self.is_taken()
    }

    /// A command is sent under the next id; a command that is pending under the same one is forgotten. Where memory is
    /// refused that is all that comes of it.
    #[tactic(auto, using(crate::proofs::WindowLaws::none_left))]
    pub fn send(&mut self, owner: Owner) -> Result<(), NoMemory>
        ensures ok { OnOk result (self.new ≡ with_sent owner self.old) }
        ensures err { OnErr result (self.new ≡ settled (id_of self.old.next) self.old) }
    {
        self.settle(self.next_id());
        self.keep(owner)
    }

    // A command is sent under the next id, which none is pending under.
    fn keep(&mut self, owner: Owner) -> Result<(), NoMemory>
        requires { pending_under (id_of self.old.next) self.old.pending ≡ None }
        ensures ok { OnOk result (self.new ≡ record {
          pending = self.old.pending ++ (id_of self.old.next, owner) ∷ [];
          next = (self.old.next + 1) % turn;
        }) }
        ensures err { OnErr result (self.new ≡ self.old) }
    {
        if self.former >= LAST_TURN {
            return Err(NoMemory);
        }
        let debuggers = more(self.debuggers, is_debuggers(owner))?;
        let questions = more(self.questions, is_question(owner))?;
        let key = self.former + PER_TURN + u64::from(self.next + 1);
        self.sent.insert(key, owner)?;
        self.debuggers = debuggers;
        self.questions = questions;
        self.former = former_behind(self.former, self.next);
        self.next = (self.next + 1) % u32::MAX;
        Ok(())
    }

    /// The reply of this id came: the command that is pending under it is so no longer. Where none is all stays.
    pub fn settle(&mut self, id: u32)
        ensures { self.new ≡ settled id self.old }
    {
        let gone = self.sent.remove(&key_of(self.former, self.next, id));
        self.debuggers = less(self.debuggers, has_debuggers(gone));
        self.questions = less(self.questions, has_question(gone));
    }

    /// The first command alone is pending, and so many were sent.
    #[cfg(test)]
    pub(crate) fn with_first(alloc: Global, owner: Owner, sent: u32) -> Result<Window, NoMemory>
        requires begun { 0 < sent }
        requires in_turn { sent < turn }
        ensures { IfOk result (λ window. window ≡ record { pending = (1, owner) ∷ []; next = sent }) }
    {
        let mut kept = BTreeMap::new(alloc);
        kept.insert(PER_TURN + 1, owner)?;
        Ok(Window {
            sent: kept,
            former: 0,
            next: sent,
            debuggers: usize::from(is_debuggers(owner)),
            questions: usize::from(is_question(owner)),
        })
    }
}
