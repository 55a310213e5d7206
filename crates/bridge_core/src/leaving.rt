//! The last words of a session.
ghost use Rattle.std.specs.Prelude.{◌≡◌, ◌∷◌, [], List, Some, IfNone, IfOk, IfSome, MatchOption, OnErr, OnOk};
ghost use Rattle.machine_model.specs.State.{Machine as AMachine};
ghost use Rattle.bridge_core.specs.Calls.{SaysNoMore, SaysWord, words_of};
ghost use Rattle.bridge_core.specs.Going.{HasNext, IsSaid};
ghost use Rattle.bridge_core.specs.Wording.{word_seen};
ghost use Rattle.session_model.specs.LastWords.{LastWord};
ghost use Rattle.session_endings.specs.declared.ending.Ending.{Ending as AnEnding};

use crate::machine::Machine;
use crate::sending::disposing;
use crate::session::{Core, Out};
use crate::words::{Word, Words};
use session_endings::Ending;
use std::alloc::Global;
use wire_core::NoMemory;

fn drop_words(_words: Option<Words>) {}

// The last words are formed where the first is asked for.
fn fill(
    alloc: Global,
    words: &mut Option<Words>,
    machine: &Machine,
    ending: &Ending,
) -> Result<(), NoMemory>
    ensures { OnOk result (words.new ≡ Some (words_of words.old ending.now machine.now)) }
{
    if words.is_none() {
        let all = Words::of(alloc, machine, ending)?;
        drop_words(words.replace(all));
    }
    Ok(())
}

// The next of the last words that were formed, which is left no more.
fn next_of(words: &mut Option<Words>) -> Option<Word>
    ensures { (left : List LastWord) (ending : AnEnding) (m : AMachine) → words.old ≡ Some left
        → MatchOption result ((left ≡ []) × (words_of words.new ending m ≡ []))
        (λ word. left ≡ word_seen word ∷ words_of words.new ending m) }
{
    match words {
        None => None,
        Some(left) => left.next(),
    }
}

impl Core {
    /// The next of an ending's last words, or nothing where all were handed out. Where memory is refused nothing was
    /// numbered.
    pub fn last_words(&mut self, alloc: Global, ending: &Ending) -> Result<Option<Out>, NoMemory>
        ensures none { IfOk result (λ out. IfNone out (SaysNoMore ending.now self.old self.new)) }
        ensures says { IfOk result (λ out. IfSome out (λ o. SaysWord ending.now self.old o.side o.bytes self.new)) }
        ensures err { OnErr result (self.new ≡ record self.old { words = self.new.words }) }
    {
        match self.next_word(alloc, ending)? {
            None => Ok(None),
            Some(word) => Ok(Some(self.say(alloc, &word)?)),
        }
    }

    // The next of the last words.
    fn next_word(&mut self, alloc: Global, ending: &Ending) -> Result<Option<Word>, NoMemory>
        ensures none { IfOk result (λ word. IfNone word (SaysNoMore ending.now self.old self.new)) }
        ensures some { IfOk result (λ word. IfSome word (λ w. HasNext ending.now self.old (word_seen w) self.new)) }
        ensures err { OnErr result (self.new ≡ record self.old { words = self.new.words }) }
    {
        fill(alloc, &mut self.words, &self.machine, ending)?;
        Ok(next_of(&mut self.words))
    }

    /// Says one of the last words.
    pub(crate) fn say(&mut self, alloc: Global, word: &Word) -> Result<Out, NoMemory>
        ensures ok { IfOk result (λ out. IsSaid self.old (word_seen word.now) out.side out.bytes self.new) }
        ensures err { OnErr result (self.new ≡ self.old) }
    {
        match word {
            Word::Tells(told) => self.tell(alloc, told),
            Word::Disposes => disposing(alloc, self.commands.next_id()),
        }
    }
}
