//! The rules of breakpoints: conditions, hit conditions and messages to log, and how often each was passed.
ghost use Rattle.std.specs.Prelude.{◌≡◌, ◌<◌, ◌==◌, ◌∷◌, ◌++◌, [], Some, bytes_eq, find, flat_map, length};
ghost use Rattle.std.specs.Prelude.{option_copied, IfSome, OnOk};
ghost use Rattle.std.specs.List.{position_from};
ghost use Rattle.class_tables.specs.Tables.{put};
ghost use Rattle.machine_model.specs.RuleTables.{functions_ruled, lines_ruled, none_ruled, rule_of};

use machine_model::Ruled;
use std::alloc::Global;
use std::marker::Model;
use std::mem;
use wire_core::{List, NoMemory, Text};

// The rules of the breakpoints of sources, by the keys of the sources, in the order in which the keys came.
#[derive(Drop)]
struct KeyedRules {
    lists: Vec<(Text, List<Ruled>)>,
}

impl Model for KeyedRules {
    ghost use Rattle.std.specs.Prelude.{ℕ, List};
    ghost use Rattle.machine_model.specs.declared.parts.Ruled.{Ruled as ARuled};

    ghost Value = { List (List ℕ × List ARuled) };

    ghost view = { λ k. k.lists.items };
}

// The place of a key.
fn place_of(lists: &[(Text, List<Ruled>)], key: &Text) -> Option<usize>
    ensures place { result ≡ position_from (λ list. bytes_eq key.now list.0) 0 lists.now }
    ensures within { IfSome result (λ place. place < length lists.now) }
{
    lists
        .iter()
        .position(|list| key.as_bytes() == list.0.as_bytes())
}

// The rules of a breakpoint, of a list of them.
fn listed(rules: &[Ruled], id: u64) -> Option<&Ruled>
    ensures { option_copied result ≡ find (λ ruled. ruled.id == id) rules.now }
{
    for ruled in rules {
        if ruled.id == id {
            return Some(ruled);
        }
    }
    None
}

// The rules of a breakpoint of a source.
fn of_line(lists: &[(Text, List<Ruled>)], id: u64) -> Option<&Ruled>
    ensures { option_copied result ≡ find (λ ruled. ruled.id == id) (flat_map (λ list. list.1) lists.now) }
{
    for list in lists {
        match listed(list.1.as_slice(), id) {
            Some(ruled) => return Some(ruled),
            None => {}
        }
    }
    None
}

// A list under its key, behind those that are there.
fn add(lists: &mut Vec<(Text, List<Ruled>)>, key: Text, rules: List<Ruled>) -> Result<(), NoMemory>
    ensures { OnOk result (lists.new.items ≡ lists.old.items ++ (key, rules) ∷ []) }
{
    lists.push((key, rules))?;
    Ok(())
}

impl KeyedRules {
    // A list stands under its key, in place of the one that was there.
    fn put(&mut self, alloc: Global, key: &Text, rules: List<Ruled>) -> Result<(), NoMemory>
        ensures { OnOk result (self.new ≡ put bytes_eq key.now rules self.old) }
    {
        match place_of(self.lists.as_slice(), key) {
            Some(place) => {
                let _ = mem::replace(&mut self.lists[place].1, rules);
                Ok(())
            }
            None => {
                let key = Text::from_str(alloc, key.as_str())?;
                add(&mut self.lists, key, rules)?;
                Ok(())
            }
        }
    }

    // The rules of a breakpoint.
    fn of(&self, id: u64) -> Option<&Ruled>
        ensures { option_copied result ≡ find (λ ruled. ruled.id == id) (flat_map (λ list. list.1) self.now) }
    {
        of_line(self.lists.as_slice(), id)
    }
}

/// The rules of the breakpoints of sources, by the keys of the sources, and those of functions. A breakpoint without
/// any isn't among them.
#[derive(Drop)]
pub struct RuleTable {
    lists: KeyedRules,
    functions: List<Ruled>,
}

impl Model for RuleTable {
    ghost use Rattle.machine_model.specs.RuleTables.{Rules};

    ghost Value = { Rules };

    ghost view = { λ t. record { lists = t.lists; functions = t.functions } };
}

impl RuleTable {
    /// No breakpoint has rules; it takes no memory.
    pub fn new(alloc: Global) -> RuleTable
        ensures { result ≡ none_ruled }
    {
        RuleTable {
            lists: KeyedRules {
                lists: Vec::new(alloc),
            },
            functions: List::new(alloc),
        }
    }

    /// The rules of a breakpoint, by its id: none where it has none. The time is that of all that have some.
    #[tactic(auto, using(crate::proofs::RuleLaws::found_behind))]
    pub fn of(&self, id: u64) -> Option<&Ruled>
        ensures { option_copied result ≡ rule_of self.now id }
    {
        match self.lists.of(id) {
            Some(ruled) => Some(ruled),
            None => listed(self.functions.as_slice(), id),
        }
    }

    /// The rules of the breakpoints of a source, by its key, replace those that were there. `NoMemory` comes where
    /// memory is refused (DAP specification, SetBreakpoints request).
    pub fn put(&mut self, alloc: Global, key: &Text, rules: List<Ruled>) -> Result<(), NoMemory>
        ensures { OnOk result (self.new ≡ lines_ruled (Some key.now) rules self.old) }
    {
        self.lists.put(alloc, key, rules)
    }

    /// The rules of functions replace those that were there (DAP specification, SetFunctionBreakpoints request).
    pub fn set_functions(&mut self, rules: List<Ruled>)
        ensures { self.new ≡ functions_ruled rules self.old }
    {
        self.functions = rules;
    }
}
