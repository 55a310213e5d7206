ghost use Rattle.std.specs.Prelude.{◌≡◌, ◌<◌, ◌≤◌, ◌^◌, IfOk};
ghost use Rattle.serde_json.specs.View.{view, items_view};
ghost use Rattle.line_elements.specs.Parts.{first_of, part_at, natural, int, long, index, text, text_or_null, word};
ghost use Rattle.line_elements.specs.Parts.{truth};
ghost use Rattle.line_elements.specs.Parts.{class_tag, object_tag, policy, side, value, values, slots, lines};
ghost use Rattle.line_elements.specs.Parts.{arguments};
ghost use Rattle.line_elements.specs.Parts.{version, is_end, Tells};

use crate::arguments::Arguments;
use crate::version::Version;
use crate::{lists, numbers, values, words};
use jdwp_events::Policy;
use jdwp_values::{Line, Tag, TypeTag, Value};
use serde_json::Value as Json;
use slot_values::SlotValue;
use std::alloc::Global;
use std::marker::Model;
use wire_core::{Blob, List, NoMemory, Side, Text};

/// Why a line was not read.
#[derive(Clone, Copy, Debug, Drop, PartialEq, Eq)]
pub enum LineFault {
    NoMemory,
    BadShape,
}

impl From<NoMemory> for LineFault {
    ghost use Rattle.std.specs.Prelude.{◌≡◌};
    ghost use Rattle.line_elements.specs.declared.elements.LineFault.TheVariants.{NoMemory as refused_memory};

    ghost from_gives = { λ _ fault. fault ≡ refused_memory };

    fn from(_refused: NoMemory) -> LineFault {
        LineFault::NoMemory
    }
}

/// The elements of a line's array that were not read yet.
#[derive(Drop)]
pub struct Elements<'a> {
    rest: &'a [Json],
}

impl<'a> Model for Elements<'a> {
    ghost use Rattle.serde_json.specs.Data.{Items};
    ghost use Rattle.serde_json.specs.View.{items_view};
    ghost use Rattle.line_elements.specs.Codes.{coded_items};

    ghost Value = { Items };

    ghost coded = { coded_items };

    ghost view = { λ e. items_view e.rest.now };
}

impl<'a> Elements<'a> {
    ghost use Rattle.std.specs.Prelude.{◌≡◌, Some, None, MatchOption};
    ghost use Rattle.serde_json.specs.View.{view};
    ghost use Rattle.line_elements.specs.Parts.{first_of};

    // The next element.
    fn next(&mut self) -> Option<&'a Json>
        ensures { MatchOption result (first_of self.old ≡ None)
            (λ value. first_of self.old ≡ Some (view value.now, self.new)) }
    {
        let [value, rest @ ..] = self.rest else {
            return None;
        };
        self.rest = rest;
        Some(value)
    }
}

impl<'a> Elements<'a> {
    pub fn new(elements: &'a [Json]) -> Elements<'a>
        ensures { result ≡ items_view elements.now }
    {
        Elements { rest: elements }
    }

    /// A number without a sign, at least so much and below the bound.
    #[tactic(auto, using(crate::proofs::PartLaws::part_at_none))]
    pub fn natural(&mut self, least: u64, bound: u64) -> Result<u64, LineFault>
        ensures value { Tells (λ x. x) (part_at (natural least bound) self.old) self.new result }
        ensures below { IfOk result (λ n. n < bound) }
    {
        let Some(value) = self.next() else {
            return Err(LineFault::BadShape);
        };
        numbers::natural(value, least, bound).ok_or(LineFault::BadShape)
    }

    /// Such a number of 32 bits.
    pub fn small(&mut self, least: u64, bound: u64) -> Result<u32, LineFault>
        requires { bound ≤ 2 ^ 32 }
        ensures { Tells (λ x. x) (part_at (natural least bound) self.old) self.new result }
    {
        Ok(self.natural(least, bound)? as u32)
    }

    /// An id.
    pub fn id(&mut self) -> Result<u64, LineFault>
        ensures { Tells (λ x. x) (part_at (natural 1 (2 ^ 63)) self.old) self.new result }
    {
        self.natural(1, 1 << 63)
    }

    /// An id, or a number that is 0 where there is none.
    pub fn id_or_none(&mut self) -> Result<u64, LineFault>
        ensures { Tells (λ x. x) (part_at (natural 0 (2 ^ 63)) self.old) self.new result }
    {
        self.natural(0, 1 << 63)
    }

    /// A number of 32 bits.
    #[tactic(auto, using(crate::proofs::PartLaws::part_at_none))]
    pub fn int(&mut self) -> Result<i32, LineFault>
        ensures { Tells (λ x. x) (part_at int self.old) self.new result }
    {
        let Some(value) = self.next() else {
            return Err(LineFault::BadShape);
        };
        numbers::int(value).ok_or(LineFault::BadShape)
    }

    /// A number of 64 bits.
    #[tactic(auto, using(crate::proofs::PartLaws::part_at_none))]
    pub fn long(&mut self) -> Result<i64, LineFault>
        ensures { Tells (λ x. x) (part_at long self.old) self.new result }
    {
        let Some(value) = self.next() else {
            return Err(LineFault::BadShape);
        };
        numbers::long(value).ok_or(LineFault::BadShape)
    }

    /// Where a frame stands in its method's code; -1 is kept as 2^64 - 1.
    #[tactic(auto, using(crate::proofs::PartLaws::part_at_none))]
    pub fn index(&mut self) -> Result<u64, LineFault>
        ensures { Tells (λ x. x) (part_at index self.old) self.new result }
    {
        let Some(value) = self.next() else {
            return Err(LineFault::BadShape);
        };
        numbers::index(value).ok_or(LineFault::BadShape)
    }

    /// A truth value.
    #[tactic(auto, using(crate::proofs::PartLaws::part_at_none))]
    pub fn truth(&mut self) -> Result<bool, LineFault>
        ensures { Tells (λ x. x) (part_at truth self.old) self.new result }
    {
        let Some(value) = self.next() else {
            return Err(LineFault::BadShape);
        };
        value.as_bool().ok_or(LineFault::BadShape)
    }

    /// What a class is.
    #[tactic(auto, using(crate::proofs::PartLaws::part_at_none))]
    pub fn class_tag(&mut self) -> Result<TypeTag, LineFault>
        ensures { Tells (λ x. x) (part_at class_tag self.old) self.new result }
    {
        let Some(value) = self.next() else {
            return Err(LineFault::BadShape);
        };
        values::class_tag(value).ok_or(LineFault::BadShape)
    }

    /// What an object is that is no array and no string.
    #[tactic(auto, using(crate::proofs::PartLaws::part_at_none))]
    pub fn object_tag(&mut self) -> Result<Tag, LineFault>
        ensures { Tells (λ x. x) (part_at object_tag self.old) self.new result }
    {
        let Some(value) = self.next() else {
            return Err(LineFault::BadShape);
        };
        values::object_tag(value).ok_or(LineFault::BadShape)
    }

    /// Whether no thread or all threads are suspended.
    #[tactic(auto, using(crate::proofs::PartLaws::part_at_none))]
    pub fn policy(&mut self) -> Result<Policy, LineFault>
        ensures { Tells (λ x. x) (part_at policy self.old) self.new result }
    {
        let Some(value) = self.next() else {
            return Err(LineFault::BadShape);
        };
        values::policy(value).ok_or(LineFault::BadShape)
    }

    /// A side.
    #[tactic(auto, using(crate::proofs::PartLaws::part_at_none))]
    pub fn side(&mut self) -> Result<Side, LineFault>
        ensures { Tells (λ x. x) (part_at side self.old) self.new result }
    {
        let Some(value) = self.next() else {
            return Err(LineFault::BadShape);
        };
        values::side(value).ok_or(LineFault::BadShape)
    }

    /// A value that is spelled in this version.
    #[tactic(auto, using(crate::proofs::PartLaws::part_at_none))]
    pub fn value(&mut self, version: Version) -> Result<Value, LineFault>
        ensures { Tells (λ x. x) (part_at (value version) self.old) self.new result }
    {
        let Some(value) = self.next() else {
            return Err(LineFault::BadShape);
        };
        values::value(version, value).ok_or(LineFault::BadShape)
    }

    /// A version, where it is known.
    #[tactic(auto, using(crate::proofs::PartLaws::part_at_none))]
    pub fn version(&mut self) -> Result<Option<Version>, LineFault>
        ensures { Tells (λ x. x) (part_at version self.old) self.new result }
    {
        let Some(value) = self.next() else {
            return Err(LineFault::BadShape);
        };
        numbers::version(value).ok_or(LineFault::BadShape)
    }

    /// A text's bytes.
    #[tactic(auto, using(crate::proofs::PartLaws::part_at_none))]
    pub fn text(&mut self, alloc: Global) -> Result<Blob, LineFault>
        ensures { Tells (λ x. x) (part_at text self.old) self.new result }
    {
        let Some(value) = self.next() else {
            return Err(LineFault::BadShape);
        };
        numbers::text(alloc, value)?.ok_or(LineFault::BadShape)
    }

    /// A text's bytes, or null.
    #[tactic(auto, using(crate::proofs::PartLaws::part_at_none))]
    pub fn text_or_null(&mut self, alloc: Global) -> Result<Option<Blob>, LineFault>
        ensures { Tells (λ x. x) (part_at text_or_null self.old) self.new result }
    {
        let Some(value) = self.next() else {
            return Err(LineFault::BadShape);
        };
        numbers::text_or_null(alloc, value)?.ok_or(LineFault::BadShape)
    }

    /// A text.
    #[tactic(auto, using(crate::proofs::PartLaws::part_at_none))]
    pub fn word(&mut self, alloc: Global) -> Result<Text, LineFault>
        ensures { Tells (λ x. x) (part_at word self.old) self.new result }
    {
        let Some(value) = self.next() else {
            return Err(LineFault::BadShape);
        };
        words::word(alloc, value)?.ok_or(LineFault::BadShape)
    }

    /// Values that are spelled in this version, in a list.
    #[tactic(auto, using(crate::proofs::PartLaws::part_at_none))]
    pub fn values(&mut self, alloc: Global, version: Version) -> Result<List<Value>, LineFault>
        ensures { Tells (λ x. x) (part_at (values version) self.old) self.new result }
    {
        let Some(value) = self.next() else {
            return Err(LineFault::BadShape);
        };
        lists::list(alloc, version, value)?.ok_or(LineFault::BadShape)
    }

    /// Slots whose values are spelled in this version, in a list.
    #[tactic(auto, using(crate::proofs::PartLaws::part_at_none))]
    pub fn slots(&mut self, alloc: Global, version: Version) -> Result<List<SlotValue>, LineFault>
        ensures { Tells (λ x. x) (part_at (slots version) self.old) self.new result }
    {
        let Some(value) = self.next() else {
            return Err(LineFault::BadShape);
        };
        lists::list(alloc, version, value)?.ok_or(LineFault::BadShape)
    }

    /// A method's lines, in a list, or null.
    #[tactic(auto, using(crate::proofs::PartLaws::part_at_none))]
    pub fn lines(&mut self, alloc: Global) -> Result<Option<List<Line>>, LineFault>
        ensures { Tells (λ x. x) (part_at lines self.old) self.new result }
    {
        let Some(value) = self.next() else {
            return Err(LineFault::BadShape);
        };
        lists::lines(alloc, value)?.ok_or(LineFault::BadShape)
    }

    /// The arguments of a request.
    #[tactic(auto, using(crate::proofs::PartLaws::part_at_none))]
    pub fn arguments(&mut self) -> Result<Arguments, LineFault>
        ensures { Tells (λ x. x) (part_at arguments self.old) self.new result }
    {
        let Some(value) = self.next() else {
            return Err(LineFault::BadShape);
        };
        Arguments::of(value)?.ok_or(LineFault::BadShape)
    }

    /// Whether none is left.
    #[tactic(auto, using(crate::proofs::PartLaws::end_of_none, crate::proofs::PartLaws::end_of_some))]
    pub fn is_empty(&self) -> bool
        ensures { result ≡ is_end self.now }
    {
        match self.rest {
            [] => true,
            _ => false,
        }
    }
}
