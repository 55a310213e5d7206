ghost use Rattle.std.specs.Prelude.{◌≡◌, ◌+◌, ◌-◌, ◌<◌, ◌≤◌, ◌^◌, length, Ok, Err};
ghost use Rattle.jdwp_values.specs.Parts.{simple, byte, int, long, index, number, object, thread, class, method, field};
ghost use Rattle.jdwp_values.specs.Parts.{frame, type_tag, count, text, location, value, reference, untagged, tail};
ghost use Rattle.jdwp_values.specs.Reading.{offset, part_at, Reads, Settles};

use crate::fault::{ReadTrouble, ValueFault};
use crate::id::{ClassId, FieldId, FrameId, MethodId, ObjectId, ThreadId};
use crate::limit::Limit;
use crate::location::Location;
use crate::parts;
use crate::sizes::IdSizes;
use crate::tag::TypeTag;
use crate::value::Value;
use std::marker::Model;

/// Reads the parts of a body from left to right (JDWP, Detailed Command Information, common data types). A part that
/// can't be read leaves the reader where that part begins. `Short` comes where too few bytes are left.
#[derive(Debug, Drop)]
pub struct Reader<'a> {
    sizes: IdSizes,
    body: &'a [u8],
    rest: &'a [u8],
}

impl<'a> Model for Reader<'a> {
    ghost use Rattle.std.specs.Prelude.{◌<◌, ◌^◌, length};
    ghost use Rattle.jdwp_values.specs.Reading.{Place};

    ghost Value = { Place };

    ghost view = { λ r. record { sizes = r.sizes; body = r.body.now; rest = r.rest.now } };

    ghost invariant = { λ r. length r.body.now < 2 ^ 32 };
}

impl<'a> Reader<'a> {
    /// A reader at the start of a body of fewer than 2^32 bytes.
    pub fn new(body: &'a [u8], sizes: IdSizes) -> Reader<'a>
        requires { length body.now < 2 ^ 32 }
        ensures { result ≡ record { sizes = sizes; body = body.now; rest = body.now } }
    {
        Reader {
            sizes,
            body,
            rest: body,
        }
    }

    /// How many bytes are left.
    pub fn left(&self) -> usize
        ensures { result ≡ length self.now.rest }
    {
        self.rest.len()
    }

    /// How many bytes have been read.
    pub fn at(&self) -> u32
        ensures { result ≡ offset self.now }
    {
        self.body.len().saturating_sub(self.rest.len()) as u32
    }

    fn settle<T: Drop>(
        &mut self,
        found: Result<(T, &'a [u8]), ValueFault>,
    ) -> Result<T, ReadTrouble>
        ensures { Settles self.old self.new found.entry result }
    {
        match found {
            Ok((part, rest)) => {
                self.rest = rest;
                Ok(part)
            }
            Err(fault) => Err(ReadTrouble {
                fault,
                at: self.at(),
            }),
        }
    }

    /// An unsigned byte.
    #[tactic(auto, using(crate::proofs::Settling::reads_settled), unfolding(crate::specs::Reading::part_at, crate::specs::Reading::simple_at))]
    pub fn byte(&mut self) -> Result<u8, ReadTrouble>
        ensures { Reads (λ x. x) (part_at byte self.old) self.old self.new result }
    {
        self.settle(parts::byte(self.rest))
    }

    /// A signed number of four bytes.
    #[tactic(auto, using(crate::proofs::Settling::reads_settled), unfolding(crate::specs::Reading::part_at, crate::specs::Reading::simple_at))]
    pub fn int(&mut self) -> Result<i32, ReadTrouble>
        ensures { Reads (λ x. x) (part_at int self.old) self.old self.new result }
    {
        self.settle(parts::int(self.rest))
    }

    /// A signed number of eight bytes.
    #[tactic(auto, using(crate::proofs::Settling::reads_settled), unfolding(crate::specs::Reading::part_at, crate::specs::Reading::simple_at))]
    pub fn long(&mut self) -> Result<i64, ReadTrouble>
        ensures { Reads (λ x. x) (part_at long self.old) self.old self.new result }
    {
        self.settle(parts::long(self.rest))
    }

    /// An unsigned number of eight bytes: a place in a method's code.
    #[tactic(auto, using(crate::proofs::Settling::reads_settled), unfolding(crate::specs::Reading::part_at, crate::specs::Reading::simple_at))]
    pub fn index(&mut self) -> Result<u64, ReadTrouble>
        ensures { Reads (λ x. x) (part_at index self.old) self.old self.new result }
    {
        self.settle(parts::index(self.rest))
    }

    /// An unsigned number of four bytes.
    #[tactic(auto, using(crate::proofs::Settling::reads_settled), unfolding(crate::specs::Reading::part_at, crate::specs::Reading::simple_at))]
    pub fn number(&mut self) -> Result<u32, ReadTrouble>
        ensures { Reads (λ x. x) (part_at number self.old) self.old self.new result }
    {
        self.settle(parts::number(self.rest))
    }

    /// An object's id.
    #[tactic(auto, using(crate::proofs::Settling::reads_settled), unfolding(crate::specs::Reading::part_at))]
    pub fn object(&mut self) -> Result<ObjectId, ReadTrouble>
        ensures { Reads (λ x. x) (part_at object self.old) self.old self.new result }
    {
        self.settle(parts::object(self.sizes, self.rest))
    }

    /// A thread's id, of an object's size.
    #[tactic(auto, using(crate::proofs::Settling::reads_settled), unfolding(crate::specs::Reading::part_at))]
    pub fn thread(&mut self) -> Result<ThreadId, ReadTrouble>
        ensures { Reads (λ x. x) (part_at thread self.old) self.old self.new result }
    {
        self.settle(parts::thread(self.sizes, self.rest))
    }

    /// A reference type's id.
    #[tactic(auto, using(crate::proofs::Settling::reads_settled), unfolding(crate::specs::Reading::part_at))]
    pub fn class(&mut self) -> Result<ClassId, ReadTrouble>
        ensures { Reads (λ x. x) (part_at class self.old) self.old self.new result }
    {
        self.settle(parts::class(self.sizes, self.rest))
    }

    /// A method's id.
    #[tactic(auto, using(crate::proofs::Settling::reads_settled), unfolding(crate::specs::Reading::part_at))]
    pub fn method(&mut self) -> Result<MethodId, ReadTrouble>
        ensures { Reads (λ x. x) (part_at method self.old) self.old self.new result }
    {
        self.settle(parts::method(self.sizes, self.rest))
    }

    /// A field's id.
    #[tactic(auto, using(crate::proofs::Settling::reads_settled), unfolding(crate::specs::Reading::part_at))]
    pub fn field(&mut self) -> Result<FieldId, ReadTrouble>
        ensures { Reads (λ x. x) (part_at field self.old) self.old self.new result }
    {
        self.settle(parts::field(self.sizes, self.rest))
    }

    /// A frame's id.
    #[tactic(auto, using(crate::proofs::Settling::reads_settled), unfolding(crate::specs::Reading::part_at))]
    pub fn frame(&mut self) -> Result<FrameId, ReadTrouble>
        ensures { Reads (λ x. x) (part_at frame self.old) self.old self.new result }
    {
        self.settle(parts::frame(self.sizes, self.rest))
    }

    /// A type tag: `BadTag` above 3.
    #[tactic(auto, using(crate::proofs::Settling::reads_settled), unfolding(crate::specs::Reading::part_at, crate::specs::Reading::simple_at))]
    pub fn type_tag(&mut self) -> Result<TypeTag, ReadTrouble>
        ensures { Reads (λ x. x) (part_at type_tag self.old) self.old self.new result }
    {
        self.settle(parts::type_tag(self.rest))
    }

    /// A count: `BadCount` where it is negative or the limit doesn't allow it.
    #[tactic(auto, using(crate::proofs::Settling::reads_settled), unfolding(crate::specs::Reading::part_at))]
    pub fn count(&mut self, limit: Limit) -> Result<u32, ReadTrouble>
        ensures { Reads (λ x. x) (part_at (count limit) self.old) self.old self.new result }
    {
        self.settle(parts::count(limit, self.rest))
    }

    /// A text's bytes, without a copy: `BadCount` where its length is negative.
    #[tactic(auto, using(crate::proofs::Settling::reads_bytes), unfolding(crate::specs::Reading::part_at))]
    pub fn text(&mut self) -> Result<&'a [u8], ReadTrouble>
        ensures { Reads (λ x. x.now) (part_at text self.old) self.old self.new result }
    {
        self.settle(parts::text(self.rest))
    }

    /// A type tag, a class, a method and an index: `BadTag` where the tag is above 3.
    #[tactic(auto, using(crate::proofs::Settling::reads_settled), unfolding(crate::specs::Reading::part_at))]
    pub fn location(&mut self) -> Result<Location, ReadTrouble>
        ensures { Reads (λ x. x) (part_at location self.old) self.old self.new result }
    {
        self.settle(parts::location(self.sizes, self.rest))
    }

    /// A tag and its value: `BadTag` where the byte is no tag's.
    #[tactic(auto, using(crate::proofs::Settling::reads_settled), unfolding(crate::specs::Reading::part_at))]
    pub fn value(&mut self) -> Result<Value, ReadTrouble>
        ensures { Reads (λ x. x) (part_at value self.old) self.old self.new result }
    {
        self.settle(parts::value(self.sizes, self.rest))
    }

    /// A reference's tag and its object: `BadTag` where the byte is no reference's tag.
    #[tactic(auto, using(crate::proofs::Settling::reads_settled), unfolding(crate::specs::Reading::part_at))]
    pub fn reference(&mut self) -> Result<Value, ReadTrouble>
        ensures { Reads (λ x. x) (part_at reference self.old) self.old self.new result }
    {
        self.settle(parts::reference(self.sizes, self.rest))
    }

    /// The value of a tag byte that stands elsewhere: `BadTag` where that is no tag's.
    #[tactic(auto, using(crate::proofs::Settling::reads_settled), unfolding(crate::specs::Reading::part_at))]
    pub fn untagged(&mut self, tag: u8) -> Result<Value, ReadTrouble>
        ensures { Reads (λ x. x) (part_at (untagged tag) self.old) self.old self.new result }
    {
        self.settle(parts::untagged(self.sizes, tag, self.rest))
    }

    /// What is left, one byte to eight: `Short` where nothing is.
    #[tactic(auto, using(crate::proofs::Settling::reads_bytes), unfolding(crate::specs::Reading::part_at))]
    pub fn tail(&mut self) -> Result<&'a [u8], ReadTrouble>
        ensures { Reads (λ x. x.now) (part_at tail self.old) self.old self.new result }
    {
        self.settle(parts::tail(self.rest))
    }
}
