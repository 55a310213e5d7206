//! The parts that the bodies of JDWP packets are made of, read and written for every size of ids.
#![tactic(auto)]

mod class;
mod fault;
mod id;
mod laws;
mod limit;
mod listed;
mod location;
mod parts;
mod reader;
mod row;
mod shown;
mod sizes;
mod tag;
mod value;
mod writer;

pub use class::{Field, Line, LineTable, Method, Variable};
pub use fault::{ReadTrouble, RowFault, ValueFault};
pub use id::{ClassId, FieldId, FrameId, MethodId, ObjectId, ThreadId};
pub use laws::{a_part_read_was_spelled, a_spelled_part_is_read};
pub use limit::Limit;
pub use location::Location;
pub use reader::Reader;
pub use row::{Row, read_list, write_list};
pub use shown::{
    a_byte_that_begins_no_character_is_replaced, lossy, well_formed_text_is_shown_as_it_is,
};
pub use sizes::{BadSizes, IdSizes};
pub use tag::{Tag, TypeTag};
pub use value::Value;
pub use writer::Writer;
