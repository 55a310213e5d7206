//! What was asked for an item, and what look-ups come to by the replies.
#![tactic(auto)]

mod asked;
mod classes;
mod copies;
mod handed;
mod met;
mod need;
mod objects;
mod place;
mod question_key;
mod sight;
mod slots;
mod thrown;
mod types;
mod values;
mod values_heard;
mod variables;

pub use asked::{Asked, Reason};
pub use classes::{REACH, above_need, fields_need, is_further, is_static};
pub use copies::question_copy;
pub use handed::{Refusal, handed_on};
pub use met::MetClasses;
pub use need::{Need, beside_others, both, listed};
pub use objects::{class_need, length_need, signature_need, text_need, type_need};
pub use place::Declared;
pub use question_key::QuestionKey;
pub use sight::{Sight, tried};
pub use slots::{by_slot, first_byte};
pub use thrown::{thrown_name, thrown_text};
pub use types::{declared_need, type_if};
pub use values::{childless, seen_need};
pub use values_heard::{as_int, elements_heard, fields_heard, slots_heard};
pub use variables::{method_variables, object_named, this_need};
