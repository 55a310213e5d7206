//! The elements of a line's JSON array, read one by one as typed parts: numbers, texts, and values of a target's program.
#![tactic(auto)]

mod arguments;
mod bits;
mod elements;
mod laws;
mod lists;
mod numbers;
mod shown;
mod values;
mod version;
mod words;

pub use arguments::Arguments;
pub use bits::{bits_of, bits_text};
pub use elements::{Elements, LineFault};
pub use laws::{
    a_printed_value_is_read_again, bits_have_the_spelling_of_their_version,
    the_text_of_bits_is_read_again,
};
pub use shown::{tag_name, value_json};
pub use version::Version;
