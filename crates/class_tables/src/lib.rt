//! What is known of a target's classes: their sources, methods, lines, variables and fields, as they were learnt.
#![tactic(auto)]

mod classes;
mod laws;
mod lines;
mod loaded;
mod method_lines;
mod signature;
mod table;
mod view;

pub use classes::Classes;
pub use laws::{
    a_class_stands_in_the_package_of_its_signature, a_code_index_belongs_to_the_greatest_entry,
    a_line_begins_at_its_least_index, a_location_of_a_line_is_its_start_in_a_method,
    each_look_up_scans_what_was_learnt,
};
pub use lines::{entry_at, line_start};
pub use signature::{class_path, package_in};
pub use view::{ClassView, KeyView};
