//! The world of a script, row by row: which rows fit it, name what it was given, and give what it was not.
#![tactic(auto)]

mod copies;
mod given;
mod growing;
mod kinds;
mod known;
mod known_moves;
mod known_rows;
mod laws;
mod shapes;

pub use copies::{
    array_copy, class_copy, field_copy, frame_copy, method_copy, string_copy, thread_copy,
    variable_copy,
};
pub use given::{is_class, is_field, is_frame, is_method, is_object, is_thread};
pub use growing::empty_world;
pub use known_moves::{move_is_known, move_is_new};
pub use known_rows::{array_is_known, frame_is_known, put_is_known};
pub use laws::{a_world_stays_sound_as_it_grows, a_world_whose_chains_end_is_sound};
pub use shapes::{
    array_fits, class_fits, field_fits, field_value_fits, frame_fits, has_elements, has_room,
    is_for_field, method_fits, move_fits, move_is_of_kind, object_fits, string_fits, thread_fits,
    variable_fits,
};
