//! The parts of what a session knows, as messages change them: the facts of classes, the numbers of threads and of what is
//! shown in a stop, the breakpoints and paths that were told, and the effects that are due.
#![tactic(auto)]

mod bound;
mod composites;
mod copies;
mod effects;
mod facts;
mod frame_numbers;
mod known_classes;
mod numbers;
mod open_classes;
mod paths;
mod places;
mod references;
mod sizes;
mod threads;
mod told_classes;
mod variable_numbers;
mod wire;

pub use bound::BoundIds;
pub use composites::{composite_parts, has_death, learn_in};
pub use copies::{effect_copy, text_copies};
pub use effects::{effect_due, entry_by, forget_thrown, settle, unlisted_by};
pub use facts::{learn, line_table_in, methods_in, source_in};
pub use frame_numbers::frames_told;
pub use known_classes::{
    counts, is_bound, is_keyed, known_methods, known_signature, known_source, watched_signature,
};
pub use numbers::{Numbers, begin_stop, end_stop, has_stop, send, spend};
pub use open_classes::{OpenClasses, all_open, stays_open, trimmed};
pub use paths::Paths;
pub use references::{body_of, container_with, frame_with, shown_by};
pub use sizes::{SizesRead, sizes_in};
pub use threads::ThreadNumbers;
pub use variable_numbers::{scope_told, value_told, variables_told, written_told};
pub use wire::wire_effect;
