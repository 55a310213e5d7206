//! Which event requests a session wishes of its target, which ones stand, and the next change that leads there.
#![tactic(auto)]

mod asked;
mod bound;
mod change;
mod counts;
mod cursor;
mod entry;
mod facts;
mod fixed;
mod forming;
mod known;
mod laws;
mod learnt;
mod names;
mod owners;
mod place;
mod same;
mod share;
mod slot;
mod spelling;
mod standing;
mod table;
mod verified;
mod wants;
mod wish;
mod wishes;

pub use change::{Change, Settled};
pub use entry::{EntryAt, EntryState, FunctionEntry, LineEntry, VerifiedEntry};
pub use facts::{KnownClass, KnownMethod};
pub use laws::{
    a_package_is_watched_where_it_is_wished, a_refusal_is_kept_while_it_is_wished,
    changes_lead_to_what_is_wished, each_wish_is_wished_by_its_entries, each_wish_is_wished_once,
    the_next_change_is_new, what_stands_is_tidy,
};
pub use names::{key_file, key_package};
pub use standing::add_entry;
pub use wish::{Depth, StepWish, Wish};
pub use wishes::Wishes;
