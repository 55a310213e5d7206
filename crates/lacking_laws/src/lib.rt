//! What look-ups lack as replies come: it is lacking until it is heard, or until the look-up has failed. It is
//! definitions and laws, and no code.
#![tactic(auto)]

mod laws;

pub use laws::{
    a_reply_takes_nothing_back, what_has_failed_lacks_nothing_more,
    what_is_lacking_stays_so_until_it_is_heard, what_was_found_stays,
};
