//! What a server reads of the requests of a dump, and that none of them ends a session.
#![tactic(auto)]

mod laws;

pub use laws::{
    a_conversation_stays_in_its_bounds, each_request_of_a_dump_is_read,
    no_request_of_a_dump_ends_a_session,
};
