//! Which fault a body of the target has, and where.
#![tactic(auto)]

mod laws;

pub use laws::{
    a_body_has_one_first_wrong_part, a_composites_fault_stands_at_its_first_wrong_part,
    a_short_part_is_cut_off, an_answers_fault_stands_at_its_first_wrong_part,
};
