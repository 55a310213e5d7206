//! The laws of sessions over bytes: what holds of every log that is a session, and of every one that has ended.
#![tactic(auto)]

mod laws;

pub use laws::{
    a_target_is_left_to_run_on, answers_read_alike_with_sizes_that_serve,
    done_is_a_disconnect_that_succeeded, each_side_is_sent_its_messages, endings_show_in_the_log,
    last_words_are_those_of_the_ending, messages_are_a_run, replies_are_what_the_target_says,
    requests_are_answered_where_a_session_waits, requests_are_what_the_client_says,
    responses_answer_the_requests_to_the_end, terminated_is_told_once, turns_are_waits,
};
