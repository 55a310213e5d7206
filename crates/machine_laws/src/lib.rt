//! The laws of the translation machine: what holds of every run of it, and of every look-up.
#![tactic(auto)]

mod laws;

pub use laws::{
    a_disconnect_is_answered_once_the_target_is_left, a_pause_is_told_of_the_thread_that_it_names,
    all_that_is_lacking_was_asked, at_most_sixteen_commands_are_pending,
    breakpoints_are_bound_before_the_target_runs_on, breakpoints_are_bound_by_all_that_is_known,
    breakpoints_are_those_that_the_client_set_last, breakpoints_are_told_once_they_are_verified,
    client_options_are_those_of_the_last_initialize,
    commands_are_pending_until_they_are_replied_to, commands_have_a_spelling,
    commands_use_ids_that_were_read, each_event_request_is_set_once, event_requests_are_as_replied,
    event_requests_are_settled, event_requests_stand_as_the_messages_say,
    events_tell_where_a_session_stands, exception_infos_are_of_threads_that_have_thrown,
    look_ups_lack_what_they_have_come_to, look_ups_show_the_world,
    nothing_is_asked_but_what_is_lacking, nothing_is_asked_of_null, nothing_waits_at_rest,
    outcomes_are_what_rows_lead_to, references_are_numbered_as_they_are_told,
    requests_are_answered_in_order, requests_are_served_for_the_threads_that_they_name,
    responses_list_the_breakpoints_that_are_asked_for, starts_and_ends_of_threads_are_told,
    steps_are_over_where_a_stop_is_told, stops_are_told_of_what_stops_the_target,
    the_client_knows_whether_a_stop_is_in_hand, the_first_error_decides,
    the_handshake_goes_out_for_an_attach, the_receiver_is_asked_for_by_its_name,
    the_target_is_changed_as_the_first_request_asks, the_target_is_left_once_for_a_disconnect,
    the_target_runs_on_at_rest, the_target_runs_on_with_the_step_that_was_asked_for,
    threads_keep_their_numbers, values_are_set_by_writes_in_a_stop,
    what_is_known_is_what_messages_say,
};
