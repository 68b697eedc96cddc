//! Runs of groups by computation: what worked and drawn lists of events come to by the definitions of
//! `raft_model`, that their events are allowed, and which well-known sentences on Raft are false here.
//!
//! Each is the contract of a call that does nothing.
#![tactic(auto)]

mod laws;
mod witness;

pub use laws::{
    crashed_run, deposed_run, drawn_apart_run, drawn_five_run, drawn_three_run, followed_run,
    installed_run, lagging_run, minority_run, repeated_run,
};
pub use witness::{
    answers_need_not_be_led, answers_need_not_hold, crashes_take_back, drawn_runs_are_allowed,
    install_resets_a_log, logs_may_end_in_later_terms, logs_need_not_match,
    machine_raises_the_commit_index, mark_resets_a_saved_log, matched_need_not_be_owned,
    matched_need_not_be_reached, start_confirms_a_read, start_keeps_a_whole_batch, terms_may_fall,
    terms_may_fall_from_the_front, votes_may_be_taken_back, worked_runs_are_allowed,
};
