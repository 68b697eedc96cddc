//! The envelopes that the replicas of a group send to each other, as types, which of them are well
//! formed, and lists of them that have entries in common.
#![tactic(auto)]

mod append;
mod envelope;
mod envelopes;
mod frozen;
mod grammar;
mod run;
mod slot;

pub use append::AppendHead;
pub use envelope::{Body, Envelope};
pub use envelopes::Envelopes;
pub use grammar::{
    MOST_ENTRIES, MOST_PIECE, are_entries, are_fit_numbers, is_command, is_entry, is_envelope,
    is_group, is_host, is_key, is_piece, is_proposal, is_request,
};
