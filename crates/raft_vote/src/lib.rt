//! Elections: standing for leader, giving a vote, and counting votes.
#![tactic(auto)]

mod vote;

pub use raft_model::Election;
pub use vote::{campaign, on_vote, on_vote_reply};
