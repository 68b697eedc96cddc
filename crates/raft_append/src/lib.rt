//! Appends: what a follower makes of entries that a leader sends, what the leader makes of the answer,
//! and the commit rule.
#![tactic(auto)]

mod append;
mod commit;
mod laying;
mod progress;

pub use append::on_append;
pub use commit::commit_candidate;
pub use progress::on_append_reply;
pub use raft_model::{Appended, Progress};
