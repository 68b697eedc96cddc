//! One replica of a group: each input is a row of the step table.
#![tactic(auto)]

mod appending;
mod fault;
mod notes;
mod proposing;
mod reading;
mod replica;
mod rows;
mod saving;
mod seat;
mod sending;
mod snapping;
mod state;
mod voting;
mod within;

pub use fault::CoreFault;
pub use raft_model::{Chunk, Durable, Input, LaneEvent, LaneFault, Note, Received, Role};
pub use replica::Replica;
