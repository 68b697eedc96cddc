//! Reads without a log entry: each waits until a majority has answered a round of beats that began
//! with it.
#![tactic(auto)]

mod reads;

pub use reads::{OpenRead, Reads};
