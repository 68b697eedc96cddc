//! The log of a replica: entries after a front.
#![tactic(auto)]

mod log;
mod ranges;
mod tally;

pub use log::Log;
