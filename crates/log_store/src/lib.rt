//! What a replica has saved, in a log file and in memory.
#![tactic(auto)]

mod kept;
mod plain;
mod store;

pub use store::PlainStore;
