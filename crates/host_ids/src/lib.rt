//! The plain types that every layer names: out of memory, texts, keys, proposals, entries,
//! batches, kinds of machines and verdicts.
#![tactic(auto)]

mod batch;
mod entries;
mod entry;
mod kind;
mod memory;
mod proposal;
mod text;
mod verdict;

pub use batch::Batch;
pub use entries::Entries;
pub use entry::{Entry, Key};
pub use kind::Kind;
pub use memory::NoMemory;
pub use proposal::{MOST_COMMAND, MOST_SERIES, MOST_SESSIONS, Proposal};
pub use text::Text;
pub use verdict::Verdict;

#[cfg(test)]
mod tests;
