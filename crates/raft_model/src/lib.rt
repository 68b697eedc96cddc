//! The core of consensus as definitions: the replica, its step table row by row, and the group with
//! its wire, what is saved, and the one decided list. The definitions stand in `specs`; the types
//! here are the plain ones that they name.
#![tactic(auto)]

mod chunk;
mod chunks;
mod durable;
mod election;
mod event;
mod input;
mod note;
mod progress;
mod role;
mod saved;
mod state;

pub use chunk::Chunk;
pub use chunks::Chunks;
pub use durable::Durable;
pub use election::Election;
pub use event::{LaneEvent, LaneFault};
pub use input::Input;
pub use note::Note;
pub use progress::{Appended, Progress};
pub use role::Role;
pub use saved::SavedState;
pub use state::{Inbox, Pending, Received, State, Taken};
