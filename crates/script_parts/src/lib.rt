//! What a run of a script keeps beside its group: for each host a node, which has the cell that entries
//! are given to and the open requests; the contexts of requests; the clients' sessions. And how a line
//! is told.
#![tactic(auto)]

mod cell;
mod clients;
mod contexts;
mod node;
mod notes;
mod requests;

pub use cell::tell;
pub use clients::Clients;
pub use contexts::Contexts;
pub use node::Node;
pub use notes::{is_dropped, kind_of, tell_notes};
