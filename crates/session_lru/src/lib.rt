//! Sessions of clients, by which a command acts at most once: a table of bounded size that evicts
//! the session touched longest ago, and keeps the replies that a client hasn't had yet; and the
//! table as bytes.
#![tactic(auto)]

mod laws;
mod replies;
mod section;
mod session;
mod table;

pub use laws::{calls_follow, others_leave, sections_are_read};
pub use replies::Replies;
pub use section::TableFault;
pub use session::Session;
pub use table::SessionTable;
