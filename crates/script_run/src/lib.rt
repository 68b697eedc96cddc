//! The run of a script over a source and a sink: its lines are read as they come, run one after
//! another over a world of its own, and what they print is put piece by piece.
#![tactic(auto)]

mod cut;
mod lines;
mod status;
mod stream;
mod top;
mod words;

pub use status::{Finish, Status};
pub use top::run_top;
pub use words::words_of;
