//! What a run of a script is: the world that its lines change, and the lines that come out. The
//! definitions stand in `specs`; the types here are their records.
#![tactic(auto)]

mod client;
mod laws;
mod told;

pub use client::ClientSession;
pub use laws::{
    ahead_run, alone_run, handing_on_run, settled_run, showing_run, twice_run, worked_run,
};
pub use told::{Stop, Waiting, Want};
