//! The records of a host's log files as bytes, both ways.
#![tactic(auto)]

mod batch;
mod durables;
mod fault;
mod gate_file;
mod opening;
mod reached;
mod reading;
mod record;
mod writing;

pub use batch::record_of;
pub use durables::Durables;
pub use fault::{RecordFault, StoreFault};
pub use gate_file::{GateFile, make};
pub use reached::Reached;
pub use reading::read_record;
pub use record::Record;
pub use writing::write_record;
