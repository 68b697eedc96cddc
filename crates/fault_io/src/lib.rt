//! Sources and sinks of bytes that count their faults: in memory, with the calls that fail chosen
//! beforehand, and over std's readers and writers.
#![tactic(auto)]

mod calls;
mod fault;
mod memory;
mod sink;
mod source;
mod standard;
mod whole;

pub use fault::IoFault;
pub use memory::{MemSink, MemSource};
pub use sink::Sink;
pub use source::Source;
pub use standard::{StdSink, StdSource};
pub use whole::put_all;
