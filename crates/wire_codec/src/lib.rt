//! The bytes of entries, both ways.
#![tactic(auto)]

mod entry;
mod fault;
mod number;

pub use entry::{read_entry, write_entry};
pub use fault::DecodeFault;
pub use number::{read_8, read_16, read_32, read_64, read_text, write_16, write_32, write_64};
