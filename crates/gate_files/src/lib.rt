//! Files of records, each after a gate, on disks that may fail and lose power: making one, saving a
//! record, and reading the whole file.
#![tactic(auto)]

mod loading;
mod making;
mod saving;

pub use loading::load;
pub use making::make;
pub use saving::save;
