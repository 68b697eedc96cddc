//! Disks that may fail and lose power: what their calls do, what a crash may leave, and disks in
//! memory.
#![tactic(auto)]

mod bytes;
mod calls;
mod contents;
mod damage;
mod depot;
mod disk;
mod fault;
mod file;
mod files;
mod mem_depot;
mod memory;

pub use depot::Depot;
pub use disk::Disk;
pub use fault::DiskFault;
pub use mem_depot::MemDepot;
pub use memory::MemDisk;
