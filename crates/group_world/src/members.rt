ghost use Rattle.std.specs.Prelude.{◌≡◌};
ghost use Rattle.group_world.specs.Members.{group_of, lost_group};

use crate::wire::Wire;
use host_ids::{Entry, Key};
use raft_core::Replica;
use raft_model::SavedState;
use std::alloc::Global;
use std::collections::BTreeMap;

/// The parts of a group. A table has a place for each number of a host, 0 to 9; those of no voter
/// don't count.
#[derive(Drop)]
pub(crate) struct Members {
    pub(crate) number: u8,
    pub(crate) voters: Vec<u8>,
    pub(crate) replicas: Vec<Replica>,
    pub(crate) up: [bool; 10],
    pub(crate) wire: Wire,
    pub(crate) saves: Vec<SavedState>,
    pub(crate) decided: Vec<Entry>,
    pub(crate) asks: BTreeMap<Key, u64>,
}

impl Members {
    /// Nothing of a group but its number, which takes no memory.
    pub(crate) fn lost(alloc: Global, number: u8) -> Members
        ensures { group_of result ≡ lost_group number }
    {
        Members {
            number,
            voters: Vec::new(alloc),
            replicas: Vec::new(alloc),
            up: [false; 10],
            wire: Wire::new(alloc),
            saves: Vec::new(alloc),
            decided: Vec::new(alloc),
            asks: BTreeMap::new(alloc),
        }
    }
}
