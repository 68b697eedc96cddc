ghost use Rattle.std.specs.Prelude.{◌≡◌, IfOk};

use crate::memory::NoMemory;
use crate::proposal::Proposal;

/// What names a request: the host that it was asked at, that host's start number, and the number
/// of the request in that start.
///
/// The host is 1 to 9, the others count from 1. A blank entry alone has the key of zeros. Source:
/// this project's own.
#[derive(Clone, Copy, Debug, PartialEq, Eq, PartialOrd, Ord, Hash)]
pub struct Key {
    /// The host.
    pub host: u8,
    /// How often the host had been started.
    pub start: u64,
    /// The number of the request among the host's requests of this start.
    pub serial: u64,
}

/// An entry of a group's log. Source: dissertation section 3.5.
#[derive(Debug, PartialEq, Eq, Drop)]
pub struct Entry {
    /// Its place in the log, from 1.
    pub index: u64,
    /// The term of the leader that appended it, from 1.
    pub term: u64,
    /// The request that it came from.
    pub key: Key,
    /// What is decided.
    pub proposal: Proposal,
}

impl Entry {
    /// The same entry once more, which has its texts in common with this one and so takes no memory. The
    /// only error is that there are too many copies to count them.
    pub fn copy(&self) -> Result<Entry, NoMemory>
        ensures { IfOk result (λ copy. copy ≡ self.now) }
    {
        Ok(Entry {
            index: self.index,
            term: self.term,
            key: self.key,
            proposal: self.proposal.copy()?,
        })
    }
}
