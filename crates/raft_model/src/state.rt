use crate::chunks::Chunks;
use crate::role::Role;
use host_ids::{Batch, Text};
use log_view::Log;
use read_index::Reads;
use wire_types::Envelopes;

/// A batch that is being saved, with the envelopes that wait for it. Source: this project's own.
#[derive(Debug, Drop)]
pub struct Pending {
    /// The batch.
    pub batch: Batch,
    /// The envelopes, in the order of sending.
    pub envelopes: Envelopes,
}

/// A snapshot that was received whole. Source: dissertation section 5.1.
#[derive(Debug, Drop)]
pub struct Received {
    /// The index up to which it goes.
    pub index: u64,
    /// The term of that entry.
    pub term: u64,
    /// Its bytes.
    pub bytes: Text,
}

/// A received snapshot, and whom to answer once it is in place. Source: this project's own.
#[derive(Debug, Drop)]
pub struct Inbox {
    /// The snapshot.
    pub received: Received,
    /// The host that sent its last piece.
    pub sender: u8,
    /// The number of its pieces.
    pub count: u32,
}

/// What the last batch that was taken says besides its entries. Source: this project's own.
#[derive(Clone, Copy, Debug, PartialEq, Eq)]
pub struct Taken {
    /// The term.
    pub term: u64,
    /// The vote, 0 for none.
    pub vote: u8,
    /// The commit index.
    pub commit: u64,
    /// The front.
    pub front: u64,
}

/// All that a replica keeps, as the definitions of its step table go over it.
///
/// A table has a place for each number of a host, 1 to 9; those of no voter don't count. Source:
/// dissertation chapters 3, 5 and 6; batches, and envelopes that are held until what they promise is
/// saved, are this project's own.
#[derive(Debug, Drop)]
pub struct State {
    /// Its term.
    pub term: u64,
    /// The host that has its vote in this term, 0 for none.
    pub vote: u8,
    /// Its log.
    pub log: Log,
    /// The commit index.
    pub commit: u64,
    /// What it is in its term.
    pub role: Role,
    /// The leader of its term, 0 where it knows of none.
    pub leader: u8,
    /// The voters that gave it their vote.
    pub granted: [bool; 10],
    /// The index of the next entry to send, for each voter.
    pub next: [u64; 10],
    /// The index up to which each voter's log is known to agree.
    pub matched: [u64; 10],
    /// The rounds of beats, who answered them, and the reads that wait for that.
    pub reads: Reads,
    /// The last index that is saved.
    pub stable: u64,
    /// The least index that changed since the last batch was taken, else the last index and 1.
    pub from: u64,
    /// The batch that is being saved.
    pub pending: Option<Pending>,
    /// The envelopes that wait until what they promise is saved.
    pub held: Envelopes,
    /// The pieces of a snapshot that are in hand.
    pub assembly: Chunks,
    /// A received snapshot.
    pub inbox: Option<Inbox>,
    /// What the last batch that was taken says besides its entries.
    pub taken: Taken,
    /// The number of that batch, 0 before the first.
    pub batches: u64,
}
