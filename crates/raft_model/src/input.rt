use crate::chunk::Chunk;
use host_ids::{Key, Proposal};
use wire_types::Envelope;

/// What a replica is given, but for the taking and the saving of a batch. Source: dissertation
/// chapters 3, 5 and 6; that nothing happens by a clock of its own is this project's own.
#[derive(Debug, Drop)]
pub enum Input {
    /// It heard of no leader for long.
    Timeout,
    /// A leader is to show that it leads.
    Beat,
    /// An envelope arrives.
    Envelope {
        /// The envelope, which is for this replica.
        envelope: Envelope,
    },
    /// A proposal is asked at its host.
    Propose {
        /// The request.
        key: Key,
        /// What is proposed, no blank.
        proposal: Proposal,
    },
    /// A read is asked at its host.
    Ask {
        /// The request.
        key: Key,
    },
    /// A piece of a snapshot is to be sent.
    Chunk {
        /// The host that it is for.
        to: u8,
        /// The piece.
        chunk: Chunk,
    },
    /// The log may be cut up to an index.
    Compact {
        /// The index.
        index: u64,
    },
    /// The received snapshot was put in place.
    Installed {
        /// The index up to which it goes.
        index: u64,
        /// The term of that entry.
        term: u64,
    },
}
