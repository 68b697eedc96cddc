use crate::chunk::Chunk;
use crate::durable::Durable;
use host_ids::{Key, Proposal};

/// What a group is given. A host is one of its voters, else the event is refused. Source: this
/// project's own.
#[derive(Debug, Drop)]
pub enum LaneEvent {
    /// A replica heard of no leader for long.
    Timeout {
        /// Its host.
        host: u8,
    },
    /// A replica is to show that it leads.
    Beat {
        /// Its host.
        host: u8,
    },
    /// An envelope of the wire arrives, which may be an old one once more.
    Deliver {
        /// Its number, from 1 in the order of sending.
        number: u64,
    },
    /// A replica's next batch is taken, to be saved.
    Ready {
        /// Its host.
        host: u8,
    },
    /// The pending batch of a replica was saved.
    Saved {
        /// Its host.
        host: u8,
        /// The number of the batch.
        id: u64,
    },
    /// A proposal is asked.
    Propose {
        /// The host that it is asked at.
        host: u8,
        /// The request.
        key: Key,
        /// What is proposed, no blank.
        proposal: Proposal,
    },
    /// A read is asked.
    Ask {
        /// The host that it is asked at.
        host: u8,
        /// The request.
        key: Key,
    },
    /// A piece of a snapshot is sent.
    Chunk {
        /// The host that sends it.
        host: u8,
        /// The host that it is for.
        to: u8,
        /// The piece.
        chunk: Chunk,
    },
    /// A replica's log is cut.
    Compact {
        /// Its host.
        host: u8,
        /// The index up to which the entries go.
        index: u64,
    },
    /// A replica put the snapshot that it received in place.
    Installed {
        /// Its host.
        host: u8,
        /// The index up to which the snapshot goes.
        index: u64,
        /// The term of that entry.
        term: u64,
    },
    /// A host crashes.
    Down {
        /// The host.
        host: u8,
    },
    /// A host starts again.
    Restart {
        /// The host.
        host: u8,
        /// What the crash left.
        durable: Durable,
    },
}

/// Why a group refuses an event. A refused event changes nothing. Source: this project's own.
#[derive(Clone, Copy, Debug, PartialEq, Eq)]
pub enum LaneFault {
    /// The host is none of the group's voters.
    NotMember,
    /// The host is down; for an envelope, the one that it is for.
    IsDown,
    /// The host that is to start is up.
    IsUp,
    /// No envelope has this number.
    NoEnvelope,
    /// Another batch is pending.
    NotPending {
        /// The number of the pending one, 0 for none.
        pending: u64,
    },
    /// The log isn't both committed and saved up to there.
    NotRipe {
        /// The last index that is.
        ripe: u64,
    },
    /// Memory ran out.
    NoMemory,
}
