use host_ids::Entries;

/// The tag of a batch.
pub(crate) const BATCH: u8 = 1;

/// The tag of a start.
pub(crate) const START: u8 = 2;

/// The greatest number of a host, which has the vote; 0 stands for none.
pub(crate) const MOST_VOTE: u8 = 9;

/// What a log file says in one place.
#[derive(Debug, Drop)]
pub enum Record {
    /// What a replica saved in one step, in the log of its group.
    Batch {
        /// The term.
        term: u64,
        /// The host that has the vote in this term, 1 to 9, or 0 for none.
        vote: u8,
        /// The commit index.
        commit: u64,
        /// The index before the first entry that is kept, 0 where all are.
        front: u64,
        /// The term of the entry at the front, 0 where the front is 0.
        front_term: u64,
        /// The index of the first of these entries.
        first: u64,
        /// The entries from there on, fewer than 2^32, with the index after them below 2^64.
        entries: Entries,
    },
    /// A start of the host, in its file of starts.
    Start {
        /// How often the host has been started, from 1.
        number: u64,
    },
}
