use host_ids::Key;

/// What an input tells besides what it sends. Source: this project's own.
#[derive(Clone, Copy, Debug, PartialEq, Eq)]
pub enum Note {
    /// A replica leads a term from now on.
    Leader {
        /// Its host.
        host: u8,
        /// The term.
        term: u64,
    },
    /// A batch was taken, to be saved.
    Pending {
        /// The host.
        host: u8,
        /// The number of the batch.
        id: u64,
    },
    /// There was nothing to do.
    Idle,
    /// A proposal or a read wasn't taken, and never will be under its key.
    Dropped {
        /// The request that it came from.
        key: Key,
    },
    /// A read may be answered once its host has applied an index.
    Confirmed {
        /// The host that it was asked at.
        host: u8,
        /// The request that it came from.
        key: Key,
        /// The index.
        index: u64,
    },
}
