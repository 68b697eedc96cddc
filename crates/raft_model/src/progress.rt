/// What becomes of an append whose term is the replica's. Source: dissertation section 3.5; the hint
/// of where logs part is this project's own, after that section's end.
#[derive(Clone, Copy, Debug, PartialEq, Eq)]
pub enum Appended {
    /// The log doesn't reach the entry before the new ones, or holds one of another term there.
    Refused {
        /// Up to where the log may agree with the leader's.
        hint: u64,
    },
    /// The log holds the entries now.
    Stored {
        /// Up to where it agrees with the leader's.
        index: u64,
        /// The least index whose entry is new, none where the log held all of them before.
        changed_from: Option<u64>,
    },
}

/// What a leader knows of its voters' logs, by their hosts' numbers 1 to 9. Source: dissertation
/// section 3.5.
#[derive(Clone, Copy, Debug, PartialEq, Eq)]
pub struct Progress {
    /// The index of the next entry to send.
    pub next: [u64; 10],
    /// The index up to which the voter's log is known to agree with the leader's.
    pub matched: [u64; 10],
}
