use host_ids::Entries;

/// All that was saved of a replica's term, vote, commit index and log. Source: dissertation section
/// 3.8; that the commit index is saved is this project's own.
#[derive(Debug, Drop)]
pub struct SavedState {
    /// The term.
    pub term: u64,
    /// The host that has the vote in this term, 0 for none.
    pub vote: u8,
    /// The commit index.
    pub commit: u64,
    /// The index before the first entry that is kept, 0 where all are.
    pub front: u64,
    /// The term of the entry at the front, 0 where the front is 0.
    pub front_term: u64,
    /// The entries that are kept, from the front on.
    pub entries: Entries,
}
