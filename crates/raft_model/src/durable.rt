use host_ids::Batch;

/// What a crash leaves of a replica.
///
/// Source: dissertation sections 3.8 and 5.1; that a machine keeps its own state and says how far
/// it got is this project's own.
#[derive(Debug, Drop)]
pub struct Durable {
    /// All that was saved of term, vote, commit index and log, as one batch.
    pub batch: Batch,
    /// The index of the marked snapshot, 0 for none.
    pub mark: u64,
    /// The term of that entry, 0 for none.
    pub mark_term: u64,
    /// The index up to which the machine itself has kept its state, 0 for one that keeps none.
    pub machine: u64,
}
