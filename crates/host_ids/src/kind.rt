/// The kinds of state machines.
///
/// Source: this project's own, after the three machine kinds of Dragonboat.
#[derive(Clone, Copy, Debug, PartialEq, Eq)]
pub enum Kind {
    /// Updates, lookups and snapshots, each as one call.
    Regular,
    /// Lookups and the writing of a snapshot go on beside updates.
    Concurrent,
    /// The machine keeps its own state on disk, and says at its opening how far that goes.
    OnDisk,
}
