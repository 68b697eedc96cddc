/// A run stops where leaders have appended this number of entries.
pub const MOST_ENTRIES: u64 = 200_000;

/// A run stops where this number of envelopes were sent.
pub const MOST_ENVELOPES: u64 = 400_000;

/// A run stops where the lines that were read have this number of bytes, their line feeds included.
pub const MOST_SCRIPT: u64 = 67_108_864;

/// A line has at most this number of bytes, its line feed not counted.
pub const MOST_LINE: usize = 4096;

/// The line `apply` applies at most this number of entries.
pub const MOST_APPLIED: u32 = 200_000;

/// The line `settle` has at most this number of rounds.
pub const MOST_ROUNDS: u32 = 64;

/// A counted quantity at whose number a run stops. Source: this project's own.
#[derive(Clone, Copy, Debug, PartialEq, Eq)]
pub enum Limit {
    /// `MOST_ENTRIES` entries that leaders have appended.
    Entries,
    /// `MOST_ENVELOPES` envelopes that were sent.
    Envelopes,
    /// `MOST_SCRIPT` bytes of the lines that were read.
    Script,
}
