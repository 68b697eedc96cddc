use host_ids::{Key, Text};
use script_text::Limit;

/// What an open request waits for. Source: this project's own.
#[derive(Debug, Drop)]
pub enum Want {
    /// That its proposal is applied.
    Proposal,
    /// That its query is answered.
    Read {
        /// The query.
        query: Text,
        /// The number of places that must be applied first, once the read is confirmed.
        front: Option<u64>,
    },
}

/// A confirmed read whose front isn't applied yet, in order of fronts and then of asking. Source:
/// dissertation section 6.4.
#[derive(Clone, Copy, Debug, PartialEq, Eq, PartialOrd, Ord)]
pub struct Waiting {
    /// The number of places that must be applied first.
    pub front: u64,
    /// The read.
    pub key: Key,
}

/// Why a run stops. Source: this project's own.
#[derive(Clone, Copy, Debug, PartialEq, Eq)]
pub enum Stop {
    /// Its word `end` was read.
    Ended,
    /// A line is none.
    Bad {
        /// The line's number, from 1.
        line: u64,
    },
    /// A limit was reached before a line or an event.
    Full {
        /// The limit.
        limit: Limit,
    },
    /// There are no more whole lines.
    Spent {
        /// The number of the line that isn't whole, from 1.
        line: u64,
    },
}
