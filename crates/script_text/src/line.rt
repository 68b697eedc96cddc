use crate::kind::EnvelopeKind;
use crate::limit::Limit;
use host_ids::{Entry, Key, Proposal, Text};
use object_model::Ending;

/// A line of the output.
///
/// A line that speaks of a group carries it, also where it isn't printed. A line that shows a
/// context carries the request's key. Source: this project's own.
#[derive(Debug, Drop)]
pub enum Line {
    /// A host was started.
    Started {
        /// The host.
        host: u8,
        /// How often it was started by now.
        start: u64,
    },
    /// A replica became leader.
    Leader {
        /// Its host.
        host: u8,
        /// Its group.
        group: u8,
        /// The term.
        term: u64,
    },
    /// The event had nothing to do.
    Idle,
    /// The line of the script was refused, and changed nothing.
    Refused {
        /// The refusal's number.
        number: u8,
    },
    /// A proposal is asked.
    Ask {
        /// The request.
        key: Key,
        /// The group.
        group: u8,
        /// The proposal.
        proposal: Proposal,
    },
    /// A read is asked.
    AskRead {
        /// The request.
        key: Key,
        /// The group.
        group: u8,
        /// The query.
        query: Text,
    },
    /// A request whose proposal was decided ends.
    Ended {
        /// The request.
        key: Key,
        /// The group.
        group: u8,
        /// The proposal's place in the group's list, from 1.
        place: u64,
        /// How it ends.
        ending: Ending,
    },
    /// A read is answered.
    Read {
        /// The request.
        key: Key,
        /// The group.
        group: u8,
        /// The number of places that were applied.
        front: u64,
        /// The answer.
        answer: Text,
    },
    /// A query is answered from what a host has applied.
    Stale {
        /// The host that was asked.
        host: u8,
        /// The group.
        group: u8,
        /// The number of places that the host had applied.
        front: u64,
        /// The query.
        query: Text,
        /// The answer.
        answer: Text,
    },
    /// A request ends at once, since no leader is known that could take it.
    Dropped {
        /// The request.
        key: Key,
        /// The group.
        group: u8,
    },
    /// An envelope of a group's wire is shown.
    Wire {
        /// The group.
        group: u8,
        /// Its number, from 1 in the order of sending.
        number: u64,
        /// The host that sent it.
        from: u8,
        /// The host that it is for.
        to: u8,
        /// What it says.
        kind: EnvelopeKind,
        /// Its term, 0 for a proposal that is handed on, a read and its answer.
        term: u64,
    },
    /// An entry of a group's decided list.
    Entry {
        /// The group.
        group: u8,
        /// The entry.
        entry: Entry,
    },
    /// A limit was reached, and the run stops.
    Reached {
        /// The limit.
        limit: Limit,
    },
    /// The words of the call are no form of it.
    Usage,
    /// The line of the script with this number, from 1, is none.
    BadLine {
        /// The number.
        line: u64,
    },
    /// The last line of a run that came to its end.
    End,
}
