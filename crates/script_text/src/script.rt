use host_ids::{Kind, Text};

/// An event at a host. Source: this project's own.
#[derive(Debug, Drop)]
pub enum HostEvent {
    /// The election timeout of a replica.
    Timeout {
        /// The replica's group.
        group: u8,
    },
    /// A replica is to show that it leads.
    Beat {
        /// The replica's group.
        group: u8,
    },
    /// Takes a batch, to be saved.
    Ready {
        /// The replica's group.
        group: u8,
    },
    /// Takes a batch where none is pending, and hands the pending one back as saved.
    Save {
        /// The replica's group.
        group: u8,
    },
    /// Applies entries.
    Apply {
        /// The replica's group.
        group: u8,
        /// At most this number of them, 1 to 200,000 (`MOST_APPLIED`).
        most: u32,
    },
}

/// A line of a script. Hosts are 1 to 9, groups 1 to 64. Source: this project's own.
#[derive(Debug, Drop)]
pub enum ScriptLine {
    /// An empty line or a comment, which is counted and does nothing.
    Skipped,
    /// The last line.
    End,
    /// Declares a host.
    Host {
        /// The host.
        host: u8,
    },
    /// Declares a group.
    Group {
        /// The group.
        group: u8,
        /// The kind of its state machines.
        kind: Kind,
        /// Its voters, 1 to 7 hosts, ascending, one byte each.
        roster: Text,
        /// How many sessions may stand in it, where that is said.
        limit: Option<u32>,
    },
    /// An event at a host.
    Event {
        /// The host.
        host: u8,
        /// The event.
        event: HostEvent,
    },
    /// An envelope of a group arrives, which may be an old one once more.
    Deliver {
        /// The group.
        group: u8,
        /// The envelope's number, from 1 in the order of sending.
        number: u64,
    },
    /// Proposes a command outside every session.
    Ask {
        /// The host that is asked.
        host: u8,
        /// The group.
        group: u8,
        /// The request's context.
        context: Text,
        /// The command.
        command: Text,
    },
    /// Asks for a linearizable read.
    Read {
        /// The host that is asked.
        host: u8,
        /// The group.
        group: u8,
        /// The request's context.
        context: Text,
        /// The query.
        query: Text,
    },
    /// Answers a query from what a host has applied, which may lag.
    Stale {
        /// The host that is asked.
        host: u8,
        /// The group.
        group: u8,
        /// The query.
        query: Text,
    },
    /// Makes a session and proposes its registration.
    Register {
        /// The host that is asked.
        host: u8,
        /// The group.
        group: u8,
        /// The request's context.
        context: Text,
        /// The session's name.
        session: Text,
        /// The client, 1 to 2^64-1.
        client: u64,
    },
    /// Proposes a command with the series of a session, which is then outstanding.
    Call {
        /// The host that is asked.
        host: u8,
        /// The request's context.
        context: Text,
        /// The session's name.
        session: Text,
        /// The command.
        command: Text,
    },
    /// Proposes the outstanding series and command of a session again.
    Again {
        /// The host that is asked.
        host: u8,
        /// The request's context.
        context: Text,
        /// The session's name.
        session: Text,
    },
    /// The reply of a session's outstanding series was had.
    Completed {
        /// The session's name.
        session: Text,
    },
    /// Proposes the close of a session's client.
    Close {
        /// The host that is asked.
        host: u8,
        /// The request's context.
        context: Text,
        /// The session's name.
        session: Text,
    },
    /// Proposes a command with these numbers.
    Raw {
        /// The host that is asked.
        host: u8,
        /// The group.
        group: u8,
        /// The request's context.
        context: Text,
        /// The client, 1 to 2^64-1.
        client: u64,
        /// The series, 1 to 2^64-3.
        series: u64,
        /// The responded value, 0 to 2^64-3.
        responded: u64,
        /// The command.
        command: Text,
    },
    /// Saves, delivers and applies round after round, until there is nothing to do.
    Settle {
        /// The group.
        group: u8,
    },
    /// The envelopes that were sent so far won't be delivered by a settle.
    Lose {
        /// The group.
        group: u8,
    },
    /// Shows an envelope.
    Wire {
        /// The group.
        group: u8,
        /// The envelope's number, from 1 in the order of sending.
        number: u64,
    },
}
