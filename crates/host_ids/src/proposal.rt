ghost use Rattle.std.specs.Prelude.{◌≡◌, IfOk};

use crate::memory::NoMemory;
use crate::text::Text;

/// The most bytes of a command, and of a value and a reply of the key-value object.
pub const MOST_COMMAND: usize = 512;

/// The greatest series of a session's command, and the greatest responded value.
pub const MOST_SERIES: u64 = u64::MAX - 2;

/// The most sessions of a group, and its limit of them where none is named.
pub const MOST_SESSIONS: u32 = 4096;

/// What a group decides on at one place of its list.
///
/// It has no term and no key: the same proposal may be decided at several places. Client ids are
/// 1 to 2^64-1, a command's series is 1 to `MOST_SERIES` and its responded value 0 to that, a command
/// has 1 to `MOST_COMMAND` bytes. Source: dissertation section 6.3 for sessions; the forms are this project's
/// own.
#[derive(Debug, PartialEq, Eq, Drop)]
pub enum Proposal {
    /// What a new leader appends: it changes nothing.
    Blank,
    /// A command outside every session: each place that holds it acts.
    Plain {
        /// The command's text.
        command: Text,
    },
    /// A command of a client's session.
    Session {
        /// The client whose session it is.
        client: u64,
        /// The number of the command in its session: the same number is the same command again.
        series: u64,
        /// The client has had the replies of all series up to this one.
        responded: u64,
        /// The command's text.
        command: Text,
    },
    /// Begins a session of the client.
    Register {
        /// The client.
        client: u64,
    },
    /// Ends the session of the client.
    Close {
        /// The client.
        client: u64,
    },
}

impl Proposal {
    /// Another proposal of the same contents. The only error is `NoMemory`.
    pub fn copy(&self) -> Result<Proposal, NoMemory>
        ensures { IfOk result (λ copy. copy ≡ self.now) }
    {
        match self {
            Proposal::Blank => Ok(Proposal::Blank),
            Proposal::Plain { command } => Ok(Proposal::Plain {
                command: command.copy()?,
            }),
            Proposal::Session {
                client,
                series,
                responded,
                command,
            } => Ok(Proposal::Session {
                client: *client,
                series: *series,
                responded: *responded,
                command: command.copy()?,
            }),
            Proposal::Register { client } => Ok(Proposal::Register { client: *client }),
            Proposal::Close { client } => Ok(Proposal::Close { client: *client }),
        }
    }
}
