use host_ids::NoMemory;
use raft_core::CoreFault;
use std::alloc::{AllocError, AllocFailed};
use thiserror::Error;

/// What is wrong with a line of a table.
#[derive(Clone, Copy, Debug, PartialEq, Eq, Error)]
pub enum Flaw {
    /// Something is to be seen before the first input or event.
    #[error("something is to be seen below no input or event")]
    Above,
    /// The first line names neither a replica nor a lane.
    #[error("a table begins with `replica 1`, `replica 2`, `replica 3` or `lane`")]
    Begin,
    /// The first word begins no input and no event.
    #[error("no line begins so")]
    Verb,
    /// Another word should stand there.
    #[error("another word should stand there")]
    Word,
    /// A word should be a number.
    #[error("a word should be a number")]
    Number,
    /// There are more words than the line takes.
    #[error("there are words too many")]
    More,
    /// The input or the event isn't one that may be given.
    #[error("this may not be given there")]
    Given,
    /// Memory ran out.
    #[error("memory ran out")]
    NoMemory,
}

impl From<NoMemory> for Flaw {
    fn from(_: NoMemory) -> Flaw {
        Flaw::NoMemory
    }
}

impl From<AllocError> for Flaw {
    fn from(_: AllocError) -> Flaw {
        Flaw::NoMemory
    }
}

impl<T: Drop> From<AllocFailed<T>> for Flaw {
    fn from(_: AllocFailed<T>) -> Flaw {
        Flaw::NoMemory
    }
}

impl From<CoreFault> for Flaw {
    fn from(_: CoreFault) -> Flaw {
        Flaw::NoMemory
    }
}
