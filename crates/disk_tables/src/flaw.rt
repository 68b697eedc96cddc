use std::alloc::{AllocError, AllocFailed};
use thiserror::Error;

/// What is wrong with a line.
#[derive(Clone, Copy, Debug, PartialEq, Eq, Error)]
pub enum Flaw {
    /// The first word is no call.
    #[error("no call is named so")]
    Verb,
    /// A word should be a number, of a host from 1 to 9, of a choice from 0 to 2, or with its length
    /// below 2^64.
    #[error("a number should stand there")]
    Number,
    /// The disk isn't where the call needs it.
    #[error("the disk is taken")]
    Taken,
    /// Memory ran out.
    #[error("memory ran out")]
    NoMemory,
}

impl From<AllocError> for Flaw {
    fn from(_: AllocError) -> Flaw {
        Flaw::NoMemory
    }
}

impl<T: Drop> From<AllocFailed<T>> for Flaw {
    fn from(_: AllocFailed<T>) -> Flaw {
        Flaw::NoMemory
    }
}
