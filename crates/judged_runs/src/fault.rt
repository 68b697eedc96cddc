use host_ids::NoMemory;
use std::alloc::{AllocError, AllocFailed};
use thiserror::Error;

/// What is wrong with a line.
#[derive(Clone, Copy, Debug, PartialEq, Eq, Error)]
pub enum Flaw {
    /// A line stands before the first section, and is neither empty nor a comment.
    #[error("no section has begun")]
    Outside,
    /// The head of a section names neither kind.
    #[error("a section is an `output` or a `script`")]
    Kind,
    /// The limit of sessions is no number, or out of its range.
    #[error("a limit of sessions is a number from 1 to 4096")]
    Limit,
    /// The head of a section has no name.
    #[error("the section has no name")]
    Name,
    /// The last line of an output is another one.
    #[error("an output ends with `end`")]
    End,
    /// The first word begins no line of an output.
    #[error("no line of an output begins so")]
    Verb,
    /// A word is missing or empty, or there are too many.
    #[error("a word is missing, or is one too many")]
    Words,
    /// A word should be a number from 0 to 2^64-1.
    #[error("a word should be a number")]
    Number,
    /// The group isn't the one that there is.
    #[error("the only group is 1")]
    Group,
    /// What is asked or shown is neither a proposal nor a read.
    #[error("this is neither a proposal nor a read")]
    Request,
    /// No line of the script asks what a line `stale` answers.
    #[error("no line of the script asks for this")]
    Query,
    /// Memory ran out at this line.
    #[error("memory ran out")]
    NoMemory,
}

impl From<NoMemory> for Flaw {
    fn from(_: NoMemory) -> Flaw {
        Flaw::NoMemory
    }
}

/// Why no verdict is reached.
#[derive(Clone, Copy, Debug, PartialEq, Eq, Error)]
pub enum Fault {
    /// A line of the input is bad.
    #[error("line {line}: {flaw}")]
    Input {
        /// Its number, from 1 on.
        line: u64,
        /// What is wrong with it.
        flaw: Flaw,
    },
    /// A script printed a line that this program doesn't know.
    #[error("the script at line {line} printed a bad line {printed}: {flaw}")]
    Printed {
        /// The number of the section's head, from 1 on.
        line: u64,
        /// The number of the printed line, from 1 on.
        printed: u64,
        /// What is wrong with it.
        flaw: Flaw,
    },
    /// Memory ran out.
    #[error("memory ran out")]
    NoMemory,
}

impl From<NoMemory> for Fault {
    fn from(_: NoMemory) -> Fault {
        Fault::NoMemory
    }
}

impl From<AllocError> for Fault {
    fn from(_: AllocError) -> Fault {
        Fault::NoMemory
    }
}

impl<T: Drop> From<AllocFailed<T>> for Fault {
    fn from(_: AllocFailed<T>) -> Fault {
        Fault::NoMemory
    }
}
