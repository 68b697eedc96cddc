use std::alloc::AllocFailed;
use thiserror::Error;

/// What is wrong with a file that should hold a scenario.
#[derive(Clone, Copy, Debug, PartialEq, Eq, Error)]
pub enum Flaw {
    /// An indented line stands above the first line at the margin.
    #[error("an output stands below no line")]
    Above,
    /// A line at the margin stands below the status.
    #[error("a line stands below the status")]
    Below,
    /// A line begins with `=` and is no `= status N`.
    #[error("a status is `= status N`, with N from 0 to 255")]
    Status,
}

/// Why a text is read as no scenario.
#[derive(Clone, Copy, Debug, PartialEq, Eq, Error)]
pub enum Fault {
    /// A line of it is wrong.
    #[error("line {line} of the file: {flaw}")]
    Line {
        /// Its number in the file, from 1 on.
        line: usize,
        /// What is wrong with it.
        flaw: Flaw,
    },
    /// Memory ran out.
    #[error("out of memory")]
    NoMemory,
}

impl<T: Drop> From<AllocFailed<T>> for Fault {
    fn from(_: AllocFailed<T>) -> Fault {
        Fault::NoMemory
    }
}
