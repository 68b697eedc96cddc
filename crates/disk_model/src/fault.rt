ghost use Rattle.std.specs.Prelude.{◌≡◌};
ghost use Rattle.disk_model.specs.declared.fault.DiskFault.TheVariants.{NoMemory as OutOfMemory};

use std::alloc::{AllocError, AllocFailed};
use thiserror::Error;

/// Why a call of a disk didn't do what it was asked.
///
/// Every error of std that says that memory ran out turns into `NoMemory` by `?`. Source: this
/// project's own.
#[derive(Clone, Copy, Debug, PartialEq, Eq, Error)]
pub enum DiskFault {
    /// The disk failed, and its count of faults rose in this call, or stands at 2^64-1.
    #[error("the disk failed")]
    Failed,
    /// An allocation was refused. It may come at any call that says so, and no clause ties it to a
    /// cause.
    #[error("memory ran out")]
    NoMemory,
}

impl From<AllocError> for DiskFault {
    ghost from_gives = { λ _ e. e ≡ OutOfMemory };

    fn from(_: AllocError) -> DiskFault {
        DiskFault::NoMemory
    }
}

impl<T: Drop> From<AllocFailed<T>> for DiskFault {
    ghost from_gives = { λ _ e. e ≡ OutOfMemory };

    fn from(_: AllocFailed<T>) -> DiskFault {
        DiskFault::NoMemory
    }
}
