ghost use Rattle.std.specs.Prelude.{◌≡◌};
ghost use Rattle.fault_io.specs.declared.fault.IoFault.TheVariants.{NoMemory as OutOfMemory};

use host_ids::NoMemory;
use std::alloc::{AllocError, AllocFailed};
use thiserror::Error;

/// Why bytes did not move.
///
/// Every error of std and of `host_ids` that says that memory ran out turns into `NoMemory` by
/// `?`. Source: this project's own.
#[derive(Clone, Copy, Debug, PartialEq, Eq, Error)]
pub enum IoFault {
    /// The source or the sink failed, and its count of faults rose in this call, or stands at
    /// 2^64-1.
    #[error("reading or writing failed")]
    Failed,
    /// An allocation was refused. It may come at any call that says so, and no clause ties it to a
    /// cause.
    #[error("memory ran out")]
    NoMemory,
}

impl From<AllocError> for IoFault {
    ghost from_gives = { λ _ e. e ≡ OutOfMemory };

    fn from(_: AllocError) -> IoFault {
        IoFault::NoMemory
    }
}

impl<T: Drop> From<AllocFailed<T>> for IoFault {
    ghost from_gives = { λ _ e. e ≡ OutOfMemory };

    fn from(_: AllocFailed<T>) -> IoFault {
        IoFault::NoMemory
    }
}

impl From<NoMemory> for IoFault {
    ghost from_gives = { λ _ e. e ≡ OutOfMemory };

    fn from(_: NoMemory) -> IoFault {
        IoFault::NoMemory
    }
}
