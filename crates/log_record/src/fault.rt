ghost use Rattle.std.specs.Prelude.{◌≡◌};
ghost use Rattle.log_record.specs.declared.fault.RecordFault.TheVariants.{NoMemory as OutOfMemory, NotRecord as RefusedAt};
ghost use Rattle.log_record.specs.declared.fault.StoreFault.TheVariants.{NoMemory as StoreOutOfMemory};
ghost use Rattle.wire_codec.specs.declared.fault.DecodeFault.TheVariants as faults;
ghost use Rattle.log_record.specs.Fault.{as_record, as_store};

use disk_model::DiskFault;
use host_ids::NoMemory;
use std::alloc::{AllocError, AllocFailed};
use thiserror::Error;
use wire_codec::DecodeFault;

/// Why bytes gave no record.
///
/// Every error of std that says that memory ran out turns into `NoMemory` by `?`, and a refusal of a
/// part into one of the record at the same place. Source: this project's own.
#[derive(Clone, Copy, Debug, PartialEq, Eq, Error)]
pub enum RecordFault {
    /// No record has these bytes.
    #[error("no record: byte {at}")]
    NotRecord {
        /// How many of the bytes, from the first on, begin some record's bytes.
        at: usize,
    },
    /// An allocation was refused. It may come at any call that says so, and no clause ties it to a
    /// cause.
    #[error("memory ran out")]
    NoMemory,
}

impl From<AllocError> for RecordFault {
    ghost from_gives = { λ _ e. e ≡ OutOfMemory };

    fn from(_: AllocError) -> RecordFault {
        RecordFault::NoMemory
    }
}

impl<T: Drop> From<AllocFailed<T>> for RecordFault {
    ghost from_gives = { λ _ e. e ≡ OutOfMemory };

    fn from(_: AllocFailed<T>) -> RecordFault {
        RecordFault::NoMemory
    }
}

impl From<NoMemory> for RecordFault {
    ghost from_gives = { λ _ e. e ≡ OutOfMemory };

    fn from(_: NoMemory) -> RecordFault {
        RecordFault::NoMemory
    }
}

impl From<DecodeFault> for RecordFault {
    ghost from_gives = { λ d e. e ≡ as_record d };

    fn from(fault: DecodeFault) -> RecordFault {
        match fault {
            DecodeFault::NotEnvelope { at } => RecordFault::NotRecord { at },
            DecodeFault::NoMemory => RecordFault::NoMemory,
        }
    }
}

/// Why a call on a log file didn't do what it was asked.
///
/// Every error of std that says that memory ran out turns into `NoMemory` by `?`. Source: this
/// project's own.
#[derive(Clone, Copy, Debug, PartialEq, Eq, Error)]
pub enum StoreFault {
    /// The disk failed, and its count of faults rose in this call, or stands at 2^64-1.
    #[error("the disk failed")]
    Failed,
    /// The bytes of a file aren't those of a log file.
    #[error("no log file: file {file}, byte {at}")]
    BadStore {
        /// The file's number.
        file: u64,
        /// The place of the gate after which no record stands that may follow, or 0 where the header
        /// or the first gate is missing.
        at: u64,
    },
    /// An allocation was refused. It may come at any call that says so, and no clause ties it to a
    /// cause.
    #[error("memory ran out")]
    NoMemory,
}

impl From<AllocError> for StoreFault {
    ghost from_gives = { λ _ e. e ≡ StoreOutOfMemory };

    fn from(_: AllocError) -> StoreFault {
        StoreFault::NoMemory
    }
}

impl<T: Drop> From<AllocFailed<T>> for StoreFault {
    ghost from_gives = { λ _ e. e ≡ StoreOutOfMemory };

    fn from(_: AllocFailed<T>) -> StoreFault {
        StoreFault::NoMemory
    }
}

impl From<NoMemory> for StoreFault {
    ghost from_gives = { λ _ e. e ≡ StoreOutOfMemory };

    fn from(_: NoMemory) -> StoreFault {
        StoreFault::NoMemory
    }
}

impl From<DiskFault> for StoreFault {
    ghost from_gives = { λ d e. e ≡ as_store d };

    fn from(fault: DiskFault) -> StoreFault {
        match fault {
            DiskFault::Failed => StoreFault::Failed,
            DiskFault::NoMemory => StoreFault::NoMemory,
        }
    }
}
