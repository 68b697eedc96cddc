ghost use Rattle.std.specs.Prelude.{◌≡◌};
ghost use Rattle.wire_codec.specs.declared.fault.DecodeFault.TheVariants.{NoMemory as OutOfMemory};

use host_ids::NoMemory;
use std::alloc::{AllocError, AllocFailed};
use thiserror::Error;

/// Why bytes gave no value.
///
/// Every error of std that says that memory ran out turns into `NoMemory` by `?`. Source: this
/// project's own.
#[derive(Clone, Copy, Debug, PartialEq, Eq, Error)]
pub enum DecodeFault {
    /// No value of the kind that was asked for stands at the place.
    #[error("no such value: byte {at}")]
    NotEnvelope {
        /// The place, from 0, of the first byte with which no value's bytes go on, or the end of
        /// bytes that are cut short.
        at: usize,
    },
    /// An allocation was refused. It may come at any call that says so, and no clause ties it to a
    /// cause.
    #[error("memory ran out")]
    NoMemory,
}

impl From<AllocError> for DecodeFault {
    ghost from_gives = { λ _ e. e ≡ OutOfMemory };

    fn from(_: AllocError) -> DecodeFault {
        DecodeFault::NoMemory
    }
}

impl<T: Drop> From<AllocFailed<T>> for DecodeFault {
    ghost from_gives = { λ _ e. e ≡ OutOfMemory };

    fn from(_: AllocFailed<T>) -> DecodeFault {
        DecodeFault::NoMemory
    }
}

impl From<NoMemory> for DecodeFault {
    ghost from_gives = { λ _ e. e ≡ OutOfMemory };

    fn from(_: NoMemory) -> DecodeFault {
        DecodeFault::NoMemory
    }
}
