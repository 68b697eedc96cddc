ghost use Rattle.std.specs.Prelude.{◌≡◌};

use host_ids::NoMemory;
use thiserror::Error;

/// Why a replica doesn't take a batch as saved. Source: this project's own.
#[derive(Clone, Copy, Debug, PartialEq, Eq, Error)]
pub enum CoreFault {
    /// No batch of this number is pending; nothing changed.
    #[error("batch {pending} is pending")]
    NotPending {
        /// The number of the pending batch, 0 for none.
        pending: u64,
    },
    /// Memory ran out: the replica can only be dropped.
    #[error("memory ran out")]
    NoMemory,
}

impl From<NoMemory> for CoreFault {
    ghost use Rattle.raft_core.specs.declared.fault.CoreFault.{CoreFault};

    ghost from_gives = { λ _ fault. fault ≡ CoreFault.NoMemory };

    fn from(_: NoMemory) -> CoreFault {
        CoreFault::NoMemory
    }
}
