ghost use Rattle.std.specs.Prelude.{◌≡◌};
ghost use Rattle.script_text.specs.declared.fault.LineFault.TheVariants.{NoMemory as OutOfMemory};

use host_ids::NoMemory;
use thiserror::Error;

/// Why some bytes weren't read as a line of a script. Source: this project's own.
#[derive(Clone, Copy, Debug, PartialEq, Eq, Error)]
pub enum LineFault {
    /// They are no line.
    #[error("line {line} is no line of a script")]
    BadLine {
        /// The line's number, from 1.
        line: u64,
    },
    /// An allocation was refused.
    #[error("memory ran out")]
    NoMemory,
}

impl From<NoMemory> for LineFault {
    ghost from_gives = { λ _ e. e ≡ OutOfMemory };

    fn from(_: NoMemory) -> LineFault {
        LineFault::NoMemory
    }
}
