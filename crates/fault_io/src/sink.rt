ghost use Rattle.std.specs.Prelude.{◌≡◌, List, ℕ};
ghost use Rattle.std.specs.declared.option.Option.{Option};
ghost use Rattle.std.specs.Io.{WritesAtMost};
ghost use Rattle.std.specs.Io.KnownBytes.{WriteAppends};
ghost use Rattle.fault_io.specs.Faults.{HasCause, TakesSome};

use crate::fault::IoFault;

/// Where bytes go, one piece a call, with a count of the calls that failed.
///
/// What is written stays, and each call adds at the end. Clauses can say that of a sink that tells
/// what was written; any other is only trusted to keep to it. Source: this project's own.
pub trait Sink {
    /// The bytes that were written, or `None` where the sink does not tell them. A sink that tells
    /// them goes on telling them.
    ghost contents: { Self → Option (List ℕ) };

    /// How many faults there have been, from 0 to 2^64-1, where it stays.
    ghost fault_count: { Self → ℕ };

    /// Writes a front of the piece after what was written, and says how many bytes that are.
    ///
    /// It may take fewer than the whole, but of a piece that is not empty it takes at least one.
    /// At `Failed` and at `NoMemory` it has written nothing. The count of faults never falls, and
    /// `Failed` comes only where it rose in this call, or stands at 2^64-1.
    fn put(&mut self, piece: &[u8]) -> Result<usize, IoFault>
        ensures bound { WritesAtMost result piece.now }
        ensures bytes { WriteAppends (contents self.old) (contents self.new) result piece.now }
        ensures some { TakesSome result piece.now }
        ensures cause { HasCause (fault_count self.old) (fault_count self.new) result };

    /// How many faults there have been since the sink was made, from 0 to 2^64-1, where it stays.
    fn faults(&self) -> u64
        ensures { result ≡ fault_count self.now };
}
