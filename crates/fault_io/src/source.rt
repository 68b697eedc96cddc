ghost use Rattle.std.specs.Prelude.{◌≡◌, List, ℕ};
ghost use Rattle.std.specs.declared.option.Option.{Option};
ghost use Rattle.std.specs.Io.{ReadsAtMost};
ghost use Rattle.std.specs.Io.KnownBytes.{ReadConsumes};
ghost use Rattle.fault_io.specs.Faults.{HasCause};

use crate::fault::IoFault;

/// Where bytes come from, one piece a call, with a count of the calls that failed.
///
/// The bytes are those of one run from front to end: what a call moves is gone from what is left,
/// and what it does not move is still there for the next call. Clauses can say that of a source
/// that tells what it has left; any other is only trusted to keep to it. Source: this project's
/// own.
pub trait Source {
    /// The bytes that are left, or `None` where the source does not tell them. A source that tells
    /// them goes on telling them.
    ghost left: { Self → Option (List ℕ) };

    /// How many faults there have been, from 0 to 2^64-1, where it stays.
    ghost fault_count: { Self → ℕ };

    /// Moves bytes from the front of what is left to the front of `into`, and says how many.
    ///
    /// It may move fewer than there is room for. Into a buffer that is not empty it answers 0 at
    /// the end and nowhere else, and at the end nothing else but 0 or an error. What stands in
    /// `into` after the bytes moved is not told. At `Failed` and at `NoMemory` nothing has moved:
    /// what is left stays, and `into` holds nothing that counts. The count of faults never falls,
    /// and `Failed` comes only where it rose in this call, or stands at 2^64-1.
    fn take(&mut self, into: &mut [u8]) -> Result<usize, IoFault>
        ensures bound { ReadsAtMost result into.new }
        ensures bytes { ReadConsumes (left self.old) (left self.new) result into.new }
        ensures cause { HasCause (fault_count self.old) (fault_count self.new) result };

    /// How many faults there have been since the source was made, from 0 to 2^64-1, where it
    /// stays.
    fn faults(&self) -> u64
        ensures { result ≡ fault_count self.now };
}
