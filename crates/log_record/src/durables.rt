ghost use Rattle.std.specs.Prelude.{◌≡◌, ℕ, Bool, Result, Ok, Err, IfOk, OnOk, IsErrOf, true};
ghost use Rattle.disk_model.specs.Calls.{Keeps};
ghost use Rattle.disk_model.specs.Crash.{Image};
ghost use Rattle.disk_model.specs.State.{DiskState};
ghost use Rattle.gate_files.specs.Moments.{LeavesOnly};
ghost use Rattle.host_ids.specs.declared.batch.Batch.{Batch as BatchOf};
ghost use Rattle.log_record.specs.declared.fault.StoreFault.TheVariants.{BadStore as BadStoreAt};
ghost use Rattle.log_record.specs.declared.reached.Reached.{Reached as ReachedOf};
ghost use Rattle.log_record.specs.Durable.{IsInForm, LeavesStore, Reaches, SameOutside, takes, with_batch};
ghost use Rattle.log_record.specs.Store.{Caused};

use crate::fault::StoreFault;
use disk_model::Disk;
use host_ids::{Batch, NoMemory};
use std::alloc::Global;

/// What a replica has saved of its term, vote, commit index and log, on a disk.
///
/// A store is opened from a file that was made, and saves batches. It may have other files beside.
/// Source: dissertation section 3.8 for what is saved.
pub trait Durables: Sized {
    /// The file that was opened.
    ghost file_of: { Self → ℕ };

    /// All that is kept, as one batch with the number 0.
    ghost kept: { Self → BatchOf };

    /// What is reached, by which the next batch is judged.
    ghost reached: { Self → ReachedOf };

    /// Which files are those of the store that is opened from a file.
    ghost owns: { ℕ → ℕ → Bool };

    /// What files keep, or the file and the place of what is refused.
    ghost opens: { ℕ → Image → Result BatchOf (ℕ × ℕ) };

    /// A disk's files are as the store has it, and every crash leaves that.
    ghost is_sure: { DiskState → Self → Type 0 };

    /// Opens the store of a file, and makes sure of it.
    ///
    /// `BadStore` comes exactly where the files are no store's, with the file and the place of what is
    /// refused. `Failed` comes only where the disk's count of faults rose.
    fn open<D: Disk>(alloc: Global, disk: &mut D, file: u64) -> Result<Self, StoreFault>
        ensures kept { (D.state disk.old).tells → IfOk result (λ s. opens file (D.state disk.old).seen ≡ Ok (kept s)) }
        ensures sure { (D.state disk.old).honest → IfOk result (is_sure (D.state disk.new)) }
        ensures file { IfOk result (λ s. file_of s ≡ file) }
        ensures bad_store { (f at : ℕ) → (D.state disk.old).tells → IsErrOf result (BadStoreAt f at) → opens file (D.state disk.old).seen ≡ Err (f, at) }
        ensures keeps { Keeps (D.state disk.old) (D.state disk.new) }
        ensures any_moment { (D.state disk.old).honest → LeavesOnly (D.state disk.old) (D.state disk.new) (D.state disk.old).may_leave }
        ensures tells { (D.state disk.old).tells → (D.state disk.new).tells }
        ensures honest { (D.state disk.old).honest → (D.state disk.new).honest }
        ensures cause { Caused (D.state disk.old) (D.state disk.new) result };

    /// Whether a batch can be saved: its record is well formed, has fewer than 2^32 bytes and may
    /// follow.
    fn follows(&self, batch: &Batch) -> bool
        ensures { result ≡ takes (file_of self.now) (reached self.now) batch.now };

    /// Saves a batch.
    ///
    /// At every moment a crash leaves the state of before or that with the batch, and of files that
    /// aren't the store's what it could have left before; once `save` has answered Ok, every crash
    /// leaves the new state. `Failed` comes only where the disk's count of faults rose. After an error
    /// the store is opened again.
    fn save<D: Disk>(&mut self, disk: &mut D, batch: &Batch) -> Result<(), StoreFault>
        requires { takes (file_of self.old) (reached self.old) batch.now ≡ true }
        ensures kept { OnOk result (kept self.new ≡ with_batch (kept self.old) batch.now) }
        ensures sure { (D.state disk.old).honest → is_sure (D.state disk.old) self.old → OnOk result (is_sure (D.state disk.new) self.new) }
        ensures any_moment { (D.state disk.old).honest → is_sure (D.state disk.old) self.old → LeavesOnly (D.state disk.old) (D.state disk.new) (LeavesStore (owns (file_of self.old)) (opens (file_of self.old)) (D.state disk.old).may_leave (kept self.old) (with_batch (kept self.old) batch.now)) }
        ensures others { (D.state disk.old).tells → SameOutside (owns (file_of self.old)) (D.state disk.old).seen (D.state disk.new).seen }
        ensures tells { (D.state disk.old).tells → (D.state disk.new).tells }
        ensures honest { (D.state disk.old).honest → (D.state disk.new).honest }
        ensures file { file_of self.new ≡ file_of self.old }
        ensures cause { Caused (D.state disk.old) (D.state disk.new) result }
        ensures good { (f at : ℕ) → IsErrOf result (BadStoreAt f at) → ⊥ };

    /// All that is kept, as one batch with the number 0, whose entries begin after the front. The only
    /// error is `NoMemory`.
    fn durable(&self) -> Result<Batch, NoMemory>
        ensures kept { IfOk result (λ b. b ≡ kept self.now) }
        ensures form { IsInForm (kept self.now) }
        ensures reached { Reaches (reached self.now) (kept self.now) };
}
