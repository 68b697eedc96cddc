ghost use Rattle.std.specs.Prelude.{◌≡◌, ◌⊎◌, ℕ, Ok, Err, IfOk, OnOk, OnErr, IsErrOf, true};
ghost use Rattle.disk_model.specs.Calls.{Keeps};
ghost use Rattle.disk_model.specs.Crash.{SameBut};
ghost use Rattle.gate_files.specs.Moments.{LeavesOnly, OnlyOf};
ghost use Rattle.log_record.specs.declared.fault.StoreFault.TheVariants.{BadStore as BadStoreAt};
ghost use Rattle.log_record.specs.Durable.{IsInForm, Keeps as KeepsIn, Reaches, durable_in, takes, with_batch};
ghost use Rattle.log_record.specs.Store.{Caused};
ghost use Rattle.log_store.specs.Kept.{IsSure};

use crate::kept::{Kept, keep};
use disk_model::Disk;
use host_ids::{Batch, Entries, NoMemory};
use log_record::{GateFile, StoreFault, record_of};
use std::alloc::Global;
use std::marker::Model;

/// What a replica has saved of its term, vote, commit index and log: in a log file, and all of it in
/// memory too.
///
/// Source: dissertation section 3.8 for what is saved; the bytes are this project's own.
#[derive(Drop)]
pub struct PlainStore {
    alloc: Global,
    file: GateFile,
    kept: Kept,
}

impl Model for PlainStore {
    ghost use Rattle.log_record.specs.Durable.{IsInForm, Reaches};
    ghost use Rattle.log_store.specs.Kept.{Plain, batch_of};

    ghost Value = { Plain };

    ghost view = { λ s. record { file = s.file; kept = batch_of s.kept } };

    ghost invariant = { λ s. IsInForm (batch_of s.kept) × Reaches s.file.reached (batch_of s.kept) };
}

impl PlainStore {
    /// Opens the store of a file that was made: makes sure of it, and reads it once.
    ///
    /// `BadStore` comes exactly where its bytes are no log file's, with the place of the gate after
    /// which no record stands that may follow, or 0 where the header or the first gate is missing.
    /// `Failed` comes only where the disk's count of faults rose.
    pub fn open<D: Disk>(alloc: Global, disk: &mut D, file: u64) -> Result<PlainStore, StoreFault>
        ensures kept { (D.state disk.old).tells → IfOk result (λ s. KeepsIn file s.kept ((D.state disk.old).seen file)) }
        ensures sure { (D.state disk.old).honest → IfOk result (IsSure (D.state disk.new)) }
        ensures file { IfOk result (λ s. s.file.file ≡ file) }
        ensures bad_store { (f at : ℕ) → (D.state disk.old).tells → IsErrOf result (BadStoreAt f at) → (f ≡ file) × (durable_in file ((D.state disk.old).seen file) ≡ Err at) }
        ensures keeps { Keeps (D.state disk.old) (D.state disk.new) }
        ensures any_moment { (D.state disk.old).honest → LeavesOnly (D.state disk.old) (D.state disk.new) (D.state disk.old).may_leave }
        ensures tells { (D.state disk.old).tells → (D.state disk.new).tells }
        ensures honest { (D.state disk.old).honest → (D.state disk.new).honest }
        ensures cause { Caused (D.state disk.old) (D.state disk.new) result }
    {
        let (file, records) = GateFile::open(alloc, disk, file)?;
        let kept = keep(alloc, records)?;
        Ok(PlainStore { alloc, file, kept })
    }

    /// Whether a batch can be saved: its record is well formed, has fewer than 2^32 bytes and may
    /// follow. It takes a step for each entry.
    pub fn follows(&self, batch: &Batch) -> bool
        ensures { result ≡ takes self.now.file.file self.now.file.reached batch.now }
    {
        self.file.takes(batch)
    }

    /// Saves a batch by four calls of the disk, and costs what it writes.
    ///
    /// At every moment a crash leaves the state of before or that with the batch, and of the other
    /// files what it could have left before; once `save` has answered Ok, every crash leaves the new
    /// state. Memory runs out before the disk is touched, or in the disk's own calls. `Failed` comes
    /// only where the disk's count of faults rose. After an error the store is opened again.
    pub fn save<D: Disk>(&mut self, disk: &mut D, batch: &Batch) -> Result<(), StoreFault>
        requires { takes self.old.file.file self.old.file.reached batch.now ≡ true }
        ensures kept { OnOk result (self.new.kept ≡ with_batch self.old.kept batch.now) }
        ensures sure { (D.state disk.old).honest → IsSure (D.state disk.old) self.old → OnOk result (IsSure (D.state disk.new) self.new) }
        ensures any_moment { (D.state disk.old).honest → IsSure (D.state disk.old) self.old → LeavesOnly (D.state disk.old) (D.state disk.new) (OnlyOf (D.state disk.old).may_leave self.old.file.file (λ bytes. KeepsIn self.old.file.file self.old.kept bytes ⊎ KeepsIn self.old.file.file (with_batch self.old.kept batch.now) bytes)) }
        ensures others { (D.state disk.old).tells → SameBut self.old.file.file (D.state disk.old).seen (D.state disk.new).seen }
        ensures tells { (D.state disk.old).tells → (D.state disk.new).tells }
        ensures honest { (D.state disk.old).honest → (D.state disk.new).honest }
        ensures file { self.new.file.file ≡ self.old.file.file }
        ensures err { OnErr result (self.new ≡ self.old) }
        ensures cause { Caused (D.state disk.old) (D.state disk.new) result }
        ensures good { (f at : ℕ) → IsErrOf result (BadStoreAt f at) → ⊥ }
    {
        let record = record_of(batch)?;
        let more = batch.entries.copy()?.into_vec()?;
        self.kept.entries.reserve(more.len())?;
        self.file.append(disk, &record)?;
        self.kept.take(batch, more)?;
        Ok(())
    }

    /// All that is kept, as one batch with the number 0, whose entries begin after the front. The only
    /// error is `NoMemory`.
    pub fn durable(&self) -> Result<Batch, NoMemory>
        ensures kept { IfOk result (λ b. b ≡ self.now.kept) }
        ensures form { IsInForm self.now.kept }
        ensures reached { Reaches self.now.file.reached self.now.kept }
    {
        Ok(Batch {
            id: 0,
            term: self.kept.term,
            vote: self.kept.vote,
            commit: self.kept.commit,
            front: self.kept.front,
            front_term: self.kept.front_term,
            first: self.kept.front + 1,
            entries: Entries::from_slice(self.alloc, &self.kept.entries)?,
        })
    }
}
