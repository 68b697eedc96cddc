ghost use Rattle.std.specs.Prelude.{◌≡◌, ◌≢◌, ◌⊎◌, ◌^◌, ◌<◌, ◌++◌, ◌∷◌, [], ℕ, List, Some, Ok, Err, IfOk, OnOk, OnErr, IsErrOf, length, true};
ghost use Rattle.disk_model.specs.Calls.{Keeps};
ghost use Rattle.disk_model.specs.Crash.{Only, SameBut};
ghost use Rattle.gate_files.specs.Gates.{framed};
ghost use Rattle.gate_files.specs.Moments.{LeavesOnly, OnlyOf};
ghost use Rattle.log_record.specs.declared.fault.StoreFault.TheVariants.{BadStore as BadStoreAt};
ghost use Rattle.log_record.specs.declared.record.Record.{Record as RecordOf};
ghost use Rattle.log_record.specs.Durable.{takes};
ghost use Rattle.log_record.specs.Record.{fits_record, is_record, record_bytes};
ghost use Rattle.log_record.specs.Store.{AreSmall, Caused, IsStore, OpensTo, after, follows, nothing_yet, reached, store_of};

use crate::batch::is_small_batch;
use crate::fault::StoreFault;
use crate::opening::read_records;
use crate::reached::Reached;
use crate::record::Record;
use crate::writing::write_record;
use disk_model::Disk;
use gate_files::{load, save};
use host_ids::{Batch, NoMemory};
use std::alloc::Global;
use wire_codec::write_32;

/// Makes a log file without records, by two calls of the disk.
///
/// The file reads as empty before: one whose making failed is cut to 0 first. `Failed` comes only
/// where the disk's count of faults rose.
pub fn make<D: Disk>(disk: &mut D, file: u64) -> Result<(), StoreFault>
    ensures made { (D.state disk.old).honest → (D.state disk.old).seen file ≡ [] → OnOk result (OpensTo file [] ((D.state disk.new).seen file) × Only file ((D.state disk.new).seen file) (D.state disk.new).may_leave) }
    ensures any_moment { (D.state disk.old).honest → LeavesOnly (D.state disk.old) (D.state disk.new) (OnlyOf (D.state disk.old).may_leave file (λ bytes. Unit {0})) }
    ensures others { (D.state disk.old).tells → SameBut file (D.state disk.old).seen (D.state disk.new).seen }
    ensures tells { (D.state disk.old).tells → (D.state disk.new).tells }
    ensures honest { (D.state disk.old).honest → (D.state disk.new).honest }
    ensures cause { Caused (D.state disk.old) (D.state disk.new) result }
    ensures good { (f at : ℕ) → IsErrOf result (BadStoreAt f at) → ⊥ }
{
    gate_files::make(disk, file)?;
    Ok(())
}

/// A log file that was opened: its records are on the disk alone.
///
/// It holds the place of the first gate that isn't open, and what the records reach.
#[derive(Drop)]
pub struct GateFile {
    alloc: Global,
    file: u64,
    gate: u64,
    reached: Reached,
}

impl GateFile {
    /// Opens a log file: makes sure of it, reads it once, and answers its records too.
    ///
    /// `BadStore` comes exactly where its bytes are no log file's, with the place of the gate after
    /// which no record stands that may follow, or 0 where the header or the first gate is missing.
    /// `Failed` comes only where the disk's count of faults rose.
    pub fn open<D: Disk>(
        alloc: Global,
        disk: &mut D,
        file: u64,
    ) -> Result<(GateFile, Vec<Record>), StoreFault>
        ensures records { (D.state disk.old).tells → IfOk result (λ r. store_of file ((D.state disk.old).seen file) ≡ Ok (r.1.items, r.0.gate)) }
        ensures store { (D.state disk.old).honest → IfOk result (λ r. IsStore (D.state disk.new) r.0 r.1.items) }
        ensures formed { IfOk result (λ r. AreSmall r.1.items) }
        ensures reached { IfOk result (λ r. reached file nothing_yet r.1.items ≡ Some r.0.reached) }
        ensures file { IfOk result (λ r. r.0.file ≡ file) }
        ensures bad_store { (f at : ℕ) → (D.state disk.old).tells → IsErrOf result (BadStoreAt f at) → (f ≡ file) × (store_of file ((D.state disk.old).seen file) ≡ Err at) }
        ensures keeps { Keeps (D.state disk.old) (D.state disk.new) }
        ensures any_moment { (D.state disk.old).honest → LeavesOnly (D.state disk.old) (D.state disk.new) (D.state disk.old).may_leave }
        ensures tells { (D.state disk.old).tells → (D.state disk.new).tells }
        ensures honest { (D.state disk.old).honest → (D.state disk.new).honest }
        ensures cause { Caused (D.state disk.old) (D.state disk.new) result }
    {
        let bytes = load(alloc, disk, file)?;
        let opened = read_records(alloc, file, &bytes)?;
        let gate_file = GateFile {
            alloc,
            file,
            gate: opened.gate as u64,
            reached: opened.reached,
        };
        Ok((gate_file, opened.records))
    }

    /// Whether a well-formed record may follow in the file.
    pub fn follows(&self, record: &Record) -> bool
        requires { is_record record.now ≡ true }
        ensures { result ≡ follows self.now.file self.now.reached record.now }
    {
        self.reached.follows(self.file, record)
    }

    /// Whether a batch can be saved to the file: its record is well formed, has fewer than 2^32 bytes
    /// and may follow. It takes a step for each entry.
    pub fn takes(&self, batch: &Batch) -> bool
        ensures { result ≡ takes self.now.file self.now.reached batch.now }
    {
        if batch.first == 0 || !is_small_batch(batch) {
            return false;
        }
        let count = batch.entries.items().len() as u64;
        self.reached.is_followed_by(
            self.file,
            batch.term,
            batch.commit,
            batch.front,
            batch.front_term,
            batch.first,
            count,
        )
    }

    /// Saves one record by four calls of the disk.
    ///
    /// At every moment a crash leaves the records of before or those with this one, and of the other
    /// files what it could have left before; once `append` has answered Ok, every crash leaves it.
    /// `Failed` comes only where the disk's count of faults rose; the file is opened again then.
    /// `NoMemory` also comes where the file would reach 2^64-1 bytes.
    pub fn append<D: Disk>(&mut self, disk: &mut D, record: &Record) -> Result<(), StoreFault>
        requires formed { is_record record.now ≡ true }
        requires few { length (record_bytes record.now) < 2 ^ 32 }
        requires follows { follows self.old.file self.old.reached record.now ≡ true }
        ensures saved { (rs : List RecordOf) → (D.state disk.old).honest → IsStore (D.state disk.old) self.old rs → OnOk result (IsStore (D.state disk.new) self.new (rs ++ record.now ∷ [])) }
        ensures any_moment { (rs : List RecordOf) → (D.state disk.old).honest → IsStore (D.state disk.old) self.old rs → LeavesOnly (D.state disk.old) (D.state disk.new) (OnlyOf (D.state disk.old).may_leave self.old.file (λ bytes. OpensTo self.old.file rs bytes ⊎ OpensTo self.old.file (rs ++ record.now ∷ []) bytes)) }
        ensures others { (D.state disk.old).tells → SameBut self.old.file (D.state disk.old).seen (D.state disk.new).seen }
        ensures tells { (D.state disk.old).tells → (D.state disk.new).tells }
        ensures honest { (D.state disk.old).honest → (D.state disk.new).honest }
        ensures file { self.new.file ≡ self.old.file }
        ensures reached { OnOk result (self.new.reached ≡ after self.old.reached record.now) }
        ensures err { OnErr result (self.new ≡ self.old) }
        ensures cause { Caused (D.state disk.old) (D.state disk.new) result }
        ensures good { (f at : ℕ) → IsErrOf result (BadStoreAt f at) → ⊥ }
    {
        let framed = frame(self.alloc, record)?;
        if u64::MAX - self.gate <= framed.len() as u64 {
            return Err(StoreFault::NoMemory);
        }
        save(disk, self.file, self.gate, &framed)?;
        self.gate += framed.len() as u64;
        self.reached.take(self.file, record);
        Ok(())
    }
}

/// What the first write of a record puts after its gate: its length, its bytes and a closed gate.
fn frame(alloc: Global, record: &Record) -> Result<Vec<u8>, NoMemory>
    requires formed { is_record record.now ≡ true }
    requires few { length (record_bytes record.now) < 2 ^ 32 }
    ensures bytes { IfOk result (λ b. b.items ≡ framed (record_bytes record.now)) }
    ensures fits { OnOk result (fits_record record.now ≡ true) }
{
    let bytes = write_record(alloc, record)?;
    let mut framed = Vec::new(alloc);
    framed.reserve(bytes.len() + 5)?;
    write_32(&mut framed, bytes.len() as u32)?;
    framed.extend_from_slice(&bytes)?;
    framed.push(0)?;
    Ok(framed)
}
