ghost use Rattle.std.specs.Prelude.{◌≡◌, ◌++◌, ◌+◌, ◌≤◌, ◌<◌, ◌^◌, ℕ, Ok, Err, true, IfOk, IsErrOf, length};
ghost use Rattle.wire_codec.specs.declared.fault.DecodeFault.TheVariants.{NotEnvelope as RefusedAt};
ghost use Rattle.wire_codec.specs.Entry.{entry_at};
ghost use Rattle.wire_codec.specs.Reading.{IsLongestFront, made, many};
ghost use Rattle.log_record.specs.declared.record.Record.{Record as RecordOf};
ghost use Rattle.log_record.specs.declared.fault.RecordFault.TheVariants.{NotRecord as NoRecordAt};
ghost use Rattle.log_record.specs.Record.{IsRecord, batch_at, entries_at, of_batch, record_at, record_bytes, record_of};

use crate::fault::RecordFault;
use crate::record::{BATCH, MOST_VOTE, Record, START};
use host_ids::Entries;
use std::alloc::Global;
use wire_codec::{DecodeFault, read_8, read_32, read_64, read_entry};

/// The next `count` entries from a place on, the first of index `first`, and the place after them.
fn read_many(
    alloc: Global,
    bytes: &[u8],
    at: usize,
    first: u64,
    count: u32,
) -> Result<(Entries, usize), DecodeFault>
    requires there { at ≤ length bytes.now }
    requires room { first + count < 2 ^ 64 }
    ensures entries { IfOk result (λ r. many entry_at first count bytes.now at ≡ Ok r) }
    ensures counted { IfOk result (λ r. length r.0 ≡ count) }
    ensures within { IfOk result (λ r. r.1 ≤ length bytes.now) }
    ensures not_envelope { (place : ℕ) → IsErrOf result (RefusedAt place) → many entry_at first count bytes.now at ≡ Err place }
{
    let mut entries = Vec::new(alloc);
    let mut next = at;
    for read in 0..count {
        let (entry, after) = read_entry(alloc, bytes, next, first + u64::from(read))?;
        entries.push(entry)?;
        next = after;
    }
    Ok((Entries::from_vec(entries), next))
}

/// The number of entries at a place and the entries, the first of index `first`, and the place after
/// them.
fn read_entries(
    alloc: Global,
    bytes: &[u8],
    at: usize,
    first: u64,
) -> Result<(Entries, usize), DecodeFault>
    requires { at ≤ length bytes.now }
    ensures entries { IfOk result (λ r. entries_at first bytes.now at ≡ Ok ((length r.0, r.0), r.1)) }
    ensures within { IfOk result (λ r. r.1 ≤ length bytes.now) }
    ensures not_envelope { (place : ℕ) → IsErrOf result (RefusedAt place) → entries_at first bytes.now at ≡ Err place }
{
    let most = (u64::MAX - first).min(u64::from(u32::MAX)) as u32;
    let count = read_32(bytes, at, 0, most)?;
    read_many(alloc, bytes, at + 4, first, count)
}

/// The batch after a tag, and the place after it.
fn read_batch(alloc: Global, bytes: &[u8]) -> Result<(Record, usize), DecodeFault>
    requires { 1 ≤ length bytes.now }
    ensures batch { IfOk result (λ r. made of_batch batch_at bytes.now 1 ≡ Ok r) }
    ensures within { IfOk result (λ r. r.1 ≤ length bytes.now) }
    ensures not_envelope { (place : ℕ) → IsErrOf result (RefusedAt place) → made of_batch batch_at bytes.now 1 ≡ Err place }
{
    let term = read_64(bytes, 1, 0, u64::MAX)?;
    let vote = read_8(bytes, 9, 0, MOST_VOTE)?;
    let commit = read_64(bytes, 10, 0, u64::MAX)?;
    let front = read_64(bytes, 18, 0, u64::MAX)?;
    let front_term = read_64(bytes, 26, 0, u64::MAX)?;
    let first = read_64(bytes, 34, 0, u64::MAX)?;
    let (entries, next) = read_entries(alloc, bytes, 42, first)?;
    let batch = Record::Batch {
        term,
        vote,
        commit,
        front,
        front_term,
        first,
        entries,
    };
    Ok((batch, next))
}

/// The record at the beginning of some bytes, and the place after it.
fn read_front(alloc: Global, bytes: &[u8]) -> Result<(Record, usize), DecodeFault>
    ensures record { IfOk result (λ r. record_at bytes.now 0 ≡ Ok r) }
    ensures within { IfOk result (λ r. r.1 ≤ length bytes.now) }
    ensures not_envelope { (place : ℕ) → IsErrOf result (RefusedAt place) → record_at bytes.now 0 ≡ Err place }
{
    let tag = read_8(bytes, 0, BATCH, START)?;
    if tag == BATCH {
        return read_batch(alloc, bytes);
    }
    let number = read_64(bytes, 1, 0, u64::MAX)?;
    Ok((Record::Start { number }, 9))
}

/// The record that has these bytes, read from the front on.
#[tactic(auto, unfolding(crate::specs::Record::record_of))]
fn read_whole(alloc: Global, bytes: &[u8]) -> Result<Record, RecordFault>
    ensures record { IfOk result (λ r. record_of bytes.now ≡ Ok r) }
    ensures not_record { (at : ℕ) → IsErrOf result (NoRecordAt at) → record_of bytes.now ≡ Err at }
{
    let (record, next) = read_front(alloc, bytes)?;
    if next < bytes.len() {
        return Err(RecordFault::NotRecord { at: next });
    }
    Ok(record)
}

/// The record that has these bytes.
///
/// `NotRecord` comes exactly where no record has them.
pub fn read_record(alloc: Global, bytes: &[u8]) -> Result<Record, RecordFault>
    ensures record { IfOk result (λ r. record_of bytes.now ≡ Ok r) }
    ensures spelt { IfOk result (λ r. IsRecord r × (bytes.now ≡ record_bytes r)) }
    ensures back { (r : RecordOf) → IsRecord r → bytes.now ≡ record_bytes r → IfOk result (λ s. s ≡ r) }
    ensures not_record { (at : ℕ) → IsErrOf result (NoRecordAt at) → record_of bytes.now ≡ Err at }
    ensures none { (at : ℕ) (r : RecordOf) → IsErrOf result (NoRecordAt at) → IsRecord r → bytes.now ≡ record_bytes r → ⊥ }
    ensures longest { (at : ℕ) → IsErrOf result (NoRecordAt at) → IsLongestFront IsRecord record_bytes bytes.now at }
{
    read_whole(alloc, bytes)
}
