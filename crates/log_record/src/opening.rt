ghost use Rattle.std.specs.Prelude.{◌≡◌, ◌+◌, ◌<◌, ℕ, List, Some, None, Ok, Err, true, IfOk, IfSome, IsErrOf, length};
ghost use Rattle.log_record.specs.declared.fault.StoreFault.TheVariants.{BadStore as BadStoreAt, Failed as FailedDisk};
ghost use Rattle.log_record.specs.Record.{is_record};
ghost use Rattle.log_record.specs.Store.{IsWhole, begins, gated_at, store_of};

use crate::fault::{RecordFault, StoreFault};
use crate::reached::Reached;
use crate::reading::read_record;
use crate::record::Record;
use host_ids::NoMemory;
use std::alloc::Global;
use wire_codec::{read_32, read_text};

/// The letters `NHLOG001`, with which a log file begins.
const HEADER: [u8; 8] = [0x4e, 0x48, 0x4c, 0x4f, 0x47, 0x30, 0x30, 0x31];

/// The records of a file, the place of its first gate that isn't open, and what the records reach.
#[derive(Drop)]
pub(crate) struct Opened {
    pub(crate) records: Vec<Record>,
    pub(crate) gate: usize,
    pub(crate) reached: Reached,
}

/// Whether bytes begin with the header and have a first gate.
fn begins(bytes: &[u8]) -> bool
    ensures { result ≡ begins bytes.now }
{
    8 < bytes.len() && bytes.starts_with(&HEADER)
}

/// The record after the gate at a place, with the place of the next gate, if both are there. The only
/// error is `NoMemory`.
fn read_gated(alloc: Global, bytes: &[u8], at: usize) -> Result<Option<(Record, usize)>, NoMemory>
    requires { at < length bytes.now }
    ensures gated { IfOk result (λ o. o ≡ gated_at bytes.now at) }
    ensures within { IfOk result (λ o. IfSome o (λ r. (at < r.1) × (r.1 < length bytes.now) × (is_record r.0 ≡ true))) }
{
    let Ok(size) = read_32(bytes, at + 1, 0, u32::MAX) else {
        return Ok(None);
    };
    let Ok(text) = read_text(bytes, at + 5, size as usize) else {
        return Ok(None);
    };
    let next = at + 5 + size as usize;
    if bytes.len() <= next {
        return Ok(None);
    }
    match read_record(alloc, text) {
        Ok(record) => Ok(Some((record, next))),
        Err(RecordFault::NotRecord { .. }) => Ok(None),
        Err(RecordFault::NoMemory) => Err(NoMemory),
    }
}

/// The records that a file's bytes hold.
///
/// `BadStore` comes exactly where the bytes are no such file: with place 0 where the header or the
/// first gate is missing, and else with that of the first open gate after which no whole record and
/// next gate stand, or one that may not follow.
pub(crate) fn read_records(alloc: Global, file: u64, bytes: &[u8]) -> Result<Opened, StoreFault>
    ensures records { IfOk result (λ o. store_of file bytes.now ≡ Ok (o.records.items, o.gate)) }
    ensures whole { IfOk result (λ o. IsWhole file bytes.now o.records.items o.gate o.reached) }
    ensures bad_store { (f at : ℕ) → IsErrOf result (BadStoreAt f at) → (f ≡ file) × (store_of file bytes.now ≡ Err at) }
    ensures never_failed { IsErrOf result FailedDisk → ⊥ }
{
    if !begins(bytes) {
        return Err(StoreFault::BadStore { file, at: 0 });
    }
    let mut opened = Opened {
        records: Vec::new(alloc),
        gate: 8,
        reached: Reached::new(),
    };
    while bytes[opened.gate] == 1 {
        let refused = StoreFault::BadStore {
            file,
            at: opened.gate as u64,
        };
        let Some((record, next)) = read_gated(alloc, bytes, opened.gate)? else {
            return Err(refused);
        };
        if !opened.reached.follows(file, &record) {
            return Err(refused);
        }
        opened.reached.take(file, &record);
        opened.records.push(record)?;
        opened.gate = next;
    }
    Ok(opened)
}
