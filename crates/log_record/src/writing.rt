ghost use Rattle.std.specs.Prelude.{◌≡◌, ◌++◌, ◌<◌, ◌^◌, ℕ, true, IfOk, OnOk, length};
ghost use Rattle.std.specs.List.{flat_map, list_all};
ghost use Rattle.wire_codec.specs.Entry.{entry_bytes, fits};
ghost use Rattle.wire_codec.specs.Reading.{number_bytes};
ghost use Rattle.wire_types.specs.Grammar.{is_entry};
ghost use Rattle.log_record.specs.Record.{fits_head, fits_record, head_bytes, is_record, record_bytes};

use crate::record::{BATCH, Record, START};
use host_ids::{Entry, NoMemory};
use std::alloc::Global;
use wire_codec::{write_32, write_64, write_entry};

/// Adds the number of entries and the entries.
fn put_entries(out: &mut Vec<u8>, entries: &[Entry]) -> Result<(), NoMemory>
    requires formed { list_all is_entry entries.now ≡ true }
    requires few { length entries.now < 2 ^ 32 }
    ensures bytes { OnOk result (out.new.items ≡ out.old.items ++ (number_bytes 4 (length entries.now) ++ flat_map entry_bytes entries.now)) }
    ensures fits { OnOk result (list_all fits entries.now ≡ true) }
{
    write_32(out, entries.len() as u32)?;
    for entry in entries {
        write_entry(out, entry)?;
    }
    Ok(())
}

/// Adds the tag of a batch, and its numbers before that of its entries.
fn put_head(
    out: &mut Vec<u8>,
    term: u64,
    vote: u8,
    commit: u64,
    front: u64,
    front_term: u64,
    first: u64,
) -> Result<(), NoMemory>
    ensures bytes { OnOk result (out.new.items ≡ out.old.items ++ head_bytes term vote commit front front_term first) }
    ensures fits { fits_head term commit front front_term first ≡ true }
{
    out.push(BATCH)?;
    write_64(out, term)?;
    out.push(vote)?;
    write_64(out, commit)?;
    write_64(out, front)?;
    write_64(out, front_term)?;
    write_64(out, first)
}

/// Adds the bytes of a well-formed record.
pub(crate) fn put_record(out: &mut Vec<u8>, record: &Record) -> Result<(), NoMemory>
    requires { is_record record.now ≡ true }
    ensures bytes { OnOk result (out.new.items ≡ out.old.items ++ record_bytes record.now) }
    ensures fits { OnOk result (fits_record record.now ≡ true) }
{
    match record {
        Record::Batch {
            term,
            vote,
            commit,
            front,
            front_term,
            first,
            entries,
        } => {
            put_head(out, *term, *vote, *commit, *front, *front_term, *first)?;
            put_entries(out, entries.items())
        }
        Record::Start { number } => {
            out.push(START)?;
            write_64(out, *number)
        }
    }
}

/// The bytes of a well-formed record. The only error is `NoMemory`.
///
/// A batch has 46 bytes and those of its entries, a start 9. They stand for that record alone: each of
/// its numbers fits in its field.
pub fn write_record(alloc: Global, record: &Record) -> Result<Vec<u8>, NoMemory>
    requires { is_record record.now ≡ true }
    ensures bytes { IfOk result (λ b. b.items ≡ record_bytes record.now) }
    ensures fits { OnOk result (fits_record record.now ≡ true) }
{
    let mut out = Vec::new(alloc);
    put_record(&mut out, record)?;
    Ok(out)
}
