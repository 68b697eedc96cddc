ghost use Rattle.std.specs.Prelude.{◌≡◌, ◌≤◌, ◌<◌, ◌^◌, ◌&&◌, IfOk, length, nat_le};
ghost use Rattle.std.specs.List.{flat_map};
ghost use Rattle.wire_codec.specs.Entry.{command_of, entry_bytes};
ghost use Rattle.log_record.specs.Durable.{batch_record, is_small};
ghost use Rattle.log_record.specs.Record.{most_entries};
ghost use Rattle.log_record.specs.declared.record.TheConstants.{MOST_VOTE};

use crate::record::{MOST_VOTE, Record};
use host_ids::{Batch, Entry, NoMemory, Proposal};
use wire_types::are_entries;

/// How many bytes a batch's record has before its entries.
const HEAD: u64 = 46;

/// How many bytes an entry has beside its command.
const ENTRY: u64 = 51;

/// The greatest number of bytes that a record may have.
const MOST_BYTES: u64 = 4_294_967_295;

/// The record of a batch. Where the batch's entries are shared it takes no memory, and the only error
/// is that there are too many copies to count them; else they are copied, and memory may run out.
pub fn record_of(batch: &Batch) -> Result<Record, NoMemory>
    ensures { IfOk result (λ r. r ≡ batch_record batch.now) }
{
    Ok(Record::Batch {
        term: batch.term,
        vote: batch.vote,
        commit: batch.commit,
        front: batch.front,
        front_term: batch.front_term,
        first: batch.first,
        entries: batch.entries.copy()?,
    })
}

/// Whether a batch's record is well formed and has fewer than 2^32 bytes.
pub(crate) fn is_small_batch(batch: &Batch) -> bool
    requires { 1 ≤ batch.now.first }
    ensures { result ≡ is_small (batch_record batch.now) }
{
    let entries = batch.entries.items();
    if !has_room(batch, entries.len() as u64) {
        return false;
    }
    are_entries(batch.first - 1, entries) && fit_in(entries, MOST_BYTES - HEAD)
}

/// Whether a batch has a host's vote, or none, and `count` entries may stand from its first index on.
fn has_room(batch: &Batch, count: u64) -> bool
    ensures { result ≡ (nat_le batch.now.vote MOST_VOTE && nat_le count (most_entries batch.now.first)) }
{
    batch.vote <= MOST_VOTE && count <= MOST_BYTES.min(u64::MAX - batch.first)
}

/// Whether the entries have at most `room` bytes.
fn fit_in(entries: &[Entry], room: u64) -> bool
    ensures { result ≡ nat_le (length (flat_map entry_bytes entries.now)) room }
{
    let mut left = room;
    for entry in entries {
        let size = size_of(entry);
        if left < size {
            return false;
        }
        left -= size;
    }
    true
}

/// How many bytes an entry has.
fn size_of(entry: &Entry) -> u64
    ensures { result ≡ length (entry_bytes entry.now) }
{
    ENTRY + command_size(&entry.proposal)
}

/// How many bytes the command of a proposal has, 0 where there is none.
fn command_size(proposal: &Proposal) -> u64
    ensures size { result ≡ length (command_of proposal.now) }
    ensures small { result < 2 ^ 63 }
{
    match proposal {
        Proposal::Plain { command } => command.bytes().len() as u64,
        Proposal::Session {
            client: _,
            series: _,
            responded: _,
            command,
        } => command.bytes().len() as u64,
        Proposal::Blank => 0,
        Proposal::Register { client: _ } => 0,
        Proposal::Close { client: _ } => 0,
    }
}
