ghost use Rattle.std.specs.Prelude.{◌≡◌, ◌<◌, ◌+◌, ◌^◌, length};
ghost use Rattle.wire_types.specs.Grammar.{is_host, is_group, is_key, is_command, are_fit_numbers, is_proposal, is_blank, is_request, is_no_key, is_entry, are_entries, is_append, is_piece, is_body, is_envelope};

use crate::envelope::{Body, Envelope};
use host_ids::{Entry, Key, MOST_COMMAND, MOST_SERIES, Proposal, Text};

/// The most entries of an append.
pub const MOST_ENTRIES: usize = 64;
/// The most bytes of a piece of a snapshot, and the greatest size by which one is cut.
pub const MOST_PIECE: u32 = 65_536;

/// Whether a number is that of a host, 1 to 9.
pub fn is_host(host: u8) -> bool
    ensures { result ≡ is_host host }
{
    1 <= host && host <= 9
}

/// Whether a number is that of a group, 1 to 64.
pub fn is_group(group: u8) -> bool
    ensures { result ≡ is_group group }
{
    1 <= group && group <= 64
}

/// Whether a key is one of a request: the host is 1 to 9, start and serial are at least 1.
pub fn is_key(key: &Key) -> bool
    ensures { result ≡ is_key key.now }
{
    is_host(key.host) && 1 <= key.start && 1 <= key.serial
}

/// Whether a text is a command's: it has 1 to 512 bytes.
pub fn is_command(text: &Text) -> bool
    ensures { result ≡ is_command text.now }
{
    let length = text.bytes().len();
    1 <= length && length <= MOST_COMMAND
}

/// Whether a client is at least 1, a series 1 to 2^64-3, and a responded value at most 2^64-3.
pub fn are_fit_numbers(client: u64, series: u64, responded: u64) -> bool
    ensures { result ≡ are_fit_numbers client series responded }
{
    1 <= client && 1 <= series && series <= MOST_SERIES && responded <= MOST_SERIES
}

/// Whether a proposal is well formed: a command has 1 to 512 bytes, and the numbers of a session's are in
/// their ranges.
pub fn is_proposal(proposal: &Proposal) -> bool
    ensures { result ≡ is_proposal proposal.now }
{
    match proposal {
        Proposal::Blank => true,
        Proposal::Plain { command } => is_command(command),
        Proposal::Session {
            client,
            series,
            responded,
            command,
        } => are_fit_numbers(*client, *series, *responded) && is_command(command),
        Proposal::Register { client } | Proposal::Close { client } => 1 <= *client,
    }
}

/// Whether a proposal is a blank.
fn is_blank(proposal: &Proposal) -> bool
    ensures { result ≡ is_blank proposal.now }
{
    match proposal {
        Proposal::Blank => true,
        Proposal::Plain { .. }
        | Proposal::Session { .. }
        | Proposal::Register { .. }
        | Proposal::Close { .. } => false,
    }
}

/// Whether a key and a proposal are a request: both are well formed, and the proposal is no blank.
pub fn is_request(key: &Key, proposal: &Proposal) -> bool
    ensures { result ≡ is_request key.now proposal.now }
{
    is_key(key) && is_proposal(proposal) && !is_blank(proposal)
}

/// Whether an entry is well formed, whatever its index: its term is at least 1, and it is a request or a
/// blank with the key of zeros.
pub fn is_entry(entry: &Entry) -> bool
    ensures { result ≡ is_entry entry.now }
{
    let key = &entry.key;
    let has_no_key = key.host == 0 && key.start == 0 && key.serial == 0;
    1 <= entry.term
        && ((is_blank(&entry.proposal) && has_no_key) || is_request(key, &entry.proposal))
}

/// Whether entries are well formed and the indices after `prev`, which lie below 2^64.
pub fn are_entries(prev: u64, entries: &[Entry]) -> bool
    requires room { prev + length entries.now < 2 ^ 64 }
    ensures { result ≡ are_entries prev entries.now }
{
    let mut last = prev;
    for entry in entries {
        last += 1;
        if entry.index != last || !is_entry(entry) {
            return false;
        }
    }
    true
}

/// Whether an append is well formed: the previous term is 0 where the previous index is 0, and it has at
/// most 64 entries, which are well formed and have the indices after the previous one, below 2^64.
fn is_append(prev: u64, prev_term: u64, entries: &[Entry]) -> bool
    ensures { result ≡ is_append prev prev_term entries.now }
{
    (prev != 0 || prev_term == 0)
        && entries.len() <= MOST_ENTRIES
        && entries.len() as u64 <= u64::MAX - prev
        && are_entries(prev, entries)
}

/// Whether a piece of a snapshot is well formed: the last term is 0 exactly where the index is 0, the
/// number of the piece is from 1 to the count, the count is at most 2^32-2, the size by which the snapshot
/// was cut is from 1 to 65,536, and the piece has at most 65,536 bytes.
pub fn is_piece(
    index: u64,
    last_term: u64,
    number: u32,
    count: u32,
    size: u32,
    bytes: &Text,
) -> bool
    ensures { result ≡ is_piece index last_term number count size bytes.now }
{
    (index == 0) == (last_term == 0)
        && 1 <= number
        && number <= count
        && count < u32::MAX
        && 1 <= size
        && size <= MOST_PIECE
        && bytes.bytes().len() <= MOST_PIECE as usize
}

/// Whether a body is well formed in an envelope of this term.
fn is_body(term: u64, body: &Body) -> bool
    ensures { result ≡ is_body term body.now }
{
    match body {
        Body::Vote { .. }
        | Body::VoteReply { .. }
        | Body::AppendReply { .. }
        | Body::Beat { .. }
        | Body::BeatReply { .. }
        | Body::SnapReply { .. } => 1 <= term,
        Body::Append {
            prev,
            prev_term,
            commit: _,
            entries,
        } => 1 <= term && is_append(*prev, *prev_term, entries.items()),
        Body::SnapChunk {
            index,
            last_term,
            number,
            count,
            size,
            bytes,
        } => 1 <= term && is_piece(*index, *last_term, *number, *count, *size, bytes),
        Body::Propose { key, proposal } => term == 0 && is_request(key, proposal),
        Body::ReadAsk { key } | Body::ReadAnswer { key, .. } => term == 0 && is_key(key),
    }
}

/// Whether an envelope is well formed: its two hosts are from 1 to 9 and differ, its group is from 1 to 64,
/// and its body is well formed. Its term is 0 for a proposal, a read and the answer to a read, and at least
/// 1 for every other kind.
pub fn is_envelope(envelope: &Envelope) -> bool
    ensures { result ≡ is_envelope envelope.now }
{
    is_host(envelope.from)
        && is_host(envelope.to)
        && envelope.from != envelope.to
        && is_group(envelope.group)
        && is_body(envelope.term, &envelope.body)
}
