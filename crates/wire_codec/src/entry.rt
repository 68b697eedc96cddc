ghost use Rattle.std.specs.Prelude.{◌≡◌, ◌+◌, ◌-◌, ◌^◌, ◌<◌, ◌≤◌, ◌++◌, ◌==◌, ℕ, List, Bool, true, Ok, Err, IfOk, OnOk, IsErrOf, length, take, drop};
ghost use Rattle.wire_types.specs.Grammar.{is_entry, is_proposal};
ghost use Rattle.wire_codec.specs.Reading.{IsLongestFront, NoneStands, Stands, number_bytes};
ghost use Rattle.wire_codec.specs.Entry.{IsEntryAt, key_bytes, proposal_bytes, entry_bytes, key_at, proposal_at, entry_at, proposal_of, client_of, fits};
ghost use Rattle.host_ids.specs.declared.entry.Entry.{Entry as EntryOf};
ghost use Rattle.host_ids.specs.declared.proposal.TheConstants.{MOST_COMMAND};
ghost use Rattle.wire_codec.specs.declared.fault.DecodeFault.TheVariants.{NotEnvelope as RefusedAt};

use crate::fault::DecodeFault;
use crate::number::{read_8, read_16, read_64, read_text, write_16, write_64};
use host_ids::{Entry, Key, MOST_COMMAND, MOST_SERIES, NoMemory, Proposal, Text};
use std::alloc::Global;

/// What stands in place of a series where a client's session begins.
const REGISTER: u64 = MOST_SERIES + 1;

/// What stands in place of a series where a client's session ends.
const CLOSE: u64 = MOST_SERIES + 2;

/// Adds the bytes of a key, of which there are 17.
fn write_key(out: &mut Vec<u8>, key: &Key) -> Result<(), NoMemory>
    ensures bytes { OnOk result (out.new.items ≡ out.old.items ++ key_bytes key.now) }
    ensures fits { OnOk result ((key.now.start < 2 ^ 64) × (key.now.serial < 2 ^ 64)) }
{
    out.push(key.host)?;
    write_64(out, key.start)?;
    write_64(out, key.serial)
}

/// Adds the bytes of a proposal: its numbers, and the length and the bytes of its command.
fn write_numbers(
    out: &mut Vec<u8>,
    client: u64,
    series: u64,
    responded: u64,
    command: &[u8],
) -> Result<(), NoMemory>
    requires { length command.now ≤ MOST_COMMAND }
    ensures fits { client < 2 ^ 64 }
    ensures bytes { OnOk result (out.new.items ≡ out.old.items ++ (number_bytes 8 client ++ (number_bytes 8 series ++ (number_bytes 8 responded ++ (number_bytes 2 (length command.now) ++ command.now))))) }
{
    write_64(out, client)?;
    write_64(out, series)?;
    write_64(out, responded)?;
    write_16(out, command.len() as u16)?;
    out.extend_from_slice(command)?;
    Ok(())
}

/// Adds the bytes of a proposal.
fn write_proposal(out: &mut Vec<u8>, proposal: &Proposal) -> Result<(), NoMemory>
    requires { is_proposal proposal.now ≡ true }
    ensures bytes { OnOk result (out.new.items ≡ out.old.items ++ proposal_bytes proposal.now) }
    ensures fits { OnOk result (client_of proposal.now < 2 ^ 64) }
{
    match proposal {
        Proposal::Blank => write_numbers(out, 0, 0, 0, &[]),
        Proposal::Plain { command } => write_numbers(out, 0, 0, 0, command.bytes()),
        Proposal::Session {
            client,
            series,
            responded,
            command,
        } => write_numbers(out, *client, *series, *responded, command.bytes()),
        Proposal::Register { client } => write_numbers(out, *client, REGISTER, 0, &[]),
        Proposal::Close { client } => write_numbers(out, *client, CLOSE, 0, &[]),
    }
}

/// Adds the bytes of a well-formed entry, all but its index, to some bytes. A blank has 51.
///
/// What is written stands for that entry alone: each of its numbers fits in its field.
/// The only error is `NoMemory`, and nothing is said of what the vector holds then.
pub fn write_entry(out: &mut Vec<u8>, entry: &Entry) -> Result<(), NoMemory>
    requires { is_entry entry.now ≡ true }
    ensures bytes { OnOk result (out.new.items ≡ out.old.items ++ entry_bytes entry.now) }
    ensures fits { OnOk result (fits entry.now ≡ true) }
{
    write_64(out, entry.term)?;
    write_key(out, &entry.key)?;
    write_proposal(out, &entry.proposal)
}

/// The key at a place, or the key of zeros; it has 17 bytes.
fn read_key(bytes: &[u8], at: usize) -> Result<Key, DecodeFault>
    requires { at ≤ length bytes.now }
    ensures key { IfOk result (λ key. key_at 0 bytes.now at ≡ Ok (key, at + 17)) }
    ensures within { IfOk result (λ key. at + 17 ≤ length bytes.now) }
    ensures not_envelope { (place : ℕ) → IsErrOf result (RefusedAt place) → key_at 0 bytes.now at ≡ Err place }
{
    let host = read_8(bytes, at, 0, 9)?;
    let (least, most) = if host == 0 { (0, 0) } else { (1, u64::MAX) };
    let start = read_64(bytes, at + 1, least, most)?;
    let serial = read_64(bytes, at + 9, least, most)?;
    Ok(Key {
        host,
        start,
        serial,
    })
}

/// The proposal at a place, and the place after it: a blank, or one that isn't.
fn read_proposal(
    alloc: Global,
    bytes: &[u8],
    at: usize,
    blank: bool,
) -> Result<(Proposal, usize), DecodeFault>
    requires { at ≤ length bytes.now }
    ensures proposal { IfOk result (λ r. proposal_at blank bytes.now at ≡ Ok r) }
    ensures within { IfOk result (λ r. r.1 ≤ length bytes.now) }
    ensures not_envelope { (place : ℕ) → IsErrOf result (RefusedAt place) → proposal_at blank bytes.now at ≡ Err place }
{
    let client = read_64(bytes, at, 0, if blank { 0 } else { u64::MAX })?;
    let (least, most) = if client == 0 { (0, 0) } else { (1, u64::MAX) };
    let series = read_64(bytes, at + 8, least, most)?;
    let of_command = 1 <= series && series <= MOST_SERIES;
    let responded = read_64(bytes, at + 16, 0, if of_command { MOST_SERIES } else { 0 })?;
    let (least, most) = if blank || MOST_SERIES < series {
        (0, 0)
    } else {
        (1, MOST_COMMAND as u16)
    };
    let size = usize::from(read_16(bytes, at + 24, least, most)?);
    let command = read_text(bytes, at + 26, size)?;
    let proposal = proposal_of(alloc, blank, client, series, responded, command)?;
    Ok((proposal, at + 26 + size))
}

/// The proposal of these numbers and this command.
fn proposal_of(
    alloc: Global,
    blank: bool,
    client: u64,
    series: u64,
    responded: u64,
    command: &[u8],
) -> Result<Proposal, DecodeFault>
    ensures proposal { IfOk result (λ p. p ≡ proposal_of blank (client, (series, (responded, (length command.now, command.now))))) }
    ensures not_envelope { (place : ℕ) → IsErrOf result (RefusedAt place) → ⊥ }
{
    if blank {
        return Ok(Proposal::Blank);
    }
    if client == 0 {
        let command = Text::new(alloc, command)?;
        return Ok(Proposal::Plain { command });
    }
    if series <= MOST_SERIES {
        let command = Text::new(alloc, command)?;
        return Ok(Proposal::Session {
            client,
            series,
            responded,
            command,
        });
    }
    if series == REGISTER {
        return Ok(Proposal::Register { client });
    }
    Ok(Proposal::Close { client })
}

/// The entry of an index at a place, and the place after it, read part by part.
#[tactic(auto, unfolding(crate::specs::Entry::entry_at))]
fn read_parts(
    alloc: Global,
    bytes: &[u8],
    at: usize,
    index: u64,
) -> Result<(Entry, usize), DecodeFault>
    requires { at ≤ length bytes.now }
    ensures entry { IfOk result (λ r. entry_at index bytes.now at ≡ Ok r) }
    ensures not_envelope { (place : ℕ) → IsErrOf result (RefusedAt place) → entry_at index bytes.now at ≡ Err place }
{
    let term = read_64(bytes, at, 1, u64::MAX)?;
    let key = read_key(bytes, at + 8)?;
    let (proposal, next) = read_proposal(alloc, bytes, at + 25, key.host == 0)?;
    let entry = Entry {
        index,
        term,
        key,
        proposal,
    };
    Ok((entry, next))
}

/// The entry of an index at a place, and the place after it.
///
/// `NotEnvelope` comes only where no well-formed entry's bytes stand there, and then that or `NoMemory`
/// does. Its place is after the longest front that begins some entry's bytes.
pub fn read_entry(
    alloc: Global,
    bytes: &[u8],
    at: usize,
    index: u64,
) -> Result<(Entry, usize), DecodeFault>
    requires { at ≤ length bytes.now }
    ensures entry { IfOk result (λ r. entry_at index bytes.now at ≡ Ok r) }
    ensures stands { IfOk result (λ r. Stands (IsEntryAt index) entry_bytes bytes.now at r.0 r.1) }
    ensures back { (e : EntryOf) (rest : List ℕ) → IsEntryAt index e → drop at bytes.now ≡ entry_bytes e ++ rest → IfOk result (λ r. (r.0 ≡ e) × (r.1 ≡ at + length (entry_bytes e))) }
    ensures not_envelope { (place : ℕ) → IsErrOf result (RefusedAt place) → entry_at index bytes.now at ≡ Err place }
    ensures none { (place : ℕ) → IsErrOf result (RefusedAt place) → NoneStands (IsEntryAt index) entry_bytes (drop at bytes.now) }
    ensures longest { (place : ℕ) → IsErrOf result (RefusedAt place) → (at ≤ place) × IsLongestFront (IsEntryAt index) entry_bytes (drop at bytes.now) (place - at) }
{
    read_parts(alloc, bytes, at, index)
}
