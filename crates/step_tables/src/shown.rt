use crate::flaw::Flaw;
use host_ids::{Batch, Entry, Key};
use raft_core::{Note, Received, Replica, Role};
use std::alloc::Global;
use wire_types::{Body, Envelope};

/// The terms of entries, each after a space.
fn terms_text(alloc: Global, entries: &[Entry]) -> Result<String, Flaw> {
    let mut text = String::new(alloc);
    for entry in entries {
        let term = entry.term;
        text.push_str(format!(in alloc; " {term}")?.as_str())?;
    }
    Ok(text)
}

/// A text of some bytes.
fn bytes_text(alloc: Global, bytes: &[u8]) -> Result<String, Flaw> {
    Ok(String::from_utf8_lossy(alloc, bytes)?)
}

/// The words of a request's key: its host and its number.
pub fn key_text(alloc: Global, key: &Key) -> Result<String, Flaw> {
    let (host, serial) = (key.host, key.serial);
    Ok(format!(in alloc; "{host}.{serial}")?)
}

/// A word, and the words of a request's key.
fn request_text(alloc: Global, word: &str, key: &Key) -> Result<String, Flaw> {
    let request = key_text(alloc, key)?;
    Ok(format!(in alloc; "{word} {request}")?)
}

/// A word, the words of a request's key, and an index.
fn read_text(alloc: Global, word: &str, key: &Key, index: u64) -> Result<String, Flaw> {
    let request = key_text(alloc, key)?;
    Ok(format!(in alloc; "{word} {request} index {index}")?)
}

/// The words of a note.
pub fn note_text(alloc: Global, note: &Note) -> Result<String, Flaw> {
    match note {
        Note::Leader { host, term } => Ok(format!(in alloc; "leader {host} term {term}")?),
        Note::Pending { host, id } => Ok(format!(in alloc; "pending {host} batch {id}")?),
        Note::Idle => Ok(String::from_str(alloc, "idle")?),
        Note::Dropped { key } => request_text(alloc, "dropped", key),
        Note::Confirmed { key, index, .. } => read_text(alloc, "confirmed", key, *index),
    }
}

/// The words of an Append.
fn append_text(
    alloc: Global,
    prev: u64,
    prev_term: u64,
    commit: u64,
    entries: &[Entry],
) -> Result<String, Flaw> {
    let terms = terms_text(alloc, entries)?;
    Ok(format!(in alloc; "append prev {prev} term {prev_term} commit {commit} entries{terms}")?)
}

/// The words of a piece of the snapshot of an index and a term, by its number and how many there are.
fn piece_text(
    alloc: Global,
    place: (u64, u64),
    which: (u32, u32),
    size: u32,
    bytes: &[u8],
) -> Result<String, Flaw> {
    let bytes = bytes_text(alloc, bytes)?;
    let (index, last_term) = place;
    let (number, count) = which;
    Ok(format!(in alloc;
        "snapchunk index {index} last {last_term} piece {number} of {count} size {size} bytes {bytes}"
    )?)
}

/// The words of what an envelope says.
fn body_text(alloc: Global, body: &Body) -> Result<String, Flaw> {
    match body {
        Body::Vote { last, last_term } => {
            Ok(format!(in alloc; "vote last {last} term {last_term}")?)
        }
        Body::VoteReply { granted } => Ok(format!(in alloc; "votereply granted {granted}")?),
        Body::Append {
            prev,
            prev_term,
            commit,
            entries,
        } => append_text(alloc, *prev, *prev_term, *commit, entries.items()),
        Body::AppendReply { ok, index } => {
            Ok(format!(in alloc; "appendreply ok {ok} index {index}")?)
        }
        Body::Beat { commit, round } => Ok(format!(in alloc;
            "beat commit {commit} round {round}"
        )?),
        Body::BeatReply { round } => Ok(format!(in alloc; "beatreply round {round}")?),
        Body::SnapChunk {
            index,
            last_term,
            number,
            count,
            size,
            bytes,
        } => {
            let (place, which) = ((*index, *last_term), (*number, *count));
            piece_text(alloc, place, which, *size, bytes.bytes())
        }
        Body::SnapReply { index, want, whole } => {
            Ok(format!(in alloc; "snapreply index {index} want {want} whole {whole}")?)
        }
        Body::Propose { key, .. } => request_text(alloc, "propose", key),
        Body::ReadAsk { key } => request_text(alloc, "readask", key),
        Body::ReadAnswer { key, index } => read_text(alloc, "readanswer", key, *index),
    }
}

/// The words of an envelope.
pub fn envelope_text(alloc: Global, envelope: &Envelope) -> Result<String, Flaw> {
    let body = body_text(alloc, &envelope.body)?;
    let (from, to, term) = (envelope.from, envelope.to, envelope.term);
    Ok(format!(in alloc; "from {from} to {to} term {term} {body}\n")?)
}

/// The words of a batch.
pub fn batch_text(alloc: Global, batch: &Batch) -> Result<String, Flaw> {
    let terms = terms_text(alloc, batch.entries.items())?;
    let (id, term, vote, commit) = (batch.id, batch.term, batch.vote, batch.commit);
    let (front, front_term, first) = (batch.front, batch.front_term, batch.first);
    Ok(format!(in alloc;
        "batch {id} term {term} vote {vote} commit {commit} front {front} of term {front_term} first {first} entries{terms}\n"
    )?)
}

fn role_word(role: Role) -> &'static str {
    match role {
        Role::Follower => "follower",
        Role::Candidate => "candidate",
        Role::Leader => "leader",
    }
}

/// A received snapshot, after a space.
pub fn inbox_text(alloc: Global, inbox: Option<&Received>) -> Result<String, Flaw> {
    match inbox {
        None => Ok(String::new(alloc)),
        Some(received) => {
            let bytes = bytes_text(alloc, received.bytes.bytes())?;
            let (index, term) = (received.index, received.term);
            Ok(format!(in alloc; " inbox {index} of term {term} bytes {bytes}")?)
        }
    }
}

/// Whether something is to be saved, and the pending batch, after a space.
pub fn saving_text(alloc: Global, changed: bool, pending: Option<&Batch>) -> Result<String, Flaw> {
    let mut text = String::new(alloc);
    if changed {
        text.push_str(" changed")?;
    }
    if let Some(batch) = pending {
        let id = batch.id;
        text.push_str(format!(in alloc; " pending {id}")?.as_str())?;
    }
    Ok(text)
}

/// The words of a state: role; term, commit index and ripe index; front and its term; and the rest.
pub fn state_line(
    alloc: Global,
    role: Role,
    numbers: (u64, u64, u64),
    front: (u64, u64),
    rest: &str,
) -> Result<String, Flaw> {
    let role = role_word(role);
    let (term, commit, ripe) = numbers;
    let (front, front_term) = front;
    Ok(format!(in alloc;
        "{role} term {term} commit {commit} ripe {ripe} front {front} of term {front_term} entries{rest}\n"
    )?)
}

/// The terms of a replica's entries, its inbox, and what is to be saved of it.
fn rest_text(alloc: Global, replica: &Replica) -> Result<String, Flaw> {
    let mut text = terms_text(alloc, replica.log().tail(0))?;
    text.push_str(inbox_text(alloc, replica.inbox())?.as_str())?;
    let saving = saving_text(alloc, replica.changed(), replica.pending())?;
    text.push_str(saving.as_str())?;
    Ok(text)
}

/// The words of a replica's state.
pub fn state_text(alloc: Global, replica: &Replica) -> Result<String, Flaw> {
    let numbers = (replica.term(), replica.commit(), replica.ripe());
    let log = replica.log();
    let front = (log.front(), log.term_or_zero(log.front()));
    let rest = rest_text(alloc, replica)?;
    state_line(alloc, replica.role(), numbers, front, rest.as_str())
}
