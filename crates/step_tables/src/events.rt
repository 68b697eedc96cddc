use crate::flaw::Flaw;
use crate::inputs::piece_in;
use crate::replicas::add_notes;
use crate::words::Words;
use group_world::Lane;
use host_ids::{Key, Proposal};
use raft_core::{Chunk, LaneEvent, LaneFault, Note, Role};
use std::alloc::Global;
use wire_types::{is_key, is_piece, is_request};

/// The greatest index.
const MOST: u64 = 1 << 62;

/// What is seen of an event: its notes, or why it is refused.
fn told(alloc: Global, done: Result<Vec<Note>, LaneFault>) -> Result<String, Flaw> {
    let mut text = String::new(alloc);
    match done {
        Ok(notes) => add_notes(alloc, &mut text, &notes)?,
        Err(LaneFault::NotMember) => text.push_str("refused: not member\n")?,
        Err(LaneFault::IsDown) => text.push_str("refused: is down\n")?,
        Err(LaneFault::IsUp) => text.push_str("refused: is up\n")?,
        Err(LaneFault::NoEnvelope) => text.push_str("refused: no envelope\n")?,
        Err(LaneFault::NotPending { pending }) => {
            text.push_str(format!(in alloc; "refused: not pending, but {pending}\n")?.as_str())?
        }
        Err(LaneFault::NotRipe { ripe }) => {
            text.push_str(format!(in alloc; "refused: not ripe, but {ripe}\n")?.as_str())?
        }
        Err(LaneFault::NoMemory) => return Err(Flaw::NoMemory),
    }
    Ok(text)
}

/// A piece is sent, if the host is none of the voters, or may send it.
fn send(alloc: Global, lane: &mut Lane, host: u8, to: u8, chunk: Chunk) -> Result<String, Flaw> {
    if !lane.voters().contains(&host) {
        return told(alloc, lane.act(LaneEvent::Chunk { host, to, chunk }));
    }
    let Chunk {
        index,
        last_term,
        number,
        count,
        size,
        ..
    } = &chunk;
    let is_spelled = is_piece(*index, *last_term, *number, *count, *size, &chunk.bytes);
    if !lane.voters().contains(&to) || to == host || !is_spelled || *index > MOST {
        return Err(Flaw::Given);
    }
    if chunk.term < 1 || lane.term(host) < chunk.term {
        return Err(Flaw::Given);
    }
    told(alloc, lane.act(LaneEvent::Chunk { host, to, chunk }))
}

/// A snapshot was put in place, if the host is none of the voters, or received it and may do so.
fn install(
    alloc: Global,
    lane: &mut Lane,
    host: u8,
    index: u64,
    term: u64,
) -> Result<String, Flaw> {
    if !lane.voters().contains(&host) {
        return told(alloc, lane.act(LaneEvent::Installed { host, index, term }));
    }
    let (there, of_term) = match lane.inbox(host) {
        None => return Err(Flaw::Given),
        Some(received) => (received.index, received.term),
    };
    if there != index || of_term != term {
        return Err(Flaw::Given);
    }
    if there <= lane.commit(host) || lane.role(host) != Role::Follower {
        return Err(Flaw::Given);
    }
    let event = LaneEvent::Installed {
        host,
        index: there,
        term: of_term,
    };
    told(alloc, lane.act(event))
}

/// A proposal is asked, if its key is one.
fn propose(alloc: Global, lane: &mut Lane, host: u8, key: Key) -> Result<String, Flaw> {
    let proposal = Proposal::Register { client: 1 };
    if !is_request(&key, &proposal) {
        return Err(Flaw::Given);
    }
    let event = LaneEvent::Propose {
        host,
        key,
        proposal,
    };
    told(alloc, lane.act(event))
}

/// A read is asked, if its key is one.
fn ask(alloc: Global, lane: &mut Lane, host: u8, key: Key) -> Result<String, Flaw> {
    if !is_key(&key) {
        return Err(Flaw::Given);
    }
    told(alloc, lane.act(LaneEvent::Ask { host, key }))
}

/// A batch is taken.
fn take(alloc: Global, lane: &mut Lane, host: u8) -> Result<String, Flaw> {
    told(alloc, lane.act(LaneEvent::Ready { host }))
}

/// A batch was saved.
fn hand_back(alloc: Global, lane: &mut Lane, host: u8, id: u64) -> Result<String, Flaw> {
    told(alloc, lane.act(LaneEvent::Saved { host, id }))
}

/// The number of a host's pending batch.
fn pending(lane: &Lane, host: u8) -> Option<u64> {
    match lane.batch(host) {
        None => None,
        Some(batch) => Some(batch.id),
    }
}

/// A batch is taken, and was saved; what is seen of the second, where there is a batch.
fn save(alloc: Global, lane: &mut Lane, host: u8) -> Result<String, Flaw> {
    let seen = take(alloc, lane, host)?;
    match pending(lane, host) {
        None => Ok(seen),
        Some(id) => hand_back(alloc, lane, host, id),
    }
}

/// `H TO term T ..`.
fn send_in(alloc: Global, words: &mut Words<'_>, lane: &mut Lane) -> Result<String, Flaw> {
    let host = words.host()?;
    let to = words.host()?;
    let term = words.named("term")?;
    let chunk = piece_in(alloc, words, term)?;
    send(alloc, lane, host, to, chunk)
}

/// `H I term T`.
fn install_in(alloc: Global, words: &mut Words<'_>, lane: &mut Lane) -> Result<String, Flaw> {
    let host = words.host()?;
    let index = words.number()?;
    let term = words.named("term")?;
    install(alloc, lane, host, index, term)
}

/// The event that begins with this word; what is seen of it.
pub fn event_in(
    alloc: Global,
    verb: &str,
    words: &mut Words<'_>,
    lane: &mut Lane,
) -> Result<String, Flaw> {
    match verb {
        "chunk" => return send_in(alloc, words, lane),
        "installed" => return install_in(alloc, words, lane),
        "deliver" => {
            let number = words.number()?;
            return told(alloc, lane.act(LaneEvent::Deliver { number }));
        }
        _ => {}
    }
    let host = words.host()?;
    match verb {
        "timeout" => told(alloc, lane.act(LaneEvent::Timeout { host })),
        "beat" => told(alloc, lane.act(LaneEvent::Beat { host })),
        "ready" => take(alloc, lane, host),
        "save" => save(alloc, lane, host),
        "propose" => propose(alloc, lane, host, words.request()?),
        "ask" => ask(alloc, lane, host, words.request()?),
        "down" => told(alloc, lane.act(LaneEvent::Down { host })),
        "saved" => {
            let id = words.number()?;
            hand_back(alloc, lane, host, id)
        }
        "compact" => {
            let index = words.number()?;
            told(alloc, lane.act(LaneEvent::Compact { host, index }))
        }
        _ => Err(Flaw::Verb),
    }
}
