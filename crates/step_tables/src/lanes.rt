use crate::events::event_in;
use crate::flaw::Flaw;
use crate::shown::{envelope_text, inbox_text, key_text, saving_text, state_line};
use crate::words::Words;
use group_world::Lane;
use host_ids::{Entry, Proposal};
use std::alloc::Global;

/// Adds the envelopes that are newer than this one, with their numbers.
fn add_newer(alloc: Global, text: &mut String, lane: &Lane, older: u64) -> Result<(), Flaw> {
    for number in older.saturating_add(1)..=lane.newest() {
        if let Some(envelope) = lane.envelope(number) {
            let said = envelope_text(alloc, envelope)?;
            text.push_str(format!(in alloc; "{number} {said}")?.as_str())?;
        }
    }
    Ok(())
}

/// The terms of a host's entries, each after a space.
fn terms_at(alloc: Global, lane: &Lane, host: u8) -> Result<String, Flaw> {
    let mut text = String::new(alloc);
    for index in lane.front(host).saturating_add(1)..=lane.last(host) {
        let term = lane.term_at(host, index).unwrap_or(0);
        text.push_str(format!(in alloc; " {term}")?.as_str())?;
    }
    Ok(text)
}

/// The terms of a host's entries, its inbox, and what is to be saved of it.
fn rest_at(alloc: Global, lane: &Lane, host: u8) -> Result<String, Flaw> {
    let mut text = terms_at(alloc, lane, host)?;
    text.push_str(inbox_text(alloc, lane.inbox(host))?.as_str())?;
    let saving = saving_text(alloc, lane.changed(host), lane.batch(host))?;
    text.push_str(saving.as_str())?;
    Ok(text)
}

/// The words of a host's state.
fn state_at(alloc: Global, lane: &Lane, host: u8) -> Result<String, Flaw> {
    let numbers = (lane.term(host), lane.commit(host), lane.ripe(host));
    let front = lane.front(host);
    let front_term = lane.term_at(host, front).unwrap_or(0);
    let rest = rest_at(alloc, lane, host)?;
    state_line(
        alloc,
        lane.role(host),
        numbers,
        (front, front_term),
        rest.as_str(),
    )
}

/// The key of an entry, or that it is a blank one.
fn entry_text(alloc: Global, entry: &Entry) -> Result<String, Flaw> {
    match entry.proposal {
        Proposal::Blank => Ok(String::from_str(alloc, "blank")?),
        _ => key_text(alloc, &entry.key),
    }
}

/// The decided list.
fn decided_text(alloc: Global, lane: &Lane) -> Result<String, Flaw> {
    let mut text = String::from_str(alloc, "decided")?;
    for entry in lane.decided() {
        let key = entry_text(alloc, entry)?;
        text.push_str(format!(in alloc; " {key}")?.as_str())?;
    }
    text.push_str("\n")?;
    Ok(text)
}

/// Whether the lane is faithful.
fn faith_text(alloc: Global, lane: &Lane) -> Result<String, Flaw> {
    let said = if lane.faithful() {
        "faithful\n"
    } else {
        "not faithful\n"
    };
    Ok(String::from_str(alloc, said)?)
}

/// Does what a line says, or only looks; what is seen of that.
fn sight_in(alloc: Global, words: &mut Words<'_>, lane: &mut Lane) -> Result<String, Flaw> {
    match words.word() {
        "state" => {
            let host = words.host()?;
            state_at(alloc, lane, host)
        }
        "decided" => decided_text(alloc, lane),
        "faith" => faith_text(alloc, lane),
        verb => event_in(alloc, verb, words, lane),
    }
}

/// Does what a line says. What is seen after it: notes or a refusal, and what is sent.
pub fn seen_after(alloc: Global, line: &str, lane: &mut Lane) -> Result<String, Flaw> {
    let older = lane.newest();
    let mut words = Words::new(line);
    let mut text = sight_in(alloc, &mut words, lane)?;
    words.end()?;
    add_newer(alloc, &mut text, lane, older)?;
    Ok(text)
}
