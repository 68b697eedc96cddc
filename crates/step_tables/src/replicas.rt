use crate::flaw::Flaw;
use crate::inputs::input_in;
use crate::shown::{batch_text, envelope_text, note_text, state_text};
use crate::words::Words;
use raft_core::{CoreFault, Note, Replica};
use std::alloc::Global;

/// As many envelopes are shown after a line.
const MOST_SENT: usize = 1000;

/// Adds the words of notes.
pub fn add_notes(alloc: Global, text: &mut String, notes: &[Note]) -> Result<(), Flaw> {
    for note in notes {
        text.push_str(note_text(alloc, note)?.as_str())?;
        text.push_str("\n")?;
    }
    Ok(())
}

/// Adds what a replica sent.
fn add_sent(alloc: Global, text: &mut String, replica: &mut Replica) -> Result<(), Flaw> {
    for _ in 0..MOST_SENT {
        match replica.sent() {
            Some(envelope) => text.push_str(envelope_text(alloc, &envelope)?.as_str())?,
            None => return Ok(()),
        }
    }
    Ok(())
}

/// A batch is taken; what is seen of it.
fn take(alloc: Global, replica: &mut Replica) -> Result<String, Flaw> {
    match replica.ready()? {
        None => Ok(String::from_str(alloc, "no batch\n")?),
        Some(batch) => batch_text(alloc, &batch),
    }
}

/// A batch was saved; what is seen of it.
fn hand_back(alloc: Global, replica: &mut Replica, id: u64) -> Result<String, Flaw> {
    let mut text = String::new(alloc);
    match replica.saved(id) {
        Ok(notes) => add_notes(alloc, &mut text, &notes)?,
        Err(CoreFault::NotPending { pending }) => {
            text.push_str(format!(in alloc; "not pending, but {pending}\n")?.as_str())?;
        }
        Err(CoreFault::NoMemory) => return Err(Flaw::NoMemory),
    }
    Ok(text)
}

/// A batch is taken, and was saved; what is seen of the second.
fn save(alloc: Global, replica: &mut Replica) -> Result<String, Flaw> {
    match replica.ready()? {
        None => Ok(String::from_str(alloc, "no batch\n")?),
        Some(batch) => hand_back(alloc, replica, batch.id),
    }
}

/// An input is given, if it may be; what is noted.
fn give(
    alloc: Global,
    me: u8,
    verb: &str,
    words: &mut Words<'_>,
    replica: &mut Replica,
) -> Result<String, Flaw> {
    let input = input_in(alloc, me, verb, words)?;
    if !replica.is_within(&input) {
        return Err(Flaw::Given);
    }
    let notes = replica.step(input)?;
    let mut text = String::new(alloc);
    add_notes(alloc, &mut text, &notes)?;
    Ok(text)
}

/// Does what a line says; what is noted, or seen of a batch.
fn act(alloc: Global, me: u8, line: &str, replica: &mut Replica) -> Result<String, Flaw> {
    let mut words = Words::new(line);
    let verb = words.word();
    let text = match verb {
        "state" => String::new(alloc),
        "ready" => take(alloc, replica)?,
        "saved" => hand_back(alloc, replica, words.number()?)?,
        "save" => save(alloc, replica)?,
        _ => give(alloc, me, verb, &mut words, replica)?,
    };
    words.end()?;
    Ok(text)
}

/// Does what a line says. What is seen after it: notes or a batch, what is sent, and the state where it
/// isn't as it was shown last.
pub fn seen_after(
    alloc: Global,
    me: u8,
    line: &str,
    replica: &mut Replica,
    shown: &mut String,
) -> Result<String, Flaw> {
    let mut text = act(alloc, me, line, replica)?;
    add_sent(alloc, &mut text, replica)?;
    let state = state_text(alloc, replica)?;
    if state.as_str() != shown.as_str() {
        text.push_str(state.as_str())?;
        *shown = state;
    }
    Ok(text)
}
