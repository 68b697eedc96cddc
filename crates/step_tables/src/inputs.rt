use crate::flaw::Flaw;
use crate::words::Words;
use host_ids::{Entries, Entry, Key, Proposal, Text};
use raft_core::{Chunk, Input};
use std::alloc::Global;
use wire_types::{Body, Envelope};

/// The most entries of an Append.
const MOST_ENTRIES: usize = 64;

/// The key of a blank entry.
const NO_KEY: Key = Key {
    host: 0,
    start: 0,
    serial: 0,
};

/// `index I last T piece N of C size S bytes B`: a piece of this term.
pub fn piece_in(alloc: Global, words: &mut Words<'_>, term: u64) -> Result<Chunk, Flaw> {
    let index = words.named("index")?;
    let last_term = words.named("last")?;
    let number = words.named_count("piece")?;
    let count = words.named_count("of")?;
    let size = words.named_count("size")?;
    words.key("bytes")?;
    let bytes = Text::new(alloc, words.word().as_bytes())?;
    Ok(Chunk {
        term,
        index,
        last_term,
        number,
        count,
        size,
        bytes,
    })
}

/// Blank entries of the terms that are left, from after an index on.
fn blanks_in(alloc: Global, words: &mut Words<'_>, prev: u64) -> Result<Entries, Flaw> {
    let mut entries = Vec::new(alloc);
    let mut index = prev;
    for _ in 0..MOST_ENTRIES {
        if words.is_done() {
            break;
        }
        index = index.saturating_add(1);
        entries.push(Entry {
            index,
            term: words.number()?,
            key: NO_KEY,
            proposal: Proposal::Blank,
        })?;
    }
    Ok(Entries::from_vec(entries))
}

/// `prev P term T commit C entries T ..`.
fn append_in(alloc: Global, words: &mut Words<'_>) -> Result<Body, Flaw> {
    let prev = words.named("prev")?;
    let prev_term = words.named("term")?;
    let commit = words.named("commit")?;
    words.key("entries")?;
    let entries = blanks_in(alloc, words, prev)?;
    Ok(Body::Append {
        prev,
        prev_term,
        commit,
        entries,
    })
}

fn snap_chunk_in(alloc: Global, words: &mut Words<'_>) -> Result<Body, Flaw> {
    let Chunk {
        index,
        last_term,
        number,
        count,
        size,
        bytes,
        ..
    } = piece_in(alloc, words, 0)?;
    Ok(Body::SnapChunk {
        index,
        last_term,
        number,
        count,
        size,
        bytes,
    })
}

/// `index I want W whole B`.
fn snap_reply_in(words: &mut Words<'_>) -> Result<Body, Flaw> {
    let index = words.named("index")?;
    let want = words.named_count("want")?;
    let whole = words.named_flag("whole")?;
    Ok(Body::SnapReply { index, want, whole })
}

/// What an envelope of a request says.
fn request_in(verb: &str, words: &mut Words<'_>) -> Result<Body, Flaw> {
    let key = words.request()?;
    match verb {
        "propose" => Ok(Body::Propose {
            key,
            proposal: Proposal::Register { client: 1 },
        }),
        "readask" => Ok(Body::ReadAsk { key }),
        "readanswer" => {
            let index = words.named("index")?;
            Ok(Body::ReadAnswer { key, index })
        }
        _ => Err(Flaw::Verb),
    }
}

/// What an envelope says.
fn body_in(alloc: Global, words: &mut Words<'_>) -> Result<Body, Flaw> {
    let verb = words.word();
    match verb {
        "vote" => {
            let last = words.named("last")?;
            let last_term = words.named("term")?;
            Ok(Body::Vote { last, last_term })
        }
        "votereply" => Ok(Body::VoteReply {
            granted: words.named_flag("granted")?,
        }),
        "append" => append_in(alloc, words),
        "appendreply" => {
            let ok = words.named_flag("ok")?;
            let index = words.named("index")?;
            Ok(Body::AppendReply { ok, index })
        }
        "beat" => {
            let commit = words.named("commit")?;
            let round = words.named("round")?;
            Ok(Body::Beat { commit, round })
        }
        "beatreply" => Ok(Body::BeatReply {
            round: words.named("round")?,
        }),
        "snapchunk" => snap_chunk_in(alloc, words),
        "snapreply" => snap_reply_in(words),
        _ => request_in(verb, words),
    }
}

/// `F term T ..`: an envelope from a host to this one.
fn envelope_in(alloc: Global, me: u8, words: &mut Words<'_>) -> Result<Input, Flaw> {
    let from = words.host()?;
    let term = words.named("term")?;
    let body = body_in(alloc, words)?;
    let envelope = Envelope {
        from,
        to: me,
        group: 1,
        term,
        body,
    };
    Ok(Input::Envelope { envelope })
}

/// `TO term T ..`: a piece that is to be sent.
fn chunk_in(alloc: Global, words: &mut Words<'_>) -> Result<Input, Flaw> {
    let to = words.host()?;
    let term = words.named("term")?;
    let chunk = piece_in(alloc, words, term)?;
    Ok(Input::Chunk { to, chunk })
}

/// The input that begins with this word.
pub fn input_in(alloc: Global, me: u8, verb: &str, words: &mut Words<'_>) -> Result<Input, Flaw> {
    match verb {
        "timeout" => Ok(Input::Timeout),
        "beat" => Ok(Input::Beat),
        "from" => envelope_in(alloc, me, words),
        "propose" => Ok(Input::Propose {
            key: words.request()?,
            proposal: Proposal::Register { client: 1 },
        }),
        "ask" => Ok(Input::Ask {
            key: words.request()?,
        }),
        "chunk" => chunk_in(alloc, words),
        "compact" => Ok(Input::Compact {
            index: words.number()?,
        }),
        "installed" => {
            let index = words.number()?;
            let term = words.named("term")?;
            Ok(Input::Installed { index, term })
        }
        _ => Err(Flaw::Verb),
    }
}
