use crate::fault::Flaw;
use host_ids::{Proposal, Text};
use object_model::{Ending, Mark, Placed, What, command_of, number_of, query_of};
use std::alloc::Global;

/// A printed line that isn't one.
#[derive(Clone, Copy, Debug, PartialEq, Eq)]
pub struct Misprint {
    /// How many lines stand before it.
    pub before: usize,
    /// What is wrong with it.
    pub flaw: Flaw,
}

/// The first word, which may not be empty, and what stands after it, which may not either.
fn cut(text: &str) -> Result<(&str, &str), Flaw> {
    match text.split_once(' ') {
        Some((word, rest)) => {
            if word.is_empty() || rest.is_empty() {
                return Err(Flaw::Words);
            }
            Ok((word, rest))
        }
        None => Err(Flaw::Words),
    }
}

fn number_in(word: &str) -> Result<u64, Flaw> {
    number_of(u64::MAX, word.as_bytes()).ok_or(Flaw::Number)
}

/// A text that is one word.
fn only_word(alloc: Global, text: &str) -> Result<Text, Flaw> {
    if text.is_empty() || text.contains(' ') {
        return Err(Flaw::Words);
    }
    Ok(Text::new(alloc, text.as_bytes())?)
}

/// What stands after the group, which is always 1.
fn beyond_group(text: &str) -> Result<&str, Flaw> {
    let (group, rest) = cut(text)?;
    if group != "1" {
        return Err(Flaw::Group);
    }
    Ok(rest)
}

fn command_in(alloc: Global, text: &str) -> Result<Text, Flaw> {
    if command_of(alloc, text.as_bytes())?.is_none() {
        return Err(Flaw::Request);
    }
    Ok(Text::new(alloc, text.as_bytes())?)
}

/// A command of a session: `C S R COMMAND`.
fn session_in(alloc: Global, text: &str) -> Result<Proposal, Flaw> {
    let (client, rest) = cut(text)?;
    let (series, rest) = cut(rest)?;
    let (responded, command) = cut(rest)?;
    Ok(Proposal::Session {
        client: number_in(client)?,
        series: number_in(series)?,
        responded: number_in(responded)?,
        command: command_in(alloc, command)?,
    })
}

fn proposal_in(alloc: Global, text: &str) -> Result<Proposal, Flaw> {
    if text == "blank" {
        return Ok(Proposal::Blank);
    }
    match cut(text)? {
        ("register", client) => Ok(Proposal::Register {
            client: number_in(client)?,
        }),
        ("close", client) => Ok(Proposal::Close {
            client: number_in(client)?,
        }),
        ("call", rest) => session_in(alloc, rest),
        _ => Ok(Proposal::Plain {
            command: command_in(alloc, text)?,
        }),
    }
}

fn query_in(alloc: Global, text: &str) -> Result<Text, Flaw> {
    if query_of(alloc, text.as_bytes())?.is_none() {
        return Err(Flaw::Request);
    }
    Ok(Text::new(alloc, text.as_bytes())?)
}

fn what_in(alloc: Global, text: &str) -> Result<What, Flaw> {
    match text.split_once(' ') {
        Some(("read", query)) => Ok(What::Queries {
            query: query_in(alloc, query)?,
        }),
        _ => Ok(What::Proposes {
            proposal: proposal_in(alloc, text)?,
        }),
    }
}

/// `CTX 1 TEXT`.
fn asked_in(alloc: Global, text: &str) -> Result<Mark, Flaw> {
    let (context, rest) = cut(text)?;
    let what = beyond_group(rest)?;
    Ok(Mark::Asks {
        context: only_word(alloc, context)?,
        what: what_in(alloc, what)?,
    })
}

/// `CTX I REPLY`.
fn done_in(alloc: Global, text: &str) -> Result<Mark, Flaw> {
    let (context, rest) = cut(text)?;
    let (place, reply) = cut(rest)?;
    Ok(Mark::Ends {
        context: only_word(alloc, context)?,
        place: number_in(place)?,
        ending: Ending::Done {
            reply: only_word(alloc, reply)?,
        },
    })
}

/// `CTX I`, of a request that ends so.
fn ended_in(alloc: Global, text: &str, ending: Ending) -> Result<Mark, Flaw> {
    let (context, place) = cut(text)?;
    Ok(Mark::Ends {
        context: only_word(alloc, context)?,
        place: number_in(place)?,
        ending,
    })
}

/// `CTX N ANSWER`.
fn read_in(alloc: Global, text: &str) -> Result<Mark, Flaw> {
    let (context, rest) = cut(text)?;
    let (front, answer) = cut(rest)?;
    Ok(Mark::Reads {
        context: only_word(alloc, context)?,
        front: number_in(front)?,
        answer: only_word(alloc, answer)?,
    })
}

/// The host of a line `stale H ..`, whether of a script or of an output, and what stands after it.
fn stale_at(line: &str) -> Option<(&str, &str)> {
    line.strip_prefix("stale ")?.split_once(' ')
}

fn is_stale_at(line: &str, host: &str) -> bool {
    matches!(stale_at(line), Some((named, _)) if named == host)
}

/// The query that a printed `stale` line of a host answers, if the script has one: the printed line
/// leaves it out. A host that has answered a `stale` line of a script answers each later one, so what
/// is asked stands in the line that has as many `stale` lines of that host after it.
fn query_of_stale<'a>(script: &[&'a str], host: &str, after: &[&str]) -> Option<&'a str> {
    let is_of_host = |line: &&&str| is_stale_at(line, host);
    let later = after.iter().filter(is_of_host).count();
    let mut asking = script.iter().rev().filter(|line| is_stale_at(line, host));
    stale_at(asking.nth(later)?)?.1.strip_prefix("1 ")
}

/// `H 1 N ANSWER`, where the lines after it are these.
fn stale_in(alloc: Global, text: &str, script: &[&str], after: &[&str]) -> Result<Mark, Flaw> {
    let (host, rest) = cut(text)?;
    let (front, answer) = cut(beyond_group(rest)?)?;
    let query = query_of_stale(script, host, after).ok_or(Flaw::Query)?;
    Ok(Mark::Stales {
        front: number_in(front)?,
        query: query_in(alloc, query)?,
        answer: only_word(alloc, answer)?,
    })
}

/// `1 I CTX TEXT`.
fn entry_in(alloc: Global, text: &str) -> Result<Mark, Flaw> {
    let (place, rest) = cut(beyond_group(text)?)?;
    let (context, proposal) = cut(rest)?;
    Ok(Mark::Shows {
        place: number_in(place)?,
        placed: Placed {
            context: only_word(alloc, context)?,
            proposal: proposal_in(alloc, proposal)?,
        },
    })
}

/// The mark of a line of an output other than `end`, if it says anything of the group. It was printed
/// for this script, and the lines after it are these.
fn mark_in(
    alloc: Global,
    line: &str,
    script: &[&str],
    after: &[&str],
) -> Result<Option<Mark>, Flaw> {
    let (verb, rest) = line.split_once(' ').unwrap_or((line, ""));
    let mark = match verb {
        "started" | "leader" | "idle" | "refused" | "wire" | ">" => return Ok(None),
        "ask" => asked_in(alloc, rest)?,
        "done" => done_in(alloc, rest)?,
        "rejected" => ended_in(alloc, rest, Ending::Rejected)?,
        "responded" => ended_in(alloc, rest, Ending::Responded)?,
        "registered" => ended_in(alloc, rest, Ending::Registered)?,
        "closed" => ended_in(alloc, rest, Ending::Closed)?,
        "dropped" => Mark::Leaves {
            context: only_word(alloc, rest)?,
        },
        "read" => read_in(alloc, rest)?,
        "stale" => stale_in(alloc, rest, script, after)?,
        "entry" => entry_in(alloc, rest)?,
        _ => return Err(Flaw::Verb),
    };
    Ok(Some(mark))
}

/// The marks of the lines of a whole output, of which the last is `end`. They were printed for this
/// script, of which only the lines `stale` are needed.
pub fn marks_of(alloc: Global, script: &[&str], lines: &[&str]) -> Result<Vec<Mark>, Misprint> {
    let mut marks = Vec::new(alloc);
    let Some((last, lines)) = lines.split_last() else {
        let flaw = Flaw::End;
        return Err(Misprint { before: 0, flaw });
    };
    for (before, line) in lines.iter().enumerate() {
        let after = &lines[before + 1..];
        let mark = mark_in(alloc, line, script, after).map_err(|flaw| Misprint { before, flaw })?;
        if let Some(mark) = mark {
            let flaw = Flaw::NoMemory;
            marks.push(mark).map_err(|_| Misprint { before, flaw })?;
        }
    }
    if *last != "end" {
        let flaw = Flaw::End;
        let before = lines.len();
        return Err(Misprint { before, flaw });
    }
    Ok(marks)
}
