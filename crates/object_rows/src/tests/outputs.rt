use host_ids::{Proposal, Text, Verdict};
use object_model::{
    Change, Ending, Mark, Placed, Query, What, answer_after, command_of, entries, is_key, is_legal,
    is_name, is_value, number_of, query_of, reply_at, shown, standing_after, verdict_at,
};
use std::alloc::Global;
use std::test::Fail;

fn text_of(alloc: Global, text: &str) -> Result<Text, Fail> {
    Ok(Text::new(alloc, text.as_bytes())?)
}

/// The first word, and what stands after it.
fn cut(text: &str) -> (&str, &str) {
    text.split_once(' ').unwrap_or((text, ""))
}

fn proposal_of(alloc: Global, text: &str) -> Result<Proposal, Fail> {
    let (verb, rest) = cut(text);
    match verb {
        "blank" => Ok(Proposal::Blank),
        "register" => Ok(Proposal::Register {
            client: rest.parse()?,
        }),
        "close" => Ok(Proposal::Close {
            client: rest.parse()?,
        }),
        "call" => {
            let (client, rest) = cut(rest);
            let (series, rest) = cut(rest);
            let (responded, command) = cut(rest);
            Ok(Proposal::Session {
                client: client.parse()?,
                series: series.parse()?,
                responded: responded.parse()?,
                command: text_of(alloc, command)?,
            })
        }
        _ => Ok(Proposal::Plain {
            command: text_of(alloc, text)?,
        }),
    }
}

fn what_of(alloc: Global, text: &str) -> Result<What, Fail> {
    match cut(text) {
        ("read", query) => Ok(What::Queries {
            query: text_of(alloc, query)?,
        }),
        _ => Ok(What::Proposes {
            proposal: proposal_of(alloc, text)?,
        }),
    }
}

fn ending_of(alloc: Global, verb: &str, reply: &str) -> Result<Ending, Fail> {
    match verb {
        "done" => Ok(Ending::Done {
            reply: text_of(alloc, reply)?,
        }),
        "rejected" => Ok(Ending::Rejected),
        "responded" => Ok(Ending::Responded),
        "registered" => Ok(Ending::Registered),
        _ => Ok(Ending::Closed),
    }
}

fn placed_of(alloc: Global, text: &str) -> Result<Placed, Fail> {
    let (context, proposal) = cut(text);
    Ok(Placed {
        context: text_of(alloc, context)?,
        proposal: proposal_of(alloc, proposal)?,
    })
}

/// The mark of a line, as these tests write it: `ask CTX TEXT`, `done CTX I REPLY` and the like,
/// `dropped CTX`, `read CTX N ANSWER`, `stale N ANSWER QUERY`, `kept I`, `entry CTX TEXT`.
fn mark_of(alloc: Global, line: &str) -> Result<Mark, Fail> {
    let (verb, rest) = cut(line);
    let (first, more) = cut(rest);
    match verb {
        "ask" => Ok(Mark::Asks {
            context: text_of(alloc, first)?,
            what: what_of(alloc, more)?,
        }),
        "dropped" | "timeout" | "terminated" => Ok(Mark::Leaves {
            context: text_of(alloc, first)?,
        }),
        "read" => {
            let (front, answer) = cut(more);
            Ok(Mark::Reads {
                context: text_of(alloc, first)?,
                front: front.parse()?,
                answer: text_of(alloc, answer)?,
            })
        }
        "stale" => {
            let (answer, query) = cut(more);
            Ok(Mark::Stales {
                front: first.parse()?,
                query: text_of(alloc, query)?,
                answer: text_of(alloc, answer)?,
            })
        }
        "kept" => Ok(Mark::Tells {
            number: first.parse()?,
        }),
        "entry" => Ok(Mark::Shows {
            place: first.parse()?,
            placed: placed_of(alloc, more)?,
        }),
        _ => {
            let (place, reply) = cut(more);
            Ok(Mark::Ends {
                context: text_of(alloc, first)?,
                place: place.parse()?,
                ending: ending_of(alloc, verb, reply)?,
            })
        }
    }
}

fn marks_of(alloc: Global, output: &str) -> Result<Vec<Mark>, Fail> {
    let mut marks = Vec::new(alloc);
    for line in output.split('/') {
        marks.push(mark_of(alloc, line.trim())?)?;
    }
    Ok(marks)
}

fn proposals_of(alloc: Global, list: &str) -> Result<Vec<Proposal>, Fail> {
    let mut proposals = Vec::new(alloc);
    for text in list.split('/') {
        proposals.push(proposal_of(alloc, text.trim())?)?;
    }
    Ok(proposals)
}

const PUT_AND_GET: &str =
    "ask a put x 5/done a 2 -/ask b read get x/read b 2 5/entry 1 - blank/entry 2 a put x 5";

/// Outputs with their limits of sessions, and whether they are legal by their own entries. The program
/// `judged_runs` judges many more, as they are printed.
const OUTPUTS: [(&str, u32, &str, bool); 6] = [
    ("a put and a get", 4096, PUT_AND_GET, true),
    (
        "a plain command twice",
        4096,
        "ask a add n 7/done a 2 7/stale 3 14 get n/entry 1 - blank/entry 2 a add n 7/entry 3 a add n 7",
        true,
    ),
    (
        "another reply",
        4096,
        "ask a put x 5/done a 1 5/entry 1 a put x 5",
        false,
    ),
    (
        "a place equal to a told number",
        4096,
        "kept 1/ask a put x 5/done a 1 -/entry 1 a put x 5",
        false,
    ),
    (
        "a front below a stale one",
        4096,
        "stale 1 0 count/ask b read count/read b 0 0/entry 1 - blank",
        false,
    ),
    (
        "a stale one with another answer",
        4096,
        "stale 0 1 get x",
        false,
    ),
];

#[test]
fn outputs_are_judged(rt: HostRuntime) -> Result<(), Fail> {
    let alloc = rt.alloc();
    for (name, limit, output, wanted) in OUTPUTS {
        let marks = marks_of(alloc, output)?;
        let list = entries(alloc, &marks)?;
        assert_eq!(rt; is_legal(alloc, limit, &list, &marks)?, wanted, "{name}");
    }
    Ok(())
}

#[test]
fn places_are_computed(rt: HostRuntime) -> Result<(), Fail> {
    let alloc = rt.alloc();
    let list = proposals_of(
        alloc,
        "register 1/register 2/call 1 1 0 put x 5/call 1 1 0 put x 5/register 3/call 2 1 0 put x 6/close 1/add x 2",
    )?;
    let standing = standing_after(alloc, 2, &list)?;
    assert_eq!(rt; standing.as_slice(), [3].as_slice());
    let repeat = Verdict::RepeatOf {
        reply: text_of(alloc, "-")?,
    };
    assert!(rt; verdict_at(alloc, 2, &list, 4)? == Some(repeat));
    assert!(rt; verdict_at(alloc, 2, &list, 6)? == Some(Verdict::NotStanding));
    assert!(rt; verdict_at(alloc, 2, &list, 9)?.is_none());
    assert!(rt; verdict_at(alloc, 2, &list, 0)?.is_none());
    assert!(rt; reply_at(alloc, 2, &list, 4)? == Some(text_of(alloc, "-")?));
    assert!(rt; reply_at(alloc, 2, &list, 8)? == Some(text_of(alloc, "7")?));
    assert!(rt; reply_at(alloc, 2, &list, 1)?.is_none());
    let query = text_of(alloc, "get x")?;
    for (front, wanted) in [(2, "-"), (3, "5"), (8, "7"), (9, "7")] {
        let answer = answer_after(alloc, 2, &list, front, &query)?;
        assert!(rt; answer == text_of(alloc, wanted)?, "after {front}");
    }
    Ok(())
}

#[test]
fn commands_and_queries_are_read(rt: HostRuntime) -> Result<(), Fail> {
    let alloc = rt.alloc();
    for (text, is_command, is_query) in [
        ("put x 5", true, false),
        ("put x a.b_9", true, false),
        ("put X 5", false, false),
        ("put x -", false, false),
        ("put x", false, false),
        ("put  x 5", false, false),
        ("del x", true, false),
        ("del x y", false, false),
        ("add x 0", true, false),
        ("add x 07", false, false),
        ("add x 18446744073709551615", true, false),
        ("add x 18446744073709551616", false, false),
        ("get x", false, true),
        ("get", false, false),
        ("count", false, true),
        ("count x", false, false),
        ("", false, false),
    ] {
        let command = command_of(alloc, text.as_bytes())?;
        assert_eq!(rt; command.is_some(), is_command, "{text}");
        let query = query_of(alloc, text.as_bytes())?;
        assert_eq!(rt; query.is_some(), is_query, "{text}");
    }
    assert!(rt; query_of(alloc, b"count")? == Some(Query::Count));
    assert!(rt; is_key(b"k1") && !is_key(b"k_1") && is_value(b"k_1") && !is_name(b"abc", 2));
    assert_eq!(rt; number_of(10, b"10"), Some(10));
    assert_eq!(rt; number_of(10, b"11"), None);
    assert!(rt; shown(alloc, None)? == text_of(alloc, "-")?);
    Ok(())
}

#[test]
fn a_full_object_takes_no_new_key(rt: HostRuntime) -> Result<(), Fail> {
    let alloc = rt.alloc();
    let put = command_of(alloc, b"put x 5")?.ok_or("a command")?;
    let old = text_of(alloc, "4")?;
    let refused = Change::Keeps {
        reply: text_of(alloc, "!")?,
    };
    let stored = Change::Stores {
        value: text_of(alloc, "5")?,
        reply: text_of(alloc, "4")?,
    };
    assert!(rt; put.change(alloc, None, 1_000_000)? == refused);
    assert!(rt; put.change(alloc, Some(&old), 1_000_000)? == stored);
    Ok(())
}
