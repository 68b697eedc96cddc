//! Lines of the output as bytes, each by itself.
use host_ids::{Entry, Key, Proposal, Text};
use object_model::Ending;
use script_text::{EnvelopeKind, Limit, Line, print_line};
use std::alloc::Global;
use std::process::Abort;
use std::test::Fail;

/// A request's key, which no line prints.
const KEY: Key = Key {
    host: 1,
    start: 1,
    serial: 1,
};

/// A line prints this, with the context `a` where it shows one.
fn is_printed(rt: &impl Abort, alloc: Global, line: &Line, wanted: &[u8]) -> Result<(), Fail> {
    let context = Text::new(alloc, b"a")?;
    assert_eq!(rt; print_line(alloc, line, &context)?.as_slice(), wanted);
    Ok(())
}

#[test]
fn lines_of_numbers_are_printed(rt: HostRuntime) -> Result<(), Fail> {
    let alloc = rt.alloc();
    let leader = Line::Leader {
        host: 9,
        group: 1,
        term: 20,
    };
    is_printed(&rt, alloc, &leader, b"leader 9 1 20\n")?;
    let wire = Line::Wire {
        group: 1,
        number: 15,
        from: 3,
        to: 2,
        kind: EnvelopeKind::VoteReply,
        term: 7,
    };
    is_printed(&rt, alloc, &wire, b"wire 1 15 3 2 votereply 7\n")?;
    let limit = Line::Reached {
        limit: Limit::Entries,
    };
    is_printed(&rt, alloc, &limit, b"limit entries 200000\n")?;
    is_printed(&rt, alloc, &Line::End, b"end\n")
}

#[test]
fn an_ask_is_printed(rt: HostRuntime) -> Result<(), Fail> {
    let alloc = rt.alloc();
    let ask = Line::Ask {
        key: KEY,
        group: 1,
        proposal: Proposal::Session {
            client: 5,
            series: 2,
            responded: 1,
            command: Text::new(alloc, b"add n 7")?,
        },
    };
    is_printed(&rt, alloc, &ask, b"ask a 1 call 5 2 1 add n 7\n")
}

#[test]
fn an_end_is_printed(rt: HostRuntime) -> Result<(), Fail> {
    let alloc = rt.alloc();
    let done = Line::Ended {
        key: KEY,
        group: 1,
        place: 12,
        ending: Ending::Done {
            reply: Text::new(alloc, b"-")?,
        },
    };
    is_printed(&rt, alloc, &done, b"done a 12 -\n")
}

#[test]
fn an_entry_is_printed(rt: HostRuntime) -> Result<(), Fail> {
    let alloc = rt.alloc();
    let entry = Line::Entry {
        group: 1,
        entry: Entry {
            index: 3,
            term: 2,
            key: KEY,
            proposal: Proposal::Register { client: 5 },
        },
    };
    is_printed(&rt, alloc, &entry, b"entry 1 3 a register 5\n")
}
