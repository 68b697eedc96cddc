use crate::{Batch, Entries, Entry, Key, NoMemory, Proposal, Text, Verdict};
use std::alloc::Global;
use std::collections::BTreeMap;
use std::test::Fail;

fn text_of(alloc: Global, text: &str) -> Result<Text, Fail> {
    Ok(Text::new(alloc, text.as_bytes())?)
}

#[test]
fn texts_are_keys_in_order(rt: HostRuntime) -> Result<(), Fail> {
    let alloc = rt.alloc();
    let mut map = BTreeMap::new(alloc);
    for (key, value) in [("b", 1), ("ab", 2), ("a", 3), ("b", 4)] {
        map.insert(text_of(alloc, key)?, value)?;
    }
    let values: Vec<i32> = map.values().copied().collect(alloc)?;
    assert_eq!(rt; values.as_slice(), [3, 2, 4].as_slice());
    let text = Text::from_vec([7, 8].to_vec(alloc)?)?;
    assert_eq!(rt; text.copy()?.bytes(), [7, 8].as_slice());
    assert_eq!(rt; NoMemory.to_string(alloc)?.as_str(), "memory ran out");
    Ok(())
}

#[test]
fn copies_have_the_same_contents(rt: HostRuntime) -> Result<(), Fail> {
    let alloc = rt.alloc();
    let proposals = [
        Proposal::Blank,
        Proposal::Plain {
            command: text_of(alloc, "put x 5")?,
        },
        Proposal::Session {
            client: 1,
            series: 2,
            responded: 3,
            command: text_of(alloc, "del x")?,
        },
        Proposal::Register { client: 4 },
        Proposal::Close { client: 5 },
    ];
    let mut entries = Entries::new(alloc);
    for proposal in proposals {
        assert!(rt; proposal.copy()? == proposal);
        let key = Key {
            host: 1,
            start: 1,
            serial: 9,
        };
        let entry = Entry {
            index: 3,
            term: 2,
            key,
            proposal,
        };
        assert!(rt; entry.copy()? == entry);
        entries.push(entry)?;
    }
    assert_eq!(rt; entries.items().len(), 5);
    let more = Entries::from_slice(alloc, entries.items())?;
    assert!(rt; more.items() == entries.items());
    let held = entries.into_vec()?;
    assert_eq!(rt; held.len(), 5);
    assert_eq!(rt; Entries::from_vec(held).items().len(), 5);
    let verdict = Verdict::RepeatOf {
        reply: text_of(alloc, "5")?,
    };
    assert!(rt; verdict.copy()? == verdict);
    Ok(())
}

#[test]
fn a_copy_outlives_what_it_was_copied_from(rt: HostRuntime) -> Result<(), Fail> {
    let alloc = rt.alloc();
    for bytes in [
        "",
        "put x 5",
        "put the_key 1234567890",
        "put the_key 12345678901",
    ] {
        let text = text_of(alloc, bytes)?;
        let copy = text.copy()?;
        drop(text);
        assert_eq!(rt; copy.bytes(), bytes.as_bytes());
    }
    Ok(())
}

fn blank(index: u64) -> Entry {
    Entry {
        index,
        term: 1,
        key: Key {
            host: 0,
            start: 0,
            serial: 0,
        },
        proposal: Proposal::Blank,
    }
}

#[test]
fn parts_of_shared_entries(rt: HostRuntime) -> Result<(), Fail> {
    let alloc = rt.alloc();
    let mut entries = Entries::new(alloc);
    entries.push(blank(1))?;
    entries.push(blank(2))?;
    entries.push(blank(3))?;
    let shared = entries.share()?;
    let mut part = shared.part(1, 2)?;
    let all = shared.copy()?;
    drop(shared);
    assert_eq!(rt; part.items().len(), 2);
    part.push(blank(4))?;
    let last = part.into_vec()?;
    assert_eq!(rt; (last[0].index, last[2].index, last.len()), (2, 4, 3));
    let batch = Batch {
        id: 1,
        term: 1,
        vote: 1,
        commit: 0,
        front: 0,
        front_term: 0,
        first: 1,
        entries: all,
    };
    let copy = batch.copy()?;
    drop(batch);
    assert_eq!(rt; copy.entries.into_vec()?.len(), 3);
    Ok(())
}
