use host_ids::{Entries, Entry, Key, Proposal, Text};
use log_view::Log;
use std::alloc::Global;
use std::process::Abort;
use std::test::Fail;

fn entry(index: u64, term: u64) -> Entry {
    let key = Key {
        host: 1,
        start: 1,
        serial: 1,
    };
    Entry {
        index,
        term,
        key,
        proposal: Proposal::Blank,
    }
}

fn put(rt: &impl Abort, log: &mut Log, index: u64, held: Vec<Entry>) -> Result<(), Fail> {
    let entries = Entries::from_vec(held);
    assert!(rt; log.front() <= index && index <= log.last() && index < 100);
    assert!(rt; entries.items().len() < 100);
    log.append_after(index, entries)?;
    Ok(())
}

fn push(rt: &impl Abort, log: &mut Log, entry: Entry) -> Result<(), Fail> {
    assert!(rt; log.last() < 100);
    log.push(entry)?;
    Ok(())
}

fn put_terms(
    rt: &impl Abort,
    alloc: Global,
    log: &mut Log,
    index: u64,
    terms: &[u64],
) -> Result<(), Fail> {
    let mut held = Vec::new(alloc);
    for term in terms {
        held.push(entry(index, *term))?;
    }
    put(rt, log, index, held)
}

#[test]
fn a_lower_term_is_remembered_until_reset(rt: HostRuntime) -> Result<(), Fail> {
    let mut log = Log::new(rt.alloc());
    for (index, terms, rise) in [
        (0, [].as_slice(), true),
        (0, [1, 3, 3].as_slice(), true),
        (1, [2, 4].as_slice(), true),
        (3, [4, 3].as_slice(), false),
        (3, [4].as_slice(), false),
    ] {
        put_terms(&rt, rt.alloc(), &mut log, index, terms)?;
        assert_eq!(rt; log.terms_rise(), rise);
    }
    log.reset(9, 4);
    assert!(rt; log.terms_rise());
    push(&rt, &mut log, entry(10, 3))?;
    assert!(rt; !log.terms_rise());
    Ok(())
}

#[test]
fn the_longest_command_is_remembered_until_reset(rt: HostRuntime) -> Result<(), Fail> {
    let alloc = rt.alloc();
    let mut log = Log::new(alloc);
    let plain = Proposal::Plain {
        command: Text::new(alloc, b"put x 5".as_slice())?,
    };
    let session = Proposal::Session {
        client: 1,
        series: 1,
        responded: 0,
        command: Text::new(alloc, b"put x 50".as_slice())?,
    };
    let mut first = entry(1, 1);
    first.proposal = plain;
    let mut second = entry(2, 1);
    second.proposal = session;
    push(&rt, &mut log, first)?;
    assert_eq!(rt; log.longest(), 7);
    put(&rt, &mut log, 1, vec![in alloc; second, entry(3, 1)]?)?;
    assert_eq!(rt; log.longest(), 8);
    log.reset(3, 1);
    assert_eq!(rt; log.longest(), 0);
    Ok(())
}
