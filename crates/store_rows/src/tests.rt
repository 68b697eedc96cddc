ghost use Rattle.std.specs.Prelude.{◌≤◌};

use disk_model::{Depot, MemDepot};
use host_ids::{Batch, Entries, Entry, Key, Proposal, Text};
use log_record::{StoreFault, make};
use log_store::PlainStore;
use std::alloc::Global;
use std::process::Abort;
use std::test::Fail;

/// The log of group 1.
const LOG: u64 = 1000;

/// An entry with a command, asked at host 1 in its first start.
fn entry(alloc: Global, index: u64, term: u64) -> Result<Entry, Fail> {
    Ok(Entry {
        index,
        term,
        key: Key {
            host: 1,
            start: 1,
            serial: index,
        },
        proposal: Proposal::Plain {
            command: Text::new(alloc, b"put x 1")?,
        },
    })
}

/// A batch of entries of its term from `first` on and before `end`, with the vote of host 1.
fn batch(alloc: Global, term: u64, commit: u64, first: u64, end: u64) -> Result<Batch, Fail> {
    let mut entries = Entries::new(alloc);
    for index in first..end {
        entries.push(entry(alloc, index, term)?)?;
    }
    Ok(Batch {
        id: 1,
        term,
        vote: 1,
        commit,
        front: 0,
        front_term: 0,
        first,
        entries,
    })
}

/// Saves a batch that follows, and tells whether it was saved.
fn is_saved(
    rt: &impl Abort,
    store: &mut PlainStore,
    depot: &mut MemDepot,
    next: &Batch,
) -> Result<bool, Fail> {
    let Some(disk) = depot.disk(1) else {
        return Ok(false);
    };
    if !store.follows(next) {
        return Ok(false);
    }
    let result = store.save(disk, next);
    assert!(rt; result == Ok(()) || result == Err(StoreFault::Failed));
    Ok(result.is_ok())
}

/// The term and the number of entries that a store has.
fn sizes(store: &PlainStore) -> Result<(u64, usize), Fail> {
    let kept = store.durable()?;
    Ok((kept.term, kept.entries.items().len()))
}

/// A host's disk with a store of one batch.
fn one_batch(rt: &impl Abort, alloc: Global) -> Result<(MemDepot, Option<PlainStore>), Fail> {
    let mut depot = MemDepot::new(alloc)?;
    let mut store = None;
    if let Some(disk) = depot.disk(1) {
        make(disk, LOG)?;
        store = Some(PlainStore::open(alloc, disk, LOG)?);
    }
    if let Some(first) = &mut store {
        let next = batch(alloc, 1, 0, 1, 3)?;
        let saved = is_saved(rt, first, &mut depot, &next)?;
        assert!(rt; saved);
    }
    Ok((depot, store))
}

/// What a store opens to where the save of a second batch was stopped after `calls` calls of the disk,
/// and its power was lost.
fn torn(
    rt: &impl Abort,
    alloc: Global,
    calls: u64,
    choice: u8,
) -> Result<Option<(u64, usize)>, Fail>
    requires { choice ≤ 2 }
{
    let (mut depot, store) = one_batch(rt, alloc)?;
    let Some(mut store) = store else {
        return Ok(None);
    };
    depot.arm(1, calls);
    let next = batch(alloc, 2, 1, 2, 5)?;
    let saved = is_saved(rt, &mut store, &mut depot, &next)?;
    assert_eq!(rt; saved, 4 <= calls);
    depot.power(1, choice)?;
    let Some(disk) = depot.disk(1) else {
        return Ok(None);
    };
    let opened = PlainStore::open(alloc, disk, LOG)?;
    Ok(Some(sizes(&opened)?))
}

#[test]
fn a_torn_save_leaves_the_old_state_or_the_new(rt: HostRuntime) -> Result<(), Fail> {
    for calls in 0..5 {
        for choice in 0..3 {
            let is_new = calls == 4 || (calls == 3 && choice == 1);
            let expected = if is_new { (2, 4) } else { (1, 2) };
            let found = torn(&rt, rt.alloc(), calls, choice)?;
            assert_eq!(&rt; found, Some(expected));
        }
    }
    Ok(())
}

#[test]
fn a_batch_replaces_entries_and_moves_the_front(rt: HostRuntime) -> Result<(), Fail> {
    let alloc = rt.alloc();
    let (mut depot, store) = one_batch(&rt, alloc)?;
    let mut found = None;
    if let Some(mut store) = store {
        let mut next = batch(alloc, 2, 2, 2, 5)?;
        next.front = 1;
        next.front_term = 1;
        let saved = is_saved(&rt, &mut store, &mut depot, &next)?;
        assert!(&rt; saved);
        let kept = store.durable()?;
        assert_eq!(&rt; (kept.front, kept.front_term, kept.first), (1, 1, 2));
        found = Some(sizes(&store)?);
    }
    assert_eq!(&rt; found, Some((2, 3)));
    Ok(())
}

#[test]
fn what_was_promised_is_not_taken_back(rt: HostRuntime) -> Result<(), Fail> {
    let alloc = rt.alloc();
    let (mut depot, store) = one_batch(&rt, alloc)?;
    if let Some(mut store) = store {
        let next = batch(alloc, 2, 2, 3, 4)?;
        let saved = is_saved(&rt, &mut store, &mut depot, &next)?;
        assert!(&rt; saved);
        assert!(&rt; !store.follows(&batch(alloc, 2, 1, 3, 4)?));
        assert!(&rt; !store.follows(&batch(alloc, 1, 2, 3, 4)?));
        assert!(&rt; !store.follows(&batch(alloc, 2, 2, 5, 6)?));
        assert!(&rt; store.follows(&batch(alloc, 2, 2, 4, 5)?));
    }
    Ok(())
}
