use disk_model::{Depot, Disk, MemDepot};
use host_ids::Entries;
use log_record::{GateFile, Record, RecordFault, StoreFault, make, read_record, write_record};
use std::alloc::Global;
use std::process::Abort;
use std::test::Fail;
use wire_codec::{read_entry, write_entry};

/// A batch of term 1 with the vote of host 1, and nothing else: the tag, the term, the vote, the commit
/// index, the front and its term, the first index and the number of entries.
const FIRST_BATCH: &[u8] =
    b"\x01\0\0\0\0\0\0\0\x01\x01\0\0\0\0\0\0\0\0\0\0\0\0\0\0\0\0\0\0\0\0\0\0\0\0\0\0\0\0\0\0\0\x01\0\0\0\0";

/// The command `put x 1` of term 2, asked at host 3 in its first start as its request 4.
const PUT: &[u8] =
    b"\0\0\0\0\0\0\0\x02\x03\0\0\0\0\0\0\0\x01\0\0\0\0\0\0\0\x04\0\0\0\0\0\0\0\0\0\0\0\0\0\0\0\0\0\0\0\0\0\0\0\0\0\x07put x 1";

#[test]
fn the_first_batch_is_written(rt: HostRuntime) -> Result<(), Fail> {
    let batch = Record::Batch {
        term: 1,
        vote: 1,
        commit: 0,
        front: 0,
        front_term: 0,
        first: 1,
        entries: Entries::new(rt.alloc()),
    };
    let bytes = write_record(rt.alloc(), &batch)?;
    assert_eq!(rt; bytes.as_slice(), FIRST_BATCH);
    Ok(())
}

#[test]
fn a_start_is_written(rt: HostRuntime) -> Result<(), Fail> {
    let bytes = write_record(rt.alloc(), &Record::Start { number: 258 })?;
    assert_eq!(rt; bytes.as_slice(), b"\x02\0\0\0\0\0\0\x01\x02".as_slice());
    Ok(())
}

/// Where bytes that are no record stop.
fn refused(rt: &impl Abort, alloc: Global, bytes: &[u8], at: usize) -> Result<(), Fail> {
    let place = match read_record(alloc, bytes) {
        Err(RecordFault::NotRecord { at }) => Some(at),
        _ => None,
    };
    assert_eq!(rt; place, Some(at));
    Ok(())
}

#[test]
fn each_front_of_a_batch_is_refused_at_its_end(rt: HostRuntime) -> Result<(), Fail> {
    for count in 0..FIRST_BATCH.len() {
        refused(&rt, rt.alloc(), &FIRST_BATCH[..count], count)?;
    }
    Ok(())
}

#[test]
fn what_no_record_has_is_refused_there(rt: HostRuntime) -> Result<(), Fail> {
    let alloc = rt.alloc();
    refused(&rt, alloc, b"\x03", 0)?;
    refused(&rt, alloc, b"\x01\0\0\0\0\0\0\0\x01\x0a", 9)?;
    refused(&rt, alloc, b"\x02\0\0\0\0\0\0\0\x01\0", 9)?;
    Ok(())
}

#[test]
fn a_command_is_written_and_read(rt: HostRuntime) -> Result<(), Fail> {
    let alloc = rt.alloc();
    let (entry, next) = read_entry(alloc, PUT, 0, 7)?;
    assert_eq!(rt; next, PUT.len());
    assert_eq!(rt; entry.index, 7);
    assert_eq!(rt; entry.term, 2);
    let mut bytes = Vec::new(alloc);
    write_entry(&mut bytes, &entry)?;
    assert_eq!(rt; bytes.as_slice(), PUT);
    Ok(())
}

/// A log file with the first batch: the header, an open gate, the batch after its length, and a closed
/// gate.
const FIRST_FILE: &[u8] =
    b"NHLOG001\x01\0\0\0\x2e\x01\0\0\0\0\0\0\0\x01\x01\0\0\0\0\0\0\0\0\0\0\0\0\0\0\0\0\0\0\0\0\0\0\0\0\0\0\0\0\0\0\0\x01\0\0\0\0\0";

/// How many records bytes of group 1's log open to, or the place of what is refused.
fn opened(alloc: Global, bytes: &[u8]) -> Result<Result<usize, u64>, Fail> {
    let mut depot = MemDepot::new(alloc)?;
    let Some(mut disk) = depot.take(1) else {
        return Ok(Err(u64::MAX));
    };
    disk.write_at(1000, 0, bytes)?;
    match GateFile::open(alloc, &mut disk, 1000) {
        Ok((_, records)) => Ok(Ok(records.len())),
        Err(StoreFault::BadStore { at, .. }) => Ok(Err(at)),
        Err(_) => Ok(Err(u64::MAX)),
    }
}

#[test]
fn each_front_of_a_file_is_opened_or_refused(rt: HostRuntime) -> Result<(), Fail> {
    for count in 0..FIRST_FILE.len() {
        let place = if count < 9 { 0 } else { 8 };
        assert_eq!(rt; opened(rt.alloc(), &FIRST_FILE[..count])?, Err(place));
    }
    assert_eq!(rt; opened(rt.alloc(), FIRST_FILE)?, Ok(1));
    Ok(())
}

#[test]
fn another_first_gate_is_no_open_one(rt: HostRuntime) -> Result<(), Fail> {
    assert_eq!(rt; opened(rt.alloc(), b"NHLOG001\xff")?, Ok(0));
    Ok(())
}

#[test]
fn a_new_file_has_no_records(rt: HostRuntime) -> Result<(), Fail> {
    let alloc = rt.alloc();
    let mut depot = MemDepot::new(alloc)?;
    let mut count = None;
    if let Some(mut disk) = depot.take(1) {
        make(&mut disk, 1000)?;
        let (_, records) = GateFile::open(alloc, &mut disk, 1000)?;
        count = Some(records.len());
    }
    assert_eq!(rt; count, Some(0));
    Ok(())
}
