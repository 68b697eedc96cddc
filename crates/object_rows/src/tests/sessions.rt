ghost use Rattle.std.specs.Prelude.{◌≤◌};
ghost use Rattle.host_ids.specs.declared.proposal.TheConstants.{MOST_SERIES, MOST_SESSIONS};

use host_ids::{MOST_COMMAND, Text, Verdict};
use session_lru::{SessionTable, TableFault};
use std::alloc::Global;
use std::process::Abort;
use std::test::Fail;

/// A command, whose reply is kept if it acts.
fn call(
    table: &mut SessionTable,
    client: u64,
    series: u64,
    responded: u64,
    reply: Text,
) -> Result<(), Fail>
    requires { (1 ≤ client) × (1 ≤ series) × (series ≤ MOST_SERIES) × (responded ≤ MOST_SERIES) }
{
    if let Verdict::Acts = table.admit(client, series, responded)? {
        if reply.bytes().len() <= MOST_COMMAND {
            table.keep(client, series, reply)?;
        }
    }
    Ok(())
}

/// A table with the sessions of these clients, one after the other.
fn registered(alloc: Global, limit: u32, clients: &[u64]) -> Result<SessionTable, Fail>
    requires { (1 ≤ limit) × (limit ≤ MOST_SESSIONS) }
{
    let mut table = SessionTable::new(alloc, limit)?;
    for client in clients {
        table.register((*client).max(1))?;
    }
    Ok(table)
}

/// A table with three sessions, two of which keep replies.
fn three_sessions(alloc: Global) -> Result<SessionTable, Fail> {
    let mut table = registered(alloc, 3, &[7, 258, u64::MAX])?;
    for (client, series, responded, reply) in [
        (258, 2, 1, "-"),
        (258, 9, 0, "abc"),
        (7, 18446744073709551613, 5, "1.5"),
        (258, 300, 0, ""),
    ] {
        let reply = Text::new(alloc, reply.as_bytes())?;
        call(&mut table, client, series, responded, reply)?;
    }
    Ok(table)
}

/// The table as bytes.
fn image_of(table: &SessionTable) -> Result<Vec<u8>, Fail> {
    if !table.fits() {
        return Err(Fail::from("a table that is too large"));
    }
    Ok(table.image()?)
}

/// The bytes of these three sessions: the limit and how many there are; then the one touched longest ago
/// first, each with its client, its responded value and its replies by series.
const THREE: &[u8] = b"\0\0\0\x03\0\0\0\x03\
\xff\xff\xff\xff\xff\xff\xff\xff\0\0\0\0\0\0\0\0\0\0\0\0\
\0\0\0\0\0\0\0\x07\0\0\0\0\0\0\0\x05\0\0\0\x01\
\xff\xff\xff\xff\xff\xff\xff\xfd\0\x031.5\
\0\0\0\0\0\0\x01\x02\0\0\0\0\0\0\0\x01\0\0\0\x03\
\0\0\0\0\0\0\0\x02\0\x01-\
\0\0\0\0\0\0\0\x09\0\x03abc\
\0\0\0\0\0\0\x01\x2c\0\0";

#[test]
fn an_empty_table_is_eight_bytes(rt: HostRuntime) -> Result<(), Fail> {
    let image = image_of(&SessionTable::new(rt.alloc(), 4096)?)?;
    assert_eq!(rt; image.as_slice(), b"\0\0\x10\0\0\0\0\0".as_slice());
    Ok(())
}

#[test]
fn three_sessions_are_spelt(rt: HostRuntime) -> Result<(), Fail> {
    let image = image_of(&three_sessions(rt.alloc())?)?;
    assert_eq!(rt; image.as_slice(), THREE);
    Ok(())
}

#[test]
fn three_sessions_are_read(rt: HostRuntime) -> Result<(), Fail> {
    let table = SessionTable::from_image(rt.alloc(), THREE)?;
    assert_eq!(rt; image_of(&table)?.as_slice(), THREE);
    Ok(())
}

/// Bytes are refused at this place, in these words.
fn is_refused(rt: &impl Abort, alloc: Global, bytes: &[u8], at: usize) -> Result<(), Fail> {
    let Err(fault) = SessionTable::from_image(alloc, bytes) else {
        return Err(Fail::from("a table"));
    };
    assert!(rt; fault == TableFault::NotTable { at });
    let wanted = format!(in alloc; "no table of sessions: byte {at}")?;
    assert_eq!(rt; fault.to_string(alloc)?.as_str(), wanted.as_str());
    Ok(())
}

/// A limit of 0, a count above the limit, a length that is cut, and a byte too many.
#[test]
fn other_bytes_are_refused(rt: HostRuntime) -> Result<(), Fail> {
    let alloc = rt.alloc();
    is_refused(&rt, alloc, b"\0\0\0\0\0\0\0\0", 0)?;
    is_refused(&rt, alloc, b"\0\0\0\x01\0\0\0\x02", 4)?;
    let mut shorter = THREE.to_vec(alloc)?;
    shorter.pop();
    is_refused(&rt, alloc, &shorter, 113)?;
    let mut longer = THREE.to_vec(alloc)?;
    longer.push(0)?;
    is_refused(&rt, alloc, &longer, 115)
}

#[test]
fn out_of_memory_is_told(rt: HostRuntime) -> Result<(), Fail> {
    let told = TableFault::NoMemory.to_string(rt.alloc())?;
    assert_eq!(rt; told.as_str(), "memory ran out");
    Ok(())
}

/// A client with three replies.
fn fill(table: &mut SessionTable, alloc: Global, client: u64) -> Result<(), Fail>
    requires { 1 ≤ client }
{
    table.register(client)?;
    for series in 1..4 {
        call(table, client, series, 0, Text::new(alloc, b"a reply")?)?;
    }
    Ok(())
}

/// A table of 4,096 sessions.
fn full(alloc: Global) -> Result<SessionTable, Fail> {
    let mut table = SessionTable::new(alloc, 4096)?;
    for client in 1..4097 {
        fill(&mut table, alloc, client)?;
    }
    Ok(table)
}

#[test]
fn a_full_table_goes_both_ways(rt: HostRuntime) -> Result<(), Fail> {
    let alloc = rt.alloc();
    let image = image_of(&full(alloc)?)?;
    assert_eq!(rt; image.len(), 8 + 4096 * (20 + 3 * 17));
    let again = SessionTable::from_image(alloc, &image)?;
    assert!(rt; image_of(&again)? == image);
    Ok(())
}
