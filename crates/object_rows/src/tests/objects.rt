use host_ids::Text;
use kv_object::{ImageFault, Kv};
use std::alloc::Global;
use std::process::Abort;
use std::test::Fail;

/// The object after these commands, with a bar between them.
fn object_of(alloc: Global, commands: &str) -> Result<Kv, Fail> {
    let mut object = Kv::empty(alloc);
    for command in commands.split('|') {
        object.update(&Text::new(alloc, command.as_bytes())?)?;
    }
    Ok(object)
}

/// The bytes of three pairs in the order of their keys: how many there are, and then each key and each
/// value after its length.
const THREE: &[u8] = b"\0\0\0\x03\0\x01a\0\x011\0\x02ab\0\x03x.9\0\x01b\0\x01_";

#[test]
fn an_empty_object_is_four_bytes(rt: HostRuntime) -> Result<(), Fail> {
    let image = Kv::empty(rt.alloc()).image()?;
    assert_eq!(rt; image.as_slice(), b"\0\0\0\0".as_slice());
    Ok(())
}

#[test]
fn three_pairs_are_spelt(rt: HostRuntime) -> Result<(), Fail> {
    let object = object_of(
        rt.alloc(),
        "put b _|put a 1|put ab x.9|put c 1|del c|nonsense",
    )?;
    assert_eq!(rt; object.image()?.as_slice(), THREE);
    Ok(())
}

/// What an object answers.
fn answers(
    rt: &impl Abort,
    alloc: Global,
    object: &Kv,
    query: &str,
    wanted: &str,
) -> Result<(), Fail> {
    let answer = object.lookup(&Text::new(alloc, query.as_bytes())?)?;
    assert_eq!(rt; answer.bytes(), wanted.as_bytes(), "{query}");
    Ok(())
}

#[test]
fn three_pairs_are_read(rt: HostRuntime) -> Result<(), Fail> {
    let alloc = rt.alloc();
    let object = Kv::from_image(alloc, THREE)?;
    answers(&rt, alloc, &object, "get ab", "x.9")?;
    answers(&rt, alloc, &object, "get c", "-")?;
    answers(&rt, alloc, &object, "count", "3")?;
    answers(&rt, alloc, &object, "nonsense", "!")?;
    assert_eq!(rt; object.image()?.as_slice(), THREE);
    Ok(())
}

/// Bytes are refused at this place, in these words.
fn is_refused(rt: &impl Abort, alloc: Global, bytes: &[u8], at: usize) -> Result<(), Fail> {
    let Err(fault) = Kv::from_image(alloc, bytes) else {
        return Err(Fail::from("an object"));
    };
    assert!(rt; fault == ImageFault::NotImage { at });
    let wanted = format!(in alloc; "no image of an object: what stands at {at} is refused")?;
    assert_eq!(rt; fault.to_string(alloc)?.as_str(), wanted.as_str());
    Ok(())
}

/// Keys that fall and a key twice; no key, and one in capitals; no value, and one with a space.
#[test]
fn other_pairs_are_refused(rt: HostRuntime) -> Result<(), Fail> {
    let alloc = rt.alloc();
    is_refused(&rt, alloc, b"\0\0\0\x02\0\x01b\0\x011\0\x01a\0\x011", 10)?;
    is_refused(&rt, alloc, b"\0\0\0\x02\0\x01a\0\x011\0\x01a\0\x011", 10)?;
    is_refused(&rt, alloc, b"\0\0\0\x01\0\0\0\x011", 4)?;
    is_refused(&rt, alloc, b"\0\0\0\x01\0\x01A\0\x011", 4)?;
    is_refused(&rt, alloc, b"\0\0\0\x01\0\x01a\0\0", 7)?;
    is_refused(&rt, alloc, b"\0\0\0\x01\0\x01a\0\x01 ", 7)
}

/// A count of 1,000,001, a pair that isn't there, and a byte after the last.
#[test]
fn other_counts_are_refused(rt: HostRuntime) -> Result<(), Fail> {
    let alloc = rt.alloc();
    is_refused(&rt, alloc, b"\0\x0f\x42\x41\0\x01a\0\x011", 0)?;
    is_refused(&rt, alloc, b"\0\0\0\x02\0\x01a\0\x011", 10)?;
    is_refused(&rt, alloc, b"\0\0\0\x01\0\x01a\0\x0110", 10)
}

/// The bytes of one pair, of a key and a value of these lengths.
fn one_pair(alloc: Global, key: u16, value: u16) -> Result<Vec<u8>, Fail> {
    let mut bytes = 1_u32.to_be_bytes().to_vec(alloc)?;
    for (letter, length) in [(b'k', key), (b'v', value)] {
        bytes.extend_from_slice(&length.to_be_bytes())?;
        bytes.resize(bytes.len().saturating_add(length as usize), letter)?;
    }
    Ok(bytes)
}

/// A key has at most 64 bytes, and a value 512.
#[test]
fn long_keys_and_values(rt: HostRuntime) -> Result<(), Fail> {
    let alloc = rt.alloc();
    let longest = one_pair(alloc, 64, 512)?;
    assert!(rt; Kv::from_image(alloc, &longest)?.image()? == longest);
    is_refused(&rt, alloc, &one_pair(alloc, 65, 512)?, 4)?;
    is_refused(&rt, alloc, &one_pair(alloc, 64, 513)?, 70)
}
