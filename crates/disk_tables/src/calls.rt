ghost use Rattle.std.specs.Prelude.{◌≤◌};
ghost use Rattle.disk_model.specs.Depot.{IsHost};

use crate::flaw::Flaw;
use crate::shown::{bytes_text, done_text, numbers_text};
use crate::words::Words;
use disk_model::{Depot, Disk, DiskFault, MemDepot};
use std::alloc::Global;

/// Reads and shows what was read.
fn read<D: Disk>(alloc: Global, disk: &mut D, words: &mut Words<'_>) -> Result<String, Flaw> {
    let file = words.number()?;
    let at = words.number()?;
    let count = words.number()? as usize;
    let mut into = vec![in alloc; 0; count]?;
    let Some(_) = at.checked_add(into.len() as u64) else {
        return Err(Flaw::Number);
    };
    match disk.read(file, at, into.as_mut_slice()) {
        Ok(moved) => Ok(bytes_text(alloc, &into[..moved.min(into.len())])?),
        Err(fault) => Ok(done_text(alloc, Err(fault))?),
    }
}

/// Writes a word.
fn write<D: Disk>(alloc: Global, disk: &mut D, words: &mut Words<'_>) -> Result<String, Flaw>
    ensures { (D.state disk.old).faults ≤ (D.state disk.new).faults }
{
    let file = words.number()?;
    let at = words.number()?;
    let bytes = words.word().as_bytes();
    let Some(_) = at.checked_add(bytes.len() as u64) else {
        return Err(Flaw::Number);
    };
    Ok(done_text(alloc, disk.write_at(file, at, bytes))?)
}

/// Writes a word at the end of a file, and makes sure of it, as often as the line says.
fn append<D: Disk>(alloc: Global, disk: &mut D, words: &mut Words<'_>) -> Result<String, Flaw> {
    let file = words.number()?;
    let times = words.number()?;
    let bytes = words.word().as_bytes();
    let mut at = 0u64;
    let mut answer = Ok(());
    for _ in 0..times {
        let Some(end) = at.checked_add(bytes.len() as u64) else {
            return Err(Flaw::Number);
        };
        answer = disk
            .write_at(file, at, bytes)
            .and_then(|()| disk.sync(file));
        at = end;
    }
    Ok(done_text(alloc, answer)?)
}

/// One call of a disk.
fn on_disk<D: Disk>(
    alloc: Global,
    disk: &mut D,
    verb: &str,
    words: &mut Words<'_>,
) -> Result<String, Flaw> {
    match verb {
        "read" => read(alloc, disk, words),
        "write" => write(alloc, disk, words),
        "append" => append(alloc, disk, words),
        "cut" => {
            let file = words.number()?;
            let size = words.number()?;
            Ok(done_text(alloc, disk.cut(file, size))?)
        }
        "sync" => Ok(done_text(alloc, disk.sync(words.number()?))?),
        "remove" => Ok(done_text(alloc, disk.remove(words.number()?))?),
        "size" => match disk.size(words.number()?) {
            Ok(size) => Ok(format!(in alloc; "{size}")?),
            Err(fault) => Ok(done_text(alloc, Err(fault))?),
        },
        "list" => match disk.list() {
            Ok(numbers) => Ok(numbers_text(alloc, numbers.as_slice())?),
            Err(fault) => Ok(done_text(alloc, Err(fault))?),
        },
        "faults" => Ok(format!(in alloc; "{}", disk.faults())?),
        _ => Err(Flaw::Verb),
    }
}

/// Writes a word to a disk that is taken for it, and given back then.
fn away<P: Depot>(
    alloc: Global,
    depot: &mut P,
    host: u8,
    words: &mut Words<'_>,
) -> Result<String, Flaw>
    requires { IsHost host }
{
    let Some(mut disk) = depot.take(host) else {
        return Err(Flaw::Taken);
    };
    let answer = write(alloc, &mut disk, words);
    depot.give(host, disk);
    answer
}

/// One call of a depot, or of the disk of a host.
fn on_depot<P: Depot>(
    alloc: Global,
    depot: &mut P,
    host: u8,
    verb: &str,
    words: &mut Words<'_>,
) -> Result<String, Flaw>
    requires { IsHost host }
{
    match verb {
        "arm" => {
            depot.arm(host, words.number()?);
            Ok(String::from_str(alloc, "ok")?)
        }
        "power" => {
            let choice = words.choice()?;
            Ok(done_text(alloc, depot.power(host, choice))?)
        }
        "away" => away(alloc, depot, host, words),
        _ => match depot.disk(host) {
            Some(disk) => on_disk(alloc, disk, verb, words),
            None => Err(Flaw::Taken),
        },
    }
}

/// Makes the call that a line names: the call, the host, and what it takes.
pub fn call(alloc: Global, depot: &mut MemDepot, mut words: Words<'_>) -> Result<String, Flaw> {
    let verb = words.word();
    let host = words.host()?;
    match verb {
        "fail" => Ok(done_text(alloc, depot.fail(host, words.number()?))?),
        "damage" => {
            let loss = words.number()?;
            let file = words.number()?;
            let bytes = words.word().as_bytes();
            Ok(done_text(alloc, depot.damage(host, loss, file, bytes))?)
        }
        _ => on_depot(alloc, depot, host, verb, &mut words),
    }
}
