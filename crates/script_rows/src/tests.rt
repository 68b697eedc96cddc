//! What the tests of runs of scripts share, and the runs over memory.
ghost use Rattle.std.specs.Prelude.{Some, drop};

mod answers;
mod lines;
mod printed;

use fault_io::{IoFault, MemSink, MemSource, Sink, Source};
use host_ids::Text;
use script_run::{Status, run_top};
use std::alloc::Global;
use std::process::Abort;
use std::test::Fail;

/// A put and a get.
const PUT_AND_GET: &str =
    "host 1\ngroup 1 regular 1\ntimeout 1 1\nsave 1 1\nsave 1 1\nask 1 1 a put x 5\nsave 1 1\napply 1 1 9\nread 1 1 b get x\nend\n";

/// What they print.
const PUT_AND_GOT: &str =
    "started 1 1\nleader 1 1 1\nask a 1 put x 5\ndone a 2 -\nask b 1 read get x\nread b 2 5\nentry 1 1 - blank\nentry 1 2 a put x 5\nend\n";

/// The words of a call of the program: this one alone.
fn words_of_call(alloc: Global, word: &str) -> Result<Vec<Text>, Fail> {
    let mut words = Vec::new(alloc);
    words.push(Text::new(alloc, word.as_bytes())?)?;
    Ok(words)
}

/// The program on one word, over any source and sink.
fn over<S: Source, T: Sink>(
    alloc: Global,
    word: &str,
    source: &mut S,
    sink: &mut T,
) -> Result<Status, Fail> {
    let words = words_of_call(alloc, word)?;
    Ok(run_top(alloc, words.as_slice(), source, sink))
}

/// The program on one word and a script in memory, with the calls of the source and of the sink
/// that fail.
fn run(
    alloc: Global,
    word: &str,
    script: &str,
    source: &[u64],
    sink: &[u64],
) -> Result<(Status, String), Fail> {
    let mut source = MemSource::new(alloc, script.as_bytes(), source)?;
    let mut sink = MemSink::new(alloc, sink)?;
    let status = over(alloc, word, &mut source, &mut sink)?;
    Ok((status, String::from_utf8_lossy(alloc, sink.bytes())?))
}

/// A script of no failing call ends with this status, and has printed this text.
fn prints(
    rt: &impl Abort,
    alloc: Global,
    script: &str,
    number: u8,
    wanted: &str,
) -> Result<(), Fail> {
    let (status, text) = run(alloc, "run", script, &[], &[])?;
    assert_eq!(rt; status.number, number, "{script}");
    assert_eq!(rt; text.as_str(), wanted, "{script}");
    Ok(())
}

/// The put and the get, on one word, with the calls that fail.
fn fails(
    rt: &impl Abort,
    alloc: Global,
    word: &str,
    calls: (&[u64], &[u64]),
    wanted: (u8, &str),
) -> Result<(), Fail> {
    let (source, sink) = calls;
    let (status, text) = run(alloc, word, PUT_AND_GET, source, sink)?;
    assert_eq!(rt; (status.number, text.as_str()), wanted, "{word} {calls:?}");
    Ok(())
}

/// A failing call of the sink ends a run with status 5, one of the source with status 4, and one that is
/// never made with nothing; other words print the usage.
#[test]
fn faults_and_other_words(rt: HostRuntime) -> Result<(), Fail> {
    let alloc = rt.alloc();
    fails(&rt, alloc, "run", (&[], &[1]), (5, ""))?;
    fails(&rt, alloc, "run", (&[1], &[]), (4, ""))?;
    fails(&rt, alloc, "run", (&[2], &[]), (0, PUT_AND_GOT))?;
    fails(&rt, alloc, "walk", (&[], &[]), (2, "usage\n"))?;
    fails(&rt, alloc, "walk", (&[], &[1]), (5, ""))?;
    Ok(())
}

// ---- a byte a call

/// A source that gives one byte a call.
#[derive(Drop)]
struct ByteSource {
    bytes: Vec<u8>,
    at: usize,
}

impl Source for ByteSource {
    ghost left = { λ s. Some (drop s.at s.bytes.items) };

    ghost fault_count = { λ _. 0 };

    fn take(&mut self, into: &mut [u8]) -> Result<usize, IoFault> {
        match (self.bytes.get(self.at), into.first_mut()) {
            (Some(byte), Some(room)) => {
                *room = *byte;
                self.at += 1;
                Ok(1)
            }
            _ => Ok(0),
        }
    }

    fn faults(&self) -> u64 {
        0
    }
}

/// A sink that takes one byte a call.
#[derive(Drop)]
struct ByteSink {
    written: Vec<u8>,
}

impl Sink for ByteSink {
    ghost contents = { λ s. Some s.written.items };

    ghost fault_count = { λ _. 0 };

    fn put(&mut self, piece: &[u8]) -> Result<usize, IoFault> {
        match piece.first() {
            Some(byte) => {
                self.written.push(*byte)?;
                Ok(1)
            }
            None => Ok(0),
        }
    }

    fn faults(&self) -> u64 {
        0
    }
}

#[test]
fn a_byte_a_call(rt: HostRuntime) -> Result<(), Fail> {
    let alloc = rt.alloc();
    let mut source = ByteSource {
        bytes: Vec::from_slice(alloc, PUT_AND_GET.as_bytes())?,
        at: 0,
    };
    let mut sink = ByteSink {
        written: Vec::new(alloc),
    };
    let status = over(alloc, "run", &mut source, &mut sink)?;
    assert_eq!(rt; status.number, 0);
    assert_eq!(rt; sink.written.as_slice(), PUT_AND_GOT.as_bytes());
    Ok(())
}
