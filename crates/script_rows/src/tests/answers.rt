//! Sources and sinks that tell nothing of their bytes, and those of the standard library.
ghost use Rattle.std.specs.Prelude.{None};

use super::over;
use fault_io::{IoFault, Sink, Source, StdSink, StdSource};
use host_ids::Text;
use std::alloc::Global;
use std::cell::RefCell;
use std::process::Abort;
use std::rc::Rc;
use std::test::Fail;

/// A sink that keeps what is written where others can look at it.
#[derive(Drop)]
struct SharedSink {
    written: Rc<RefCell<Vec<u8>>>,
}

impl Sink for SharedSink {
    ghost contents = { λ _. None };

    ghost fault_count = { λ _. 0 };

    fn put(&mut self, piece: &[u8]) -> Result<usize, IoFault> {
        match self.written.try_borrow_mut() {
            Ok(mut written) => {
                written.extend_from_slice(piece)?;
                Ok(piece.len())
            }
            Err(_) => Err(IoFault::NoMemory),
        }
    }

    fn faults(&self) -> u64 {
        0
    }
}

/// A source of pieces, one a call, which notes at each call how many bytes were written before.
#[derive(Drop)]
struct WatchingSource {
    pieces: Vec<Text>,
    given: usize,
    written: Rc<RefCell<Vec<u8>>>,
    seen: Vec<usize>,
}

impl Source for WatchingSource {
    ghost left = { λ _. None };

    ghost fault_count = { λ _. 0 };

    fn take(&mut self, into: &mut [u8]) -> Result<usize, IoFault> {
        let written = match self.written.try_borrow() {
            Ok(written) => written.len(),
            Err(_) => return Err(IoFault::NoMemory),
        };
        self.seen.push(written)?;
        match self.pieces.get(self.given) {
            Some(piece) if piece.bytes().len() <= into.len() => {
                let count = piece.bytes().len();
                into[..count].copy_from_slice(piece.bytes());
                self.given += 1;
                Ok(count)
            }
            _ => Ok(0),
        }
    }

    fn faults(&self) -> u64 {
        0
    }
}

/// The pieces of a script, with a bar between them.
fn pieces_of(alloc: Global, script: &str) -> Result<Vec<Text>, Fail> {
    let mut pieces = Vec::new(alloc);
    for piece in script.split('|') {
        pieces.push(Text::new(alloc, piece.as_bytes())?)?;
    }
    Ok(pieces)
}

/// A source of these pieces, beside what is written.
fn watching(
    alloc: Global,
    script: &str,
    written: Rc<RefCell<Vec<u8>>>,
) -> Result<WatchingSource, Fail> {
    Ok(WatchingSource {
        pieces: pieces_of(alloc, script)?,
        given: 0,
        written,
        seen: Vec::new(alloc),
    })
}

/// What each piece prints is there when the next one is taken, and after the piece that holds the
/// word `end` none is.
#[test]
fn each_answer_comes_before_the_next_take(rt: HostRuntime) -> Result<(), Fail> {
    let alloc = rt.alloc();
    let script = "host 1\nho|st 2\n# a comment|\nhost 2\nhost 3|\nend\nhost 4\n|host 5\n";
    let written = Rc::new(alloc, RefCell::new(Vec::new(alloc)))?;
    let mut source = watching(alloc, script, Rc::clone(&written)?)?;
    let mut sink = SharedSink {
        written: Rc::clone(&written)?,
    };
    let status = over(alloc, "run", &mut source, &mut sink)?;
    assert_eq!(rt; (status.number, source.given), (0, 4));
    assert_eq!(rt; source.seen.as_slice(), [0, 12, 24, 35].as_slice());
    let printed = b"started 1 1\nstarted 2 1\nrefused 13\nstarted 3 1\nend\n";
    assert!(rt; matches!(written.try_borrow(), Ok(kept) if kept.as_slice() == printed.as_slice()));
    Ok(())
}

/// A take over a slice of std moves this many bytes, and this is in the buffer then.
fn takes(
    rt: &impl Abort,
    source: &mut StdSource<&[u8]>,
    into: &mut [u8],
    count: usize,
    wanted: &[u8],
) -> Result<(), Fail> {
    assert_eq!(rt; source.take(into), Ok(count));
    assert_eq!(rt; &*into, wanted);
    Ok(())
}

/// What is in the buffer after the bytes that came stays there.
#[test]
fn a_short_take_leaves_the_rest(rt: HostRuntime) -> Result<(), Fail> {
    let mut source = StdSource::new(b"abc".as_slice());
    let mut into = [0; 2];
    takes(&rt, &mut source, &mut into, 2, b"ab")?;
    takes(&rt, &mut source, &mut into, 1, b"cb")?;
    takes(&rt, &mut source, &mut into, 0, b"cb")
}

/// Over a reader and a writer of std that tell their bytes the program is as it is over memory.
#[test]
fn over_a_slice_and_a_vector(rt: HostRuntime) -> Result<(), Fail> {
    let alloc = rt.alloc();
    let mut written = Vec::new(alloc);
    let script: &[u8] = b"host 1\nend\n";
    let mut source = StdSource::new(script);
    let mut sink = StdSink::new(&mut written);
    let status = over(alloc, "run", &mut source, &mut sink)?;
    assert_eq!(rt; status.number, 0);
    assert_eq!(rt; written.as_slice(), b"started 1 1\nend\n".as_slice());
    Ok(())
}
