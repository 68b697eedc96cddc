ghost use Rattle.std.specs.Prelude.{None};

use crate::scenario::{Line, Scenario};
use fault_io::{IoFault, Sink, Source};
use host_ids::{NoMemory, Text};
use script_run::run_top;
use std::alloc::Global;
use std::cell::RefCell;

/// A sink that keeps what is written where the source can look at it.
#[derive(Drop)]
struct SharedSink<'a> {
    written: &'a RefCell<Vec<u8>>,
}

impl Sink for SharedSink<'_> {
    ghost contents = { λ _. None };

    ghost fault_count = { λ _. 0 };

    fn put(&mut self, piece: &[u8]) -> Result<usize, IoFault> {
        match self.written.try_borrow_mut() {
            Ok(mut written) => {
                written.extend_from_slice(piece)?;
                Ok(piece.len())
            }
            Err(_) => Err(IoFault::NoMemory),
        }
    }

    fn faults(&self) -> u64 {
        0
    }
}

/// A source that gives one line of a script a call, with its line feed, and notes at each call how many
/// bytes were written before. A line that doesn't fit ends it.
#[derive(Drop)]
struct LineSource<'a> {
    lines: &'a [Line<'a>],
    given: usize,
    written: &'a RefCell<Vec<u8>>,
    seen: Vec<usize>,
}

impl Source for LineSource<'_> {
    ghost left = { λ _. None };

    ghost fault_count = { λ _. 0 };

    fn take(&mut self, into: &mut [u8]) -> Result<usize, IoFault> {
        let written = match self.written.try_borrow() {
            Ok(written) => written.len(),
            Err(_) => return Err(IoFault::NoMemory),
        };
        self.seen.push(written)?;
        match self.lines.get(self.given) {
            Some(line) if line.text.len() < into.len() => {
                let length = line.text.len();
                into[..length].copy_from_slice(line.text.as_bytes());
                into[length] = b'\n';
                self.given += 1;
                Ok(length + 1)
            }
            _ => Ok(0),
        }
    }

    fn faults(&self) -> u64 {
        0
    }
}

/// What a run of a script gave.
#[derive(Drop)]
pub struct Played {
    /// Its status.
    pub status: u8,
    /// What it printed.
    output: String,
    /// For each line that was taken, and for the end of the script if it came there, how many bytes were
    /// written before.
    seen: Vec<usize>,
}

impl Played {
    /// What the line at this place printed. Places begin at 0, and that of the end of the script is the
    /// one after the last line's. A run has written what a line prints before it takes the next one.
    pub fn printed(&self, place: usize) -> &str {
        let all = self.output.len();
        let from = self.seen.get(place).copied().unwrap_or(all);
        let to = self
            .seen
            .get(place.saturating_add(1))
            .copied()
            .unwrap_or(all);
        self.output.get(from..to).unwrap_or("")
    }
}

/// Runs the script of a scenario in memory, a line at a time. The only error is `NoMemory`.
pub fn play(alloc: Global, scenario: &Scenario<'_>) -> Result<Played, NoMemory> {
    let mut words = Vec::new(alloc);
    words.push(Text::new(alloc, b"run")?)?;
    let written = RefCell::new(Vec::new(alloc));
    let mut source = LineSource {
        lines: &scenario.lines,
        given: 0,
        written: &written,
        seen: Vec::new(alloc),
    };
    let mut sink = SharedSink { written: &written };
    let status = run_top(alloc, &words, &mut source, &mut sink).number;
    let LineSource { seen, .. } = source;
    let output = String::from_utf8_lossy(alloc, &written.into_inner())?;
    Ok(Played {
        status,
        output,
        seen,
    })
}
