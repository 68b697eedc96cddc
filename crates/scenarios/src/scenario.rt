use crate::flaw::{Fault, Flaw};
use std::alloc::Global;

/// What stands before each line of an output.
const INDENT: &str = "    ";

/// A line at the margin of the file, and what stands below it.
#[derive(Drop)]
pub struct Line<'a> {
    /// Its number in the file, from 1 on.
    pub number: usize,
    /// The line itself.
    pub text: &'a str,
    /// What it should print.
    pub wanted: Vec<&'a str>,
}

impl<'a> Line<'a> {
    fn new(alloc: Global, number: usize, text: &'a str) -> Line<'a> {
        Line {
            number,
            text,
            wanted: Vec::new(alloc),
        }
    }
}

/// A script, and what it should print.
#[derive(Drop)]
pub struct Scenario<'a> {
    /// The lines of the script.
    pub lines: Vec<Line<'a>>,
    /// The end of the script, and what should be printed there: the line of the status if the file has
    /// one.
    pub end: Line<'a>,
    /// The exit status that is wanted.
    pub status: u8,
}

/// Whether the bytes of a file are to be read as a scenario: they begin with a sentence of what to
/// watch.
pub fn is_scenario(bytes: &[u8]) -> bool {
    bytes.starts_with(b"#")
}

/// How many lines stand above the script: those at the front that begin with `#`.
fn head_length(text: &str) -> usize {
    text.lines()
        .take_while(|line| line.starts_with('#'))
        .count()
}

/// The status that a line names, if it begins with `=`.
fn status_in(line: &str) -> Result<Option<u8>, Flaw> {
    if !line.starts_with('=') {
        return Ok(None);
    }
    match line
        .strip_prefix("= status ")
        .map(|word| word.parse::<u8>())
    {
        Some(Ok(status)) => Ok(Some(status)),
        _ => Err(Flaw::Status),
    }
}

/// A scenario that is read line by line.
#[derive(Drop)]
struct Draft<'a> {
    lines: Vec<Line<'a>>,
    status: Option<u8>,
}

impl<'a> Draft<'a> {
    /// Adds a line of the file, with its number there.
    fn add(&mut self, alloc: Global, number: usize, text: &'a str) -> Result<(), Fault> {
        let fault = |flaw| Fault::Line { line: number, flaw };
        if let Some(output) = text.strip_prefix(INDENT) {
            let line = self.lines.last_mut().ok_or(fault(Flaw::Above))?;
            line.wanted.push(output)?;
            return Ok(());
        }
        if self.status.is_some() {
            return Err(fault(Flaw::Below));
        }
        self.status = status_in(text).map_err(fault)?;
        self.lines.push(Line::new(alloc, number, text))?;
        Ok(())
    }

    /// The scenario of all lines that were added, of a file of this length in lines.
    fn finish(self, alloc: Global, count: usize) -> Scenario<'a> {
        let Draft { mut lines, status } = self;
        let named = match status {
            Some(_) => lines.pop(),
            None => None,
        };
        let end = match named {
            Some(line) => line,
            None => Line::new(alloc, count, ""),
        };
        Scenario {
            lines,
            end,
            status: status.unwrap_or(0),
        }
    }
}

/// The scenario that a text is.
pub fn scenario_of(alloc: Global, text: &str) -> Result<Scenario<'_>, Fault> {
    let mut draft = Draft {
        lines: Vec::new(alloc),
        status: None,
    };
    let mut number = 0usize;
    let head = head_length(text);
    for line in text.lines() {
        number = number.saturating_add(1);
        if number > head {
            draft.add(alloc, number, line)?;
        }
    }
    Ok(draft.finish(alloc, number))
}
