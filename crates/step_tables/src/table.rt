use crate::flaw::Flaw;
use std::alloc::Global;

/// What stands before each line of what is to be seen.
const INDENT: &str = "    ";

/// A line at the margin of the file, and what stands below it.
#[derive(Drop)]
pub struct Line<'a> {
    /// Its number in the file, from 1 on.
    pub number: usize,
    /// The line itself.
    pub text: &'a str,
    /// What is to be seen after it.
    pub wanted: Vec<&'a str>,
}

/// A flaw, and the number of its line in the file, from 1 on.
#[derive(Clone, Copy)]
pub struct Flawed {
    /// The number.
    pub line: usize,
    /// What is wrong with the line.
    pub flaw: Flaw,
}

/// Whether the bytes of a file are to be read as a table: they begin with a sentence of what to watch.
pub fn is_table(bytes: &[u8]) -> bool {
    bytes.starts_with(b"#")
}

/// Adds a line of the file, with its number there.
fn add<'a>(
    alloc: Global,
    lines: &mut Vec<Line<'a>>,
    number: usize,
    text: &'a str,
) -> Result<(), Flaw> {
    match text.strip_prefix(INDENT) {
        Some(wanted) => match lines.last_mut() {
            Some(line) => line.wanted.push(wanted)?,
            None => return Err(Flaw::Above),
        },
        None => lines.push(Line {
            number,
            text,
            wanted: Vec::new(alloc),
        })?,
    }
    Ok(())
}

/// The lines of a file, without empty ones and those that begin with `#`.
pub fn lines_of(alloc: Global, text: &str) -> Result<Vec<Line<'_>>, Flawed> {
    let mut lines = Vec::new(alloc);
    let mut number = 0usize;
    for line in text.lines() {
        number = number.saturating_add(1);
        if !line.is_empty() && !line.starts_with('#') {
            add(alloc, &mut lines, number, line).map_err(|flaw| Flawed { line: number, flaw })?;
        }
    }
    Ok(lines)
}
