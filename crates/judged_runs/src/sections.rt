ghost use Rattle.std.specs.Prelude.{◌≤◌, IfOk};

use crate::fault::{Fault, Flaw};
use object_model::number_of;
use std::alloc::Global;

/// What the lines of a section are.
#[derive(Clone, Copy, Debug, PartialEq, Eq)]
pub enum Kind {
    /// What a run printed.
    Output,
    /// A script to be run.
    Script,
}

/// The head of a section.
#[derive(Clone, Copy)]
pub struct Head<'a> {
    /// What its lines are.
    pub kind: Kind,
    /// How many sessions may stand.
    pub limit: u32,
    /// What it is called.
    pub name: &'a str,
}

/// A section of the input.
#[derive(Drop)]
pub struct Section<'a> {
    /// Its head.
    pub head: Head<'a>,
    /// The number of its head in the input, from 1 on.
    pub line: u64,
    /// The lines after its head.
    pub body: Vec<&'a str>,
}

/// The greatest limit of sessions.
const MOST_SESSIONS: u64 = 4096;

/// A limit of sessions, 1 to 4,096.
fn limit_of(word: &str) -> Result<u32, Flaw>
    ensures least { IfOk result (λ limit. 1 ≤ limit) }
    ensures most { IfOk result (λ limit. limit ≤ 4096) }
{
    match number_of(MOST_SESSIONS, word.as_bytes()) {
        None | Some(0) => Err(Flaw::Limit),
        Some(limit) => Ok(limit as u32),
    }
}

/// The head that these words are, `KIND LIMIT NAME`.
fn head_of(text: &str) -> Result<Head<'_>, Flaw> {
    let (kind, rest) = text.split_once(' ').unwrap_or((text, ""));
    let kind = match kind {
        "output" => Kind::Output,
        "script" => Kind::Script,
        _ => return Err(Flaw::Kind),
    };
    let (limit, name) = rest.split_once(' ').unwrap_or((rest, ""));
    let limit = limit_of(limit)?;
    if name.is_empty() {
        return Err(Flaw::Name);
    }
    Ok(Head { kind, limit, name })
}

/// Whether a line says nothing, as it is empty or a comment.
pub fn is_skipped(line: &str) -> bool {
    line.is_empty() || line.starts_with('#')
}

/// Adds a line to the section that has begun last.
fn add_line<'a>(sections: &mut [Section<'a>], number: u64, line: &'a str) -> Result<(), Fault> {
    match sections.last_mut() {
        Some(section) => section.body.push(line)?,
        None => {
            if !is_skipped(line) {
                let flaw = Flaw::Outside;
                return Err(Fault::Input { line: number, flaw });
            }
        }
    }
    Ok(())
}

/// The sections of a text, in order.
pub fn sections(alloc: Global, text: &str) -> Result<Vec<Section<'_>>, Fault> {
    let mut found = Vec::new(alloc);
    for (at, line) in text.lines().enumerate() {
        let number = (at as u64).saturating_add(1);
        match line.strip_prefix("= ") {
            Some(head) => {
                let head = head_of(head).map_err(|flaw| Fault::Input { line: number, flaw })?;
                let body = Vec::new(alloc);
                found.push(Section {
                    head,
                    line: number,
                    body,
                })?;
            }
            None => add_line(&mut found, number, line)?,
        }
    }
    Ok(found)
}
