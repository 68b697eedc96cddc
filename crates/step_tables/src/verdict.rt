ghost use Rattle.std.specs.Prelude.{◌≤◌};

use crate::flaw::Flaw;
use crate::table::{Flawed, Line, lines_of};
use crate::{lanes, replicas};
use group_world::Lane;
use raft_core::Replica;
use std::alloc::Global;
use std::fmt;

/// The hosts of the group.
const VOTERS: [u8; 3] = [1, 2, 3];

/// What is found of a table of some name: nothing where all is as the file wants it.
#[derive(Drop)]
pub struct Verdict<'a> {
    name: &'a str,
    found: Option<String>,
}

impl Verdict<'_> {
    /// Whether all is as the file wants it.
    pub fn is_right(&self) -> bool {
        self.found.is_none()
    }
}

impl fmt::Display for Verdict<'_> {
    fn fmt<W: fmt::Write>(&self, f: &mut fmt::Formatter<W>) -> fmt::Result {
        let name = self.name;
        match &self.found {
            None => write!(f, "ok {name}"),
            Some(found) => write!(f, "differs {name}: {found}"),
        }
    }
}

/// The first difference between what stands below a line and what was seen.
fn difference(alloc: Global, line: &Line<'_>, seen: &str) -> Result<Option<String>, Flaw> {
    let mut place = line.number;
    let mut seen = seen.lines();
    for wanted in &line.wanted {
        place = place.saturating_add(1);
        let found = seen.next();
        if found != Some(*wanted) {
            let found = found.unwrap_or("");
            let text = format!(in alloc; "line {place}: wanted `{wanted}`, seen `{found}`")?;
            return Ok(Some(text));
        }
    }
    match seen.next() {
        None => Ok(None),
        Some(more) => Ok(Some(format!(in alloc;
            "line {place}: wanted nothing more, seen `{more}`"
        )?)),
    }
}

/// Gives a replica of this host each line in turn, up to the first difference.
fn replica_found(alloc: Global, me: u8, lines: &[Line<'_>]) -> Result<Option<String>, Flawed>
    requires host { (1 ≤ me) × (me ≤ 9) }
{
    let mut shown = String::new(alloc);
    let mut replica = match Replica::new(alloc, 1, me, &VOTERS) {
        Ok(replica) => replica,
        Err(_) => {
            let flaw = Flaw::NoMemory;
            return Err(Flawed { line: 0, flaw });
        }
    };
    for line in lines {
        let number = line.number;
        let found = replicas::seen_after(alloc, me, line.text, &mut replica, &mut shown)
            .and_then(|seen| difference(alloc, line, seen.as_str()))
            .map_err(|flaw| Flawed { line: number, flaw })?;
        if found.is_some() {
            return Ok(found);
        }
    }
    Ok(None)
}

/// Gives a lane each line in turn, up to the first difference.
fn lane_found(alloc: Global, lines: &[Line<'_>]) -> Result<Option<String>, Flawed> {
    let mut lane = match Lane::new(alloc, 1, &VOTERS) {
        Ok(lane) => lane,
        Err(_) => {
            let flaw = Flaw::NoMemory;
            return Err(Flawed { line: 0, flaw });
        }
    };
    for line in lines {
        let number = line.number;
        let found = lanes::seen_after(alloc, line.text, &mut lane)
            .and_then(|seen| difference(alloc, line, seen.as_str()))
            .map_err(|flaw| Flawed { line: number, flaw })?;
        if found.is_some() {
            return Ok(found);
        }
    }
    Ok(None)
}

/// Runs a table.
fn found_in(alloc: Global, text: &str) -> Result<Option<String>, Flawed> {
    let lines = lines_of(alloc, text)?;
    let Some((first, rest)) = lines.split_first() else {
        let flaw = Flaw::Begin;
        return Err(Flawed { line: 0, flaw });
    };
    if !first.wanted.is_empty() {
        return Err(Flawed {
            line: first.number,
            flaw: Flaw::Above,
        });
    }
    match first.text {
        "replica 1" => replica_found(alloc, 1, rest),
        "replica 2" => replica_found(alloc, 2, rest),
        "replica 3" => replica_found(alloc, 3, rest),
        "lane" => lane_found(alloc, rest),
        _ => Err(Flawed {
            line: first.number,
            flaw: Flaw::Begin,
        }),
    }
}

/// Judges the table of this name that a text is.
pub fn judge<'a>(alloc: Global, name: &'a str, text: &str) -> anyhow::Result<Verdict<'a>> {
    let found = match found_in(alloc, text) {
        Ok(found) => found,
        Err(Flawed { line, flaw }) => Some(format!(in alloc; "line {line} is flawed: {flaw}")?),
    };
    Ok(Verdict { name, found })
}
