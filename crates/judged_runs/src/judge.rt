ghost use Rattle.std.specs.Prelude.{◌↔◌, IfOk, IsTrue};
ghost use Rattle.object_model.specs.Legal.{IsLegalOutput};

use crate::fault::Fault;
use crate::finding::{Counts, Finding};
use crate::marks::{Misprint, marks_of};
use crate::play::play;
use crate::sections::{Kind, Section, is_skipped};
use host_ids::NoMemory;
use object_model::{Mark, entries, is_legal};
use std::alloc::Global;

/// Whether the marks of a whole output are legal by the entries that they show.
fn is_legal_output(alloc: Global, limit: u32, marks: &[Mark]) -> Result<bool, NoMemory>
    ensures { IfOk result (λ b. IsTrue b ↔ IsLegalOutput limit marks.now) }
{
    let list = entries(alloc, marks)?;
    is_legal(alloc, limit, &list, marks)
}

/// How much of each kind there is in an output of these lines and marks.
fn counts(lines: &[&str], marks: &[Mark]) -> Counts {
    let is_entry = |mark: &&Mark| matches!(mark, Mark::Shows { .. });
    let is_ending = |mark: &&Mark| matches!(mark, Mark::Ends { .. });
    let is_read = |mark: &&Mark| matches!(mark, Mark::Reads { .. });
    let is_stale = |mark: &&Mark| matches!(mark, Mark::Stales { .. });
    Counts {
        entries: marks.iter().filter(is_entry).count(),
        endings: marks.iter().filter(is_ending).count(),
        reads: marks.iter().filter(is_read).count(),
        stales: marks.iter().filter(is_stale).count(),
        leaders: lines
            .iter()
            .filter(|line| line.starts_with("leader "))
            .count(),
    }
}

/// Judges a printed output. Its lines after `> ` are lines of the script.
fn judge_output<'a>(alloc: Global, section: &Section<'a>) -> Result<Finding<'a>, Fault> {
    let body = &section.body;
    let script = body.iter().filter_map(|line| line.strip_prefix("> "));
    let script: Vec<&str> = script.collect(alloc)?;
    let marks = marks_of(alloc, &script, body).map_err(|Misprint { before, flaw }| {
        let line = section.line.saturating_add(before as u64).saturating_add(1);
        Fault::Input { line, flaw }
    })?;
    Ok(Finding::Output {
        name: section.head.name,
        is_legal: is_legal_output(alloc, section.head.limit, &marks)?,
    })
}

/// Runs a script, and judges what it prints.
fn judge_script<'a>(alloc: Global, section: &Section<'a>) -> Result<Finding<'a>, Fault> {
    let name = section.head.name;
    let played = play(alloc, &section.body)?;
    if played.status != 0 {
        let status = played.status;
        return Ok(Finding::Failed { name, status });
    }
    let printed: Vec<&str> = played.output.lines().collect(alloc)?;
    let script = section.body.iter().copied();
    let script: Vec<&str> = script.take_while(|line| *line != "end").collect(alloc)?;
    let marks = marks_of(alloc, &script, &printed);
    let marks = marks.map_err(|Misprint { before, flaw }| Fault::Printed {
        line: section.line,
        printed: (before as u64).saturating_add(1),
        flaw,
    })?;
    Ok(Finding::Script {
        name,
        is_legal: is_legal_output(alloc, section.head.limit, &marks)?,
        lines: section.body.iter().filter(|line| !is_skipped(line)).count(),
        counts: counts(&printed, &marks),
    })
}

/// Judges a section.
pub fn judge<'a>(alloc: Global, section: &Section<'a>) -> Result<Finding<'a>, Fault> {
    match section.head.kind {
        Kind::Output => judge_output(alloc, section),
        Kind::Script => judge_script(alloc, section),
    }
}
