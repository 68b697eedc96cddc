use crate::play::Played;
use crate::scenario::{Line, Scenario};
use std::{fmt, iter};

/// A line of an output, or none.
#[derive(Clone, Copy, Debug, PartialEq, Eq)]
pub struct Output<'a>(Option<&'a str>);

impl fmt::Display for Output<'_> {
    fn fmt<W: fmt::Write>(&self, f: &mut fmt::Formatter<W>) -> fmt::Result {
        match self.0 {
            Some(line) => write!(f, "`{line}`"),
            None => write!(f, "nothing"),
        }
    }
}

/// Where a run differs from its scenario.
#[derive(Clone, Copy, Debug, PartialEq, Eq)]
pub enum Difference<'a> {
    /// In what a line printed.
    Printed {
        /// The number in the file of the line that was wanted, or after which none was.
        line: usize,
        /// What was wanted.
        wanted: Output<'a>,
        /// What was printed.
        printed: Output<'a>,
    },
    /// In its exit status.
    Status {
        /// The number in the file of the line that names the status, or of the last one.
        line: usize,
        /// What was wanted.
        wanted: u8,
        /// What was given.
        given: u8,
    },
}

impl fmt::Display for Difference<'_> {
    fn fmt<W: fmt::Write>(&self, f: &mut fmt::Formatter<W>) -> fmt::Result {
        match self {
            Difference::Printed {
                line,
                wanted,
                printed,
            } => write!(
                f,
                "line {line} of the file: wanted {wanted}, printed {printed}"
            ),
            Difference::Status {
                line,
                wanted,
                given,
            } => write!(
                f,
                "line {line} of the file: wanted status {wanted}, ended with status {given}"
            ),
        }
    }
}

/// The first difference between what stands below a line and what it printed.
fn difference_at<'a>(line: &'a Line<'_>, printed: &'a str) -> Option<Difference<'a>> {
    let mut place = line.number;
    let mut printed = printed.lines();
    for wanted in &line.wanted {
        place = place.saturating_add(1);
        let (wanted, printed) = (Output(Some(*wanted)), Output(printed.next()));
        if wanted != printed {
            return Some(Difference::Printed {
                line: place,
                wanted,
                printed,
            });
        }
    }
    let more = printed.next()?;
    Some(Difference::Printed {
        line: place,
        wanted: Output(None),
        printed: Output(Some(more)),
    })
}

/// The first difference between a scenario and a run of its script, its outputs before its status.
pub fn first_difference<'a>(
    scenario: &'a Scenario<'_>,
    played: &'a Played,
) -> Option<Difference<'a>> {
    let lines = scenario.lines.iter().chain(iter::once(&scenario.end));
    for (place, line) in lines.enumerate() {
        let found = difference_at(line, played.printed(place));
        if found.is_some() {
            return found;
        }
    }
    if played.status == scenario.status {
        return None;
    }
    Some(Difference::Status {
        line: scenario.end.number,
        wanted: scenario.status,
        given: played.status,
    })
}
