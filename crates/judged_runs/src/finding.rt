use std::fmt;

/// How much an output shows.
#[derive(Clone, Copy)]
pub struct Counts {
    /// Entries of the decided list.
    pub entries: usize,
    /// Requests that end at a place.
    pub endings: usize,
    /// Reads that are answered.
    pub reads: usize,
    /// Queries that are answered from what one host has applied.
    pub stales: usize,
    /// Elections that are won.
    pub leaders: usize,
}

/// What is found of a section.
#[derive(Clone, Copy)]
pub enum Finding<'a> {
    /// Of a printed output.
    Output {
        /// What the section is called.
        name: &'a str,
        /// Whether it is legal by the entries that it shows.
        is_legal: bool,
    },
    /// Of a script that didn't come to its `end`.
    Failed {
        /// What the section is called.
        name: &'a str,
        /// The status of the run.
        status: u8,
    },
    /// Of a script that was run.
    Script {
        /// What the section is called.
        name: &'a str,
        /// Whether its output is legal by the entries that it shows.
        is_legal: bool,
        /// How many lines the script has, without empty ones and comments.
        lines: usize,
        /// How much its output shows.
        counts: Counts,
    },
}

/// The words of a verdict.
fn verdict(is_legal: bool) -> &'static str {
    if is_legal { "legal" } else { "not legal" }
}

impl fmt::Display for Counts {
    fn fmt<W: fmt::Write>(&self, f: &mut fmt::Formatter<W>) -> fmt::Result {
        let Counts {
            entries,
            endings,
            reads,
            stales,
            leaders,
        } = self;
        write!(
            f,
            "{entries} entries, {endings} done, {reads} reads, {stales} stale, {leaders} leaders"
        )
    }
}

impl fmt::Display for Finding<'_> {
    fn fmt<W: fmt::Write>(&self, f: &mut fmt::Formatter<W>) -> fmt::Result {
        match self {
            Finding::Output { name, is_legal } => {
                let verdict = verdict(*is_legal);
                write!(f, "{verdict} {name}")
            }
            Finding::Failed { name, status } => write!(f, "status {status} {name}"),
            Finding::Script {
                name,
                is_legal,
                lines,
                counts,
            } => {
                let verdict = verdict(*is_legal);
                write!(f, "{verdict} {name}: {lines} lines, {counts}")
            }
        }
    }
}

/// How much all scripts together are.
#[derive(Drop)]
pub struct Totals {
    scripts: usize,
    lines: usize,
    entries: usize,
}

impl Totals {
    /// Of no script.
    pub fn new() -> Totals {
        Totals {
            scripts: 0,
            lines: 0,
            entries: 0,
        }
    }

    /// Adds what was found, if it is of a script that came to its end. The numbers stop at 2^64-1.
    pub fn add(&mut self, finding: &Finding<'_>) {
        if let Finding::Script { lines, counts, .. } = finding {
            self.scripts = self.scripts.saturating_add(1);
            self.lines = self.lines.saturating_add(*lines);
            self.entries = self.entries.saturating_add(counts.entries);
        }
    }
}

impl fmt::Display for Totals {
    fn fmt<W: fmt::Write>(&self, f: &mut fmt::Formatter<W>) -> fmt::Result {
        let Totals {
            scripts,
            lines,
            entries,
        } = self;
        write!(
            f,
            "in all: {scripts} scripts, {lines} lines, {entries} entries"
        )
    }
}
