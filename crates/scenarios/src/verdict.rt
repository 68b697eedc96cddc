use crate::difference::first_difference;
use crate::flaw::Fault;
use crate::play::play;
use crate::scenario::scenario_of;
use std::alloc::Global;
use std::fmt;

/// What is found of a scenario.
#[derive(Drop)]
enum Finding {
    /// All is as the file wants it.
    Same,
    /// Something differs, which this text says.
    Differs(String),
    /// The file is no scenario.
    Flawed(Fault),
}

/// What is found of a scenario of some name.
#[derive(Drop)]
pub struct Verdict<'a> {
    name: &'a str,
    finding: Finding,
}

impl Verdict<'_> {
    /// Whether all is as the file wants it.
    pub fn is_right(&self) -> bool {
        matches!(self.finding, Finding::Same)
    }
}

impl fmt::Display for Verdict<'_> {
    fn fmt<W: fmt::Write>(&self, f: &mut fmt::Formatter<W>) -> fmt::Result {
        let name = self.name;
        match &self.finding {
            Finding::Same => write!(f, "ok {name}"),
            Finding::Differs(difference) => write!(f, "differs {name}: {difference}"),
            Finding::Flawed(fault) => write!(f, "flawed {name}: {fault}"),
        }
    }
}

/// Runs the script of a scenario, and compares.
fn finding_of(alloc: Global, text: &str) -> anyhow::Result<Finding> {
    let scenario = match scenario_of(alloc, text) {
        Ok(scenario) => scenario,
        Err(fault) => return Ok(Finding::Flawed(fault)),
    };
    let played = play(alloc, &scenario)?;
    Ok(match first_difference(&scenario, &played) {
        None => Finding::Same,
        Some(found) => Finding::Differs(format!(in alloc; "{found}")?),
    })
}

/// Judges the scenario of this name that a text is.
pub fn judge<'a>(alloc: Global, name: &'a str, text: &str) -> anyhow::Result<Verdict<'a>> {
    let finding = finding_of(alloc, text)?;
    Ok(Verdict { name, finding })
}
