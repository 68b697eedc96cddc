//! Judges printed outputs, and what scripts print, by the definition of a legal output.
//!
//! Its input is a text of sections. A section begins with a line `= output LIMIT NAME` or
//! `= script LIMIT NAME` and goes up to the next one: the lines of a printed output, or of a script
//! that is run here in memory. LIMIT is how many sessions may stand.
#![tactic(auto)]

mod fault;
mod finding;
mod judge;
mod marks;
mod play;
mod sections;

use finding::Totals;
use judge::judge;
use sections::sections;
use std::alloc::Global;
use std::io;

/// Judges each section of the input in turn, prints a line for each, and at the end how much it was
/// in all.
fn run(rt: &(impl Input + Print + Alloc<A = Global>)) -> anyhow::Result<()> {
    let alloc = rt.alloc();
    let text = io::read_to_string(alloc, rt.reader())?;
    let mut totals = Totals::new();
    for section in &sections(alloc, text.as_str())? {
        let finding = judge(alloc, section)?;
        println!(rt; "{finding}")?;
        totals.add(&finding);
    }
    println!(rt; "{totals}")?;
    Ok(())
}

fn main(rt: HostRuntime) -> anyhow::Result<()> {
    run(&rt)
}

#[cfg(test)]
mod tests;
