//! Runs the scenarios that lie in the current folder, and says of each whether every line of its script
//! printed what stands below it.
//!
//! A scenario is a file whose first lines begin with `#` and say what to watch. Then come the lines of a
//! script, at the margin, and below each line what it prints, indented by four spaces. A script that
//! ends otherwise than at its `end` has a last line `= status N` with its exit status. What is printed
//! for a script that stops before its `end` stands below that line, and what a bad line prints below
//! the bad line. Lines of a script are numbered without those that say what to watch.
#![tactic(auto)]

mod difference;
mod flaw;
mod play;
mod scenario;
mod verdict;

use anyhow::Context;
use scenario::is_scenario;
use std::alloc::Global;
use std::process::ExitCode;
use std::rt::Files;
use std::{fs, str};
use verdict::judge;

/// The names of the files in the current folder, in ascending order.
fn names<R: Files + Alloc<A = Global> + Clone + Drop>(rt: &R) -> anyhow::Result<Vec<String>> {
    let mut names = Vec::new(rt.alloc());
    for entry in fs::read_dir(rt, ".").context("reading the folder")? {
        let entry = entry.context("reading the folder")?;
        if entry.file_type().context("reading the folder")?.is_file() {
            names.push(String::from_str(rt.alloc(), entry.file_name())?)?;
        }
    }
    names.sort()?;
    Ok(names)
}

/// Runs each scenario in turn and prints a line for each. Answers whether all printed what they should.
fn run<R: Files + Print + Alloc<A = Global> + Clone + Drop>(rt: &R) -> anyhow::Result<bool> {
    let mut is_right = true;
    for name in &names(rt)? {
        let bytes = fs::read(rt, name.as_str()).context(format_args!("reading {name}"))?;
        if !is_scenario(&bytes) {
            continue;
        }
        let text = str::from_utf8(&bytes).context(format_args!("reading {name}"))?;
        let verdict = judge(rt.alloc(), name, text)?;
        println!(rt; "{verdict}")?;
        is_right = is_right && verdict.is_right();
    }
    Ok(is_right)
}

fn main(rt: HostRuntime) -> anyhow::Result<ExitCode> {
    let is_right = run(&rt)?;
    Ok(if is_right {
        ExitCode::SUCCESS
    } else {
        ExitCode::FAILURE
    })
}

#[cfg(test)]
mod tests;
