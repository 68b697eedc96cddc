//! Runs the tables that lie in the current folder, and says of each whether every line of it showed what
//! stands below that line.
//!
//! A table is a file that begins with `#`. Its first line that doesn't begin so names a replica or a
//! lane, and each further one an input or an event; what is to be seen after a line stands below it,
//! indented by four spaces.
#![tactic(auto)]

mod events;
mod flaw;
mod inputs;
mod lanes;
mod replicas;
mod shown;
mod table;
mod verdict;
mod words;

use anyhow::Context;
use std::alloc::Global;
use std::process::ExitCode;
use std::rt::Files;
use std::{fs, str};
use table::is_table;
use verdict::judge;

/// The names of the files in the current folder, in ascending order.
fn names<R: Files + Alloc<A = Global> + Clone + Drop>(rt: &R) -> anyhow::Result<Vec<String>> {
    let mut names = Vec::new(rt.alloc());
    for entry in fs::read_dir(rt, ".").context("reading the folder")? {
        let entry = entry.context("reading the folder")?;
        if entry.file_type().context("reading the folder")?.is_file() {
            names.push(String::from_str(rt.alloc(), entry.file_name())?)?;
        }
    }
    names.sort()?;
    Ok(names)
}

/// Runs each table in turn and prints a line for each. Answers whether all showed what they should.
fn run<R: Files + Print + Alloc<A = Global> + Clone + Drop>(rt: &R) -> anyhow::Result<bool> {
    let mut is_right = true;
    for name in &names(rt)? {
        let bytes = fs::read(rt, name.as_str()).context(format_args!("reading {name}"))?;
        if !is_table(&bytes) {
            continue;
        }
        let text = str::from_utf8(&bytes).context(format_args!("reading {name}"))?;
        let verdict = judge(rt.alloc(), name, text)?;
        println!(rt; "{verdict}")?;
        is_right = is_right && verdict.is_right();
    }
    Ok(is_right)
}

fn main(rt: HostRuntime) -> anyhow::Result<ExitCode> {
    let is_right = run(&rt)?;
    Ok(if is_right {
        ExitCode::SUCCESS
    } else {
        ExitCode::FAILURE
    })
}
