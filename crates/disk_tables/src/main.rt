//! Makes the calls on disks in memory that its input lists, a line each, and prints what each answers.
//!
//! A line that begins with `#` is printed as it stands; one `new` makes an empty depot, of which the
//! lines below it are. Of a byte that is read, 0 is shown as `.` and 255 as `!`.
#![tactic(auto)]

mod calls;
mod flaw;
mod shown;
mod words;

use anyhow::Context;
use calls::call;
use disk_model::MemDepot;
use std::alloc::Global;
use std::io;
use words::Words;

/// Makes each call in turn, and prints a line for each.
fn run(rt: &(impl Input + Print + Alloc<A = Global>)) -> anyhow::Result<()> {
    let alloc = rt.alloc();
    let text = io::read_to_string(alloc, rt.reader())?;
    let mut depot = MemDepot::new(alloc)?;
    for line in text.lines() {
        if line.starts_with('#') {
            println!(rt; "{line}")?;
        } else if line == "new" {
            depot = MemDepot::new(alloc)?;
        } else {
            let answer = call(alloc, &mut depot, Words::new(line)).context(format_args!("{line}"))?;
            println!(rt; "{line}: {answer}")?;
        }
    }
    Ok(())
}

fn main(rt: HostRuntime) -> anyhow::Result<()> {
    run(&rt)
}
