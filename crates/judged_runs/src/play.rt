use fault_io::{MemSink, MemSource};
use host_ids::{NoMemory, Text};
use script_run::run_top;
use std::alloc::Global;

/// What a run of a script gave.
#[derive(Drop)]
pub struct Played {
    /// Its status.
    pub status: u8,
    /// What it printed.
    pub output: String,
}

/// The text of some lines, each with its line feed.
fn joined(alloc: Global, lines: &[&str]) -> Result<String, NoMemory> {
    let mut text = String::new(alloc);
    for line in lines {
        text.push_str(line)?;
        text.push('\n')?;
    }
    Ok(text)
}

/// Runs the lines of a script in memory. The only error is `NoMemory`.
pub fn play(alloc: Global, script: &[&str]) -> Result<Played, NoMemory> {
    let text = joined(alloc, script)?;
    let mut words = Vec::new(alloc);
    words.push(Text::new(alloc, b"run")?)?;
    let mut source = MemSource::new(alloc, text.as_bytes(), &[])?;
    let mut sink = MemSink::new(alloc, &[])?;
    let status = run_top(alloc, &words, &mut source, &mut sink).number;
    let output = String::from_utf8_lossy(alloc, sink.bytes())?;
    Ok(Played { status, output })
}
