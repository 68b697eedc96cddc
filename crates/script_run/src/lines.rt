ghost use Rattle.std.specs.Prelude.{◌≡◌, ◌++◌, ◌<◌, ◌≤◌, ◌^◌, true, IfOk, OnOk, length, List, ℕ};
ghost use Rattle.run_model.specs.Run.{reached, text_of, turn};
ghost use Rattle.script_text.specs.Script.{is_end};
ghost use Rattle.script_text.specs.Fit.{is_fit_line};
ghost use Rattle.script_world.specs.World.{world_of};
ghost use Rattle.script_text.specs.declared.limit.TheConstants.{MOST_SCRIPT};
ghost use Rattle.script_run.specs.Top.{HasGone, place_in};

use crate::cut::first_line;
use host_ids::NoMemory;
use run_model::Stop;
use script_text::{
    Buffer, Limit, LineFault, MOST_LINE, ScriptLine, Told, Tolds, push_line, read_line,
};
use script_world::World;
use std::alloc::Global;

/// A run that is under way: its world, and how many lines of how
/// many bytes were run.
#[derive(Drop)]
pub struct Runner {
    pub world: World,
    pub lines: u64,
    pub size: usize,
}

/// What the running of a text comes to: a stop, or less than a line that is left.
#[derive(Clone, Copy, Debug)]
pub enum Progress<'a> {
    Stopped { stop: Stop },
    Left { rest: &'a [u8] },
}

fn is_end(line: &ScriptLine) -> bool
    ensures { result ≡ is_end line.now }
{
    matches!(line, ScriptLine::End)
}

/// Prints lines.
pub fn print_all(told: &[Told], out: &mut Buffer) -> Result<(), NoMemory>
    ensures { OnOk result (out.new ≡ out.old ++ text_of told.now) }
{
    for line in told {
        push_line(out, &line.context, &line.line)?;
    }
    Ok(())
}

/// Does what a line says, and prints its lines. Answers the limit that was reached in it.
fn run_line(
    alloc: Global,
    line: ScriptLine,
    size: usize,
    world: &mut World,
    out: &mut Buffer,
) -> Result<Option<Limit>, NoMemory>
    requires { is_fit_line line ≡ true }
    ensures world { OnOk result (world_of world.new ≡ (turn line size (world_of world.old)).world) }
    ensures told { OnOk result (out.new ≡ out.old ++ text_of (turn line size (world_of world.old)).told) }
    ensures full { IfOk result (λ full. full ≡ (turn line size (world_of world.old)).full) }
{
    let mut told = Tolds::new(alloc);
    let full = world.turn(line, size, &mut told)?;
    print_all(told.items(), out)?;
    Ok(full)
}

/// Runs the whole lines of a text, and prints what each tells.
pub fn run_whole<'a>(
    alloc: Global,
    text: &'a [u8],
    runner: &mut Runner,
    out: &mut Buffer,
) -> Result<Progress<'a>, NoMemory>
    requires counts { runner.old.lines ≤ runner.old.size }
    requires below { runner.old.size < MOST_SCRIPT }
    requires length { length text.now ≤ 2 ^ 32 }
    ensures { IfOk result (λ progress. HasGone out.old out.new (place_in runner.old) text.now progress (place_in runner.new)) }
{
    let mut rest = text;
    'script: while let Some((line, after)) = first_line(rest) {
        if let Some(limit) = runner.world.reached(runner.size) {
            let stop = Stop::Full { limit };
            return Ok(Progress::Stopped { stop });
        }
        let number = runner.lines + 1;
        let said = match read_line(alloc, line, number) {
            Ok(said) => said,
            Err(LineFault::BadLine { .. }) => {
                let stop = Stop::Bad { line: number };
                return Ok(Progress::Stopped { stop });
            }
            Err(LineFault::NoMemory) => return Err(NoMemory),
        };
        if is_end(&said) {
            return Ok(Progress::Stopped { stop: Stop::Ended });
        }
        let size = runner.size + (line.len() + 1);
        if let Some(limit) = run_line(alloc, said, size, &mut runner.world, out)? {
            let stop = Stop::Full { limit };
            return Ok(Progress::Stopped { stop });
        }
        runner.lines += 1;
        runner.size = size;
        rest = after;
    }
    let full = runner.world.reached(runner.size);
    if let Some(limit) = full {
        let stop = Stop::Full { limit };
        return Ok(Progress::Stopped { stop });
    }
    if rest.len() > MOST_LINE {
        let stop = Stop::Bad {
            line: runner.lines + 1,
        };
        return Ok(Progress::Stopped { stop });
    }
    Ok(Progress::Left { rest })
}
