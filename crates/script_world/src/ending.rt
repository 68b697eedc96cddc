ghost use Rattle.std.specs.Prelude.{◌≡◌, ◌++◌, [], ◌∷◌, OnOk, map, take};
ghost use Rattle.run_model.specs.Run.{bare, ending, entry_told, text_of};
ghost use Rattle.script_world.specs.World.{world_of};

use crate::world::World;
use host_ids::{Entry, NoMemory, Text};
use run_model::Stop;
use script_text::{Buffer, Line, push_line};
use std::alloc::Global;

/// Prints a line that shows no context.
fn print_bare(alloc: Global, line: Line, out: &mut Buffer) -> Result<(), NoMemory>
    ensures { OnOk result (out.new ≡ out.old ++ text_of (bare line ∷ [])) }
{
    let context = Text::new(alloc, b"-")?;
    push_line(out, &context, &line)
}

/// Prints the line of an entry of the decided list.
fn print_entry(world: &World, entry: &Entry, out: &mut Buffer) -> Result<(), NoMemory>
    ensures { OnOk result (out.new ≡ out.old ++ text_of (entry_told (world_of world.now) entry.now ∷ [])) }
{
    let context = world.contexts.at(entry.key)?;
    let line = Line::Entry {
        group: 1,
        entry: entry.copy()?,
    };
    push_line(out, &context, &line)
}

/// Prints the lines of entries of the decided list.
fn print_entries(world: &World, entries: &[Entry], out: &mut Buffer) -> Result<(), NoMemory>
    ensures { OnOk result (out.new ≡ out.old ++ text_of (map (entry_told (world_of world.now)) entries.now)) }
{
    for entry in entries {
        print_entry(world, entry, out)?;
    }
    Ok(())
}

/// Prints the last lines of a run that stops so, after what `out` has: at `end` the decided list of its
/// group, each entry with the context of its request, and `end`; else the bad line's number, or the limit.
/// The only error is `NoMemory`, after which no clause says what was printed. Source: this project's own.
pub fn print_ending(
    alloc: Global,
    stop: Stop,
    world: &World,
    out: &mut Buffer,
) -> Result<(), NoMemory>
    ensures { OnOk result (out.new ≡ out.old ++ text_of (ending stop (world_of world.now))) }
{
    match stop {
        Stop::Ended => {
            print_entries(world, world.lane.decided(), out)?;
            print_bare(alloc, Line::End, out)
        }
        Stop::Bad { line } | Stop::Spent { line } => print_bare(alloc, Line::BadLine { line }, out),
        Stop::Full { limit } => print_bare(alloc, Line::Reached { limit }, out),
    }
}
