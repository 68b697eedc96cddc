ghost use Rattle.std.specs.Prelude.{◌≡◌, ◌<◌, ◌≤◌, ◌+◌, [], length, IfOk, OnErr};
ghost use Rattle.std.specs.Io.KnownBytes.{IsAtEnd};
ghost use Rattle.fault_io.specs.Faults.{HasCause, Rose};
ghost use Rattle.run_model.specs.World.{start};
ghost use Rattle.script_world.specs.World.{world_of};
ghost use Rattle.script_run.specs.Top.{HasStreamed};
ghost use Rattle.script_run.specs.Reach.{GivenUp};

use crate::lines::{Progress, Runner, run_whole};
use fault_io::{IoFault, Sink, Source, put_all};
use run_model::Stop;
use script_text::Buffer;
use std::alloc::Global;

/// How a run over a source ended: by its lines, of which `out` isn't put yet, at the end of the
/// source, or by a fault of the source.
#[derive(Drop)]
pub enum Streamed {
    Stopped { stop: Stop, out: Buffer },
    Dry { line: u64 },
    Faulted { line: u64 },
}

/// Runs the lines of a source, each as soon as it is there, and puts what the whole lines of a
/// piece print before it takes the next piece.
pub fn run_stream<S: Source, K: Sink>(
    alloc: Global,
    source: &mut S,
    runner: &mut Runner,
    sink: &mut K,
) -> Result<Streamed, IoFault>
    requires world { world_of runner.old.world ≡ start }
    requires lines { runner.old.lines ≡ 0 }
    requires size { runner.old.size ≡ 0 }
    ensures streamed { IfOk result (λ streamed. HasStreamed (S.left source.old) (S.left source.new) (K.contents sink.old) (K.contents sink.new) streamed (world_of runner.new.world)) }
    ensures dry { IfOk result (λ streamed. (line : _) → streamed ≡ Streamed.Dry line → IsAtEnd (S.left source.new)) }
    ensures fault { IfOk result (λ streamed. (line : _) → streamed ≡ Streamed.Faulted line → Rose (S.fault_count source.old) (S.fault_count source.new)) }
    ensures err { OnErr result (GivenUp (S.left source.old) (S.left source.new) (K.contents sink.old) (K.contents sink.new)) }
    ensures cause { HasCause (K.fault_count sink.old) (K.fault_count sink.new) result }
{
    let mut held: Vec<u8> = Vec::new(alloc);
    let mut piece = [0u8; 8192];
    'source: loop {
        match source.take(&mut piece) {
            Ok(0) => {
                return Ok(Streamed::Dry {
                    line: runner.lines + 1,
                });
            }
            Ok(count) => held.extend_from_slice(&piece[..count])?,
            Err(IoFault::Failed) => {
                return Ok(Streamed::Faulted {
                    line: runner.lines + 1,
                });
            }
            Err(IoFault::NoMemory) => return Err(IoFault::NoMemory),
        }
        let mut out = Buffer::new(alloc);
        match run_whole(alloc, &held, runner, &mut out)? {
            Progress::Stopped { stop } => return Ok(Streamed::Stopped { stop, out }),
            Progress::Left { rest } => {
                put_all(sink, out.bytes())?;
                held = Vec::from_slice(alloc, rest)?;
            }
        }
    }
}
