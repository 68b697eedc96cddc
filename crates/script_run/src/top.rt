ghost use Rattle.std.specs.Prelude.{◌≡◌, ◌≢◌, ◌≤◌, true, false};
ghost use Rattle.fault_io.specs.Faults.{Rose};
ghost use Rattle.script_run.specs.Top.{is_run, finish_of, HasPut, Ran, IsLegalRun, Takes, Finished, usage};
ghost use Rattle.script_world.specs.World.{world_of};

use crate::lines::Runner;
use crate::status::{Finish, Status};
use crate::stream::{Streamed, run_stream};
use fault_io::{IoFault, Sink, Source, put_all};
use host_ids::Text;
use run_law::{runs_are_legal, scripts_end};
use run_model::Stop;
use script_text::Buffer;
use script_world::{World, print_ending};
use std::alloc::Global;

/// What the stop of a run comes to.
fn finish_of(stop: Stop) -> Finish
    ensures { result ≡ finish_of stop }
{
    match stop {
        Stop::Ended => Finish::Done,
        Stop::Bad { .. } | Stop::Spent { .. } => Finish::BadLine,
        Stop::Full { .. } => Finish::Limit,
    }
}

fn is_run(words: &[Text]) -> bool
    ensures { result ≡ is_run words.now }
{
    match words {
        [word] => word.bytes() == b"run".as_slice(),
        _ => false,
    }
}

/// Puts the last bytes of a call, which then answers this number, if the sink takes them.
fn put_last<K: Sink>(sink: &mut K, bytes: &[u8], number: u8) -> Status
    ensures put { HasPut (K.contents sink.old) (K.contents sink.new) bytes.now number result.number }
    ensures write { number ≢ 5 → result.number ≡ 5 → Rose (K.fault_count sink.old) (K.fault_count sink.new) }
    ensures later { K.fault_count sink.old ≤ K.fault_count sink.new }
{
    let number = match put_all(sink, bytes) {
        Ok(()) => number,
        Err(IoFault::Failed) => Finish::WriteFault.number(),
        Err(IoFault::NoMemory) => Finish::NoMemory.number(),
    };
    Status { number }
}

/// Puts what is printed so far and the last lines of a run that stops here, at once.
fn finish<K: Sink>(
    alloc: Global,
    stop: Stop,
    world: &World,
    mut out: Buffer,
    sink: &mut K,
) -> Status
    ensures finished { Finished (K.contents sink.old) (K.contents sink.new) out stop (world_of world.now) result.number }
    ensures write { result.number ≡ 5 → Rose (K.fault_count sink.old) (K.fault_count sink.new) }
    ensures later { K.fault_count sink.old ≤ K.fault_count sink.new }
{
    if print_ending(alloc, stop, world, &mut out).is_err() {
        return Finish::NoMemory.status();
    }
    put_last(sink, out.bytes(), finish_of(stop).number())
}

/// Runs a script.
fn run_script<S: Source, K: Sink>(alloc: Global, source: &mut S, sink: &mut K) -> Status
    ensures usage { result.number ≢ 2 }
    ensures run { Ran (S.left source.old) (S.left source.new) (K.contents sink.old) (K.contents sink.new) result.number }
    ensures headline { result.number ≡ 0 → IsLegalRun (S.left source.old) (S.left source.new) (K.contents sink.old) (K.contents sink.new) }
    ensures bound { Takes (S.left source.old) (S.left source.new) 67121153 }
    ensures read { result.number ≡ 4 → Rose (S.fault_count source.old) (S.fault_count source.new) }
    ensures write { result.number ≡ 5 → Rose (K.fault_count sink.old) (K.fault_count sink.new) }
{
    runs_are_legal();
    scripts_end();
    let Ok(world) = World::new(alloc) else {
        return Finish::NoMemory.status();
    };
    let mut runner = Runner {
        world,
        lines: 0,
        size: 0,
    };
    match run_stream(alloc, source, &mut runner, sink) {
        Ok(Streamed::Stopped { stop, out }) => finish(alloc, stop, &runner.world, out, sink),
        Ok(Streamed::Dry { line }) => {
            let out = Buffer::new(alloc);
            finish(alloc, Stop::Spent { line }, &runner.world, out, sink)
        }
        Ok(Streamed::Faulted { .. }) => Finish::ReadFault.status(),
        Err(IoFault::Failed) => Finish::WriteFault.status(),
        Err(IoFault::NoMemory) => Finish::NoMemory.status(),
    }
}

/// The program on these words: `run` runs the script that the source holds, and writes to the sink
/// what each of its lines gives. Other words print `usage`, and take nothing.
///
/// It takes at most 8,192 bytes at a time, and has put all that the whole lines of a piece print
/// before it takes the next piece; it takes nothing after the piece in which the run stops.
///
/// Statuses: 0 at the word `end`; 2 where the words are not `run`; 3 where a line is bad or the last
/// one isn't whole; 4 where the source failed in this call (`read_fault`), and 5 where the sink did
/// (`write_fault`); 7 where, before a line or before an event of a `settle`, leaders have appended
/// 200,000 entries or more, 400,000 envelopes or more were sent, or the lines that were read have
/// 67,108,864 bytes or more; 8 where memory ran out, which has no cause in a clause and may come in
/// place of any other.
///
/// Where the words aren't `run`, the whole line was written at 2, and a front of it at 5 and 8
/// (`usage`); 2 comes nowhere else (`usage_only`), and nothing is taken (`usage_take`). Where they are,
/// `run` says what was taken and what that gives: each status exactly where the run stops so (`done`,
/// `bad_line`, `limit`, `complete`), at 0, 3 and 7 all of its output (`written`), at 4 the lines of all
/// that was taken (`cut`), at 5 and 8 a front of that (`front`), always the lines of all pieces but the
/// last one (`prompt`), and that it is legal so far (`legal`). At 0 the whole output is legal for each
/// group, whatever its roster, by the entries that it shows (`headline`). All this holds of what was
/// taken, also where the source doesn't tell its bytes: it then says that there is such a script. Fewer
/// than 67,121,153 bytes are taken (`bound`). Source: this project's own.
pub fn run_top<S: Source, K: Sink>(
    alloc: Global,
    words: &[Text],
    source: &mut S,
    sink: &mut K,
) -> Status
    ensures usage { is_run words.now ≡ false → HasPut (K.contents sink.old) (K.contents sink.new) usage 2 result.number }
    ensures usage_only { result.number ≡ 2 → is_run words.now ≡ false }
    ensures usage_take { is_run words.now ≡ false → S.left source.new ≡ S.left source.old }
    ensures run { is_run words.now ≡ true → Ran (S.left source.old) (S.left source.new) (K.contents sink.old) (K.contents sink.new) result.number }
    ensures headline { result.number ≡ 0 → IsLegalRun (S.left source.old) (S.left source.new) (K.contents sink.old) (K.contents sink.new) }
    ensures bound { Takes (S.left source.old) (S.left source.new) 67121153 }
    ensures read_fault { result.number ≡ 4 → Rose (S.fault_count source.old) (S.fault_count source.new) }
    ensures write_fault { result.number ≡ 5 → Rose (K.fault_count sink.old) (K.fault_count sink.new) }
{
    if !is_run(words) {
        return put_last(sink, b"usage\n", Finish::Usage.number());
    }
    run_script(alloc, source, sink)
}
