ghost use Rattle.std.specs.Prelude.{◌≡◌, ◌<◌, ◌≤◌, ◌↔◌, ◌++◌, [], min, take, drop, length, vec_len, IfOk, IfErr, OnErr, IsErrOf, Some, Contains};
ghost use Rattle.std.specs.Io.{ReadsAtMost, WritesAtMost};
ghost use Rattle.std.specs.Io.KnownBytes.{ReadConsumes, WriteAppends};
ghost use Rattle.fault_io.specs.Faults.{one_more, CountsFaults, HasCause, TakesSome};
ghost use Rattle.fault_io.specs.declared.fault.IoFault.TheVariants.{Failed};

use crate::calls::Calls;
use crate::fault::IoFault;
use crate::sink::Sink;
use crate::source::Source;
use host_ids::NoMemory;
use std::alloc::Global;

/// Copies a front of `from` to the front of `into`, as much as fits, and says how many bytes. The
/// rest of `into` stays.
fn move_front(from: &[u8], into: &mut [u8]) -> usize
    ensures count { result ≡ min (length into.old) (length from.now) }
    ensures moved { into.new ≡ take result from.now ++ drop result into.old }
    ensures front { from.now ≡ take result into.new ++ drop result from.now }
    ensures end { result ≡ 0 → 0 < length into.new → from.now ≡ [] }
{
    let count = into.len().min(from.len());
    into[..count].copy_from_slice(&from[..count]);
    count
}

/// A source in memory, which tells the bytes that it has left, and of which listed calls fail.
///
/// Source: this project's own.
#[derive(Drop)]
pub struct MemSource {
    bytes: Vec<u8>,
    at: usize,
    calls: Calls,
    ghost in_range: { at ≤ vec_len bytes },
}

impl MemSource {
    ghost use Rattle.fault_io.specs.Memory.{source_bytes, source_calls, source_failing, source_faults};

    /// A source of these bytes, whose calls of `take` with the numbers in `failing`, counted from
    /// 1, fail.
    ///
    /// The order of the list does not matter, and a number may stand twice. Neither a call nor a
    /// fault is counted yet. The only error is `NoMemory`.
    pub fn new(alloc: Global, bytes: &[u8], failing: &[u64]) -> Result<MemSource, NoMemory>
        ensures bytes { IfOk result (λ source. source_bytes source ≡ bytes.now) }
        ensures calls { IfOk result (λ source. source_calls source ≡ 0) }
        ensures failing { IfOk result (λ source. source_failing source ≡ failing.now) }
        ensures faults { IfOk result (λ source. source_faults source ≡ 0) }
    {
        let bytes = Vec::from_slice(alloc, bytes)?;
        let calls = Calls::new(alloc, failing)?;
        Ok(MemSource {
            bytes,
            at: 0,
            calls,
        })
    }
}

impl Source for MemSource {
    ghost use Rattle.fault_io.specs.Memory.{source_bytes, source_calls, source_failing, source_faults};

    ghost left = { λ s. Some (drop s.at s.bytes.items) };

    ghost fault_count = { λ s. s.calls.failed };

    /// Moves as many bytes as are left and fit, and leaves the rest of `into` as it was.
    ///
    /// `Failed` comes exactly where the number of this call is listed; calls past 2^64-1 have that
    /// number. Then nothing moves, `into` stays, and the count of faults rises by one unless it
    /// stands at 2^64-1. There is no other error, and no other call changes the count. The list
    /// stays.
    fn take(&mut self, into: &mut [u8]) -> Result<usize, IoFault>
        ensures bound { ReadsAtMost result into.new }
        ensures bytes { ReadConsumes (Some (source_bytes self.old)) (Some (source_bytes self.new)) result into.new }
        ensures cause { HasCause (source_faults self.old) (source_faults self.new) result }
        ensures listed { IsErrOf result Failed ↔ Contains (source_failing self.old) (one_more (source_calls self.old)) }
        ensures only { IfErr result (λ e. e ≡ Failed) }
        ensures amount { IfOk result (λ n. n ≡ min (length into.old) (length (source_bytes self.old))) }
        ensures moved { IfOk result (λ n. into.new ≡ take n (source_bytes self.old) ++ drop n into.old) }
        ensures untouched { OnErr result (into.new ≡ into.old) }
        ensures calls { source_calls self.new ≡ one_more (source_calls self.old) }
        ensures failing { source_failing self.new ≡ source_failing self.old }
        ensures faults { CountsFaults (source_faults self.old) (source_faults self.new) result }
    {
        if self.calls.next_fails() {
            return Err(IoFault::Failed);
        }
        let count = move_front(&self.bytes[self.at..], into);
        self.at += count;
        Ok(count)
    }

    fn faults(&self) -> u64 {
        self.calls.failed()
    }
}

/// A sink in memory, which shows the bytes that were written, and of which listed calls fail.
///
/// Source: this project's own.
#[derive(Drop)]
pub struct MemSink {
    written: Vec<u8>,
    calls: Calls,
}

impl MemSink {
    ghost use Rattle.fault_io.specs.Memory.{sink_bytes, sink_calls, sink_failing, sink_faults};

    /// A sink with nothing written, whose calls of `put` with the numbers in `failing`, counted
    /// from 1, fail.
    ///
    /// The order of the list does not matter, and a number may stand twice. Neither a call nor a
    /// fault is counted yet. The only error is `NoMemory`.
    pub fn new(alloc: Global, failing: &[u64]) -> Result<MemSink, NoMemory>
        ensures bytes { IfOk result (λ sink. sink_bytes sink ≡ []) }
        ensures calls { IfOk result (λ sink. sink_calls sink ≡ 0) }
        ensures failing { IfOk result (λ sink. sink_failing sink ≡ failing.now) }
        ensures faults { IfOk result (λ sink. sink_faults sink ≡ 0) }
    {
        let calls = Calls::new(alloc, failing)?;
        Ok(MemSink {
            written: Vec::new(alloc),
            calls,
        })
    }

    /// All the bytes that were written, in order.
    pub fn bytes(&self) -> &[u8]
        ensures { result.now ≡ sink_bytes self.now }
    {
        &self.written
    }
}

impl Sink for MemSink {
    ghost use Rattle.fault_io.specs.Memory.{sink_bytes, sink_calls, sink_failing, sink_faults};

    ghost contents = { λ s. Some s.written.items };

    ghost fault_count = { λ s. s.calls.failed };

    /// Takes the whole piece.
    ///
    /// `Failed` comes exactly where the number of this call is listed; calls past 2^64-1 have that
    /// number. Then nothing is written, and the count of faults rises by one unless it stands at
    /// 2^64-1. At a call that is not listed, the only error is `NoMemory`. It is no fault:
    /// nothing is written, and no count but that of the calls changes. The list stays.
    fn put(&mut self, piece: &[u8]) -> Result<usize, IoFault>
        ensures bound { WritesAtMost result piece.now }
        ensures bytes { WriteAppends (Some (sink_bytes self.old)) (Some (sink_bytes self.new)) result piece.now }
        ensures some { TakesSome result piece.now }
        ensures cause { HasCause (sink_faults self.old) (sink_faults self.new) result }
        ensures listed { IsErrOf result Failed ↔ Contains (sink_failing self.old) (one_more (sink_calls self.old)) }
        ensures whole { IfOk result (λ n. n ≡ length piece.now) }
        ensures calls { sink_calls self.new ≡ one_more (sink_calls self.old) }
        ensures failing { sink_failing self.new ≡ sink_failing self.old }
        ensures faults { CountsFaults (sink_faults self.old) (sink_faults self.new) result }
    {
        if self.calls.next_fails() {
            return Err(IoFault::Failed);
        }
        self.written.extend_from_slice(piece)?;
        Ok(piece.len())
    }

    fn faults(&self) -> u64 {
        self.calls.failed()
    }
}
