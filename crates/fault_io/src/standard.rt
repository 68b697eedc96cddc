ghost use Rattle.std.specs.Prelude.{◌≡◌, IfErr};
ghost use Rattle.std.specs.Io.{ReadsAtMost, WritesAtMost};
ghost use Rattle.std.specs.Io.KnownBytes.{ReadConsumes, WriteAppends};
ghost use Rattle.fault_io.specs.Faults.{CountsFaults, HasCause, TakesSome};
ghost use Rattle.fault_io.specs.declared.fault.IoFault.TheVariants.{Failed};

use crate::fault::IoFault;
use crate::sink::Sink;
use crate::source::Source;
use std::io::{Read, Write};

/// A source over a reader of std, such as a file or a socket.
///
/// It tells the bytes that are left where its reader does, as one over a slice. A file, a socket or
/// standard input tells none: there is the trusted edge, where what the reader gives is taken as what
/// was there to read. Source: this project's own.
#[derive(Drop)]
pub struct StdSource<R> {
    reader: R,
    failed: u64,
}

impl<R: Read> StdSource<R> {
    ghost use Rattle.fault_io.specs.Standard.{source_reader, reader_faults};

    /// A source over this reader, from where it stands, with no fault counted.
    pub fn new(reader: R) -> StdSource<R>
        ensures reader { source_reader result ≡ reader }
        ensures faults { reader_faults result ≡ 0 }
    {
        StdSource { reader, failed: 0 }
    }
}

impl<R: Read> Source for StdSource<R> {
    ghost use Rattle.fault_io.specs.Standard.{source_reader, reader_faults};

    ghost left = { λ s. R.remaining s.reader };

    ghost fault_count = { λ s. s.failed };

    /// Asks the reader once, and answers what it answers. The count is within the buffer, and the
    /// bytes at the front of `into` are the reader's next ones, where it tells those.
    ///
    /// Any error of the reader is `Failed`, an interrupted call too, which is not tried again; the
    /// count of faults then rises by one unless it stands at 2^64-1. There is no other error, and
    /// no other call changes the count.
    fn take(&mut self, into: &mut [u8]) -> Result<usize, IoFault>
        ensures bound { ReadsAtMost result into.new }
        ensures cause { HasCause (reader_faults self.old) (reader_faults self.new) result }
        ensures bytes { ReadConsumes (R.remaining (source_reader self.old)) (R.remaining (source_reader self.new)) result into.new }
        ensures only { IfErr result (λ e. e ≡ Failed) }
        ensures faults { CountsFaults (reader_faults self.old) (reader_faults self.new) result }
    {
        match self.reader.read(into) {
            Ok(count) => Ok(count),
            Err(_) => {
                self.failed = self.failed.saturating_add(1);
                Err(IoFault::Failed)
            }
        }
    }

    fn faults(&self) -> u64 {
        self.failed
    }
}

/// A sink over a writer of std, such as a file or a socket.
///
/// It tells the bytes that were written where its writer does, as one over a vector. A file, a socket
/// or standard output tells none: there is the trusted edge, where what the writer says that it took is
/// taken as written. Nothing is flushed. Source: this project's own.
#[derive(Drop)]
pub struct StdSink<W> {
    writer: W,
    failed: u64,
}

impl<W: Write> StdSink<W> {
    ghost use Rattle.fault_io.specs.Standard.{sink_writer, writer_faults};

    /// A sink over this writer, with no fault counted.
    pub fn new(writer: W) -> StdSink<W>
        ensures writer { sink_writer result ≡ writer }
        ensures faults { writer_faults result ≡ 0 }
    {
        StdSink { writer, failed: 0 }
    }
}

impl<W: Write> Sink for StdSink<W> {
    ghost use Rattle.fault_io.specs.Standard.{sink_writer, writer_faults};

    ghost contents = { λ s. W.contents s.writer };

    ghost fault_count = { λ s. s.failed };

    /// Hands the piece to the writer once, and says how many bytes it took. The writer has got
    /// that front of the piece, where it tells what it holds.
    ///
    /// Any error of the writer is `Failed`, an interrupted call too, which is not tried again. So
    /// is an answer that it took nothing of a piece that is not empty. The count of faults then
    /// rises by one unless it stands at 2^64-1. There is no other error, and no other call changes
    /// the count.
    fn put(&mut self, piece: &[u8]) -> Result<usize, IoFault>
        ensures bound { WritesAtMost result piece.now }
        ensures some { TakesSome result piece.now }
        ensures cause { HasCause (writer_faults self.old) (writer_faults self.new) result }
        ensures bytes { WriteAppends (W.contents (sink_writer self.old)) (W.contents (sink_writer self.new)) result piece.now }
        ensures only { IfErr result (λ e. e ≡ Failed) }
        ensures faults { CountsFaults (writer_faults self.old) (writer_faults self.new) result }
    {
        match self.writer.write(piece) {
            Ok(count) if count > 0 || piece.is_empty() => Ok(count),
            _ => {
                self.failed = self.failed.saturating_add(1);
                Err(IoFault::Failed)
            }
        }
    }

    fn faults(&self) -> u64 {
        self.failed
    }
}
