ghost use Rattle.std.specs.Prelude.{◌≡◌, OnOk, OnErr};
ghost use Rattle.std.specs.Io.KnownBytes.{Appends};
ghost use Rattle.fault_io.specs.Faults.{HasCause, WritesFront};

use crate::fault::IoFault;
use crate::sink::Sink;

/// Writes all the bytes in order after what was written, in as many calls as the sink needs.
///
/// The error is that of the first call that did not answer Ok, and no call follows it: then a front
/// of the bytes is written, which may be none or all but the last. The count of faults never
/// falls, and `Failed` comes only where it rose in this call, or stands at 2^64-1. Source: this
/// project's own.
pub fn put_all<K: Sink>(sink: &mut K, bytes: &[u8]) -> Result<(), IoFault>
    ensures ok { OnOk result (Appends (K.contents sink.old) (K.contents sink.new) bytes.now) }
    ensures err { OnErr result (WritesFront (K.contents sink.old) (K.contents sink.new) bytes.now) }
    ensures cause { HasCause (K.fault_count sink.old) (K.fault_count sink.new) result }
{
    let mut done = 0;
    while done < bytes.len() {
        let count = sink.put(&bytes[done..])?;
        done += count;
    }
    Ok(())
}
