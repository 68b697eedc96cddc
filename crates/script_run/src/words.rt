ghost use Rattle.std.specs.Prelude.{◌≡◌, ◌≢◌, IfOk, IfErr, IsErr, IsOk, [], drop, map};
ghost use Rattle.std.specs.String.{string_bytes};
ghost use Rattle.std.specs.Vec.Iter.{into_iter_items};
ghost use Rattle.std.specs.IoError.{error_kind};
ghost use Rattle.std.specs.declared.io.ErrorKind.TheVariants.{OutOfMemory};

use host_ids::{NoMemory, Text};
use std::alloc::Global;
use std::env::Args;
use std::io;
use std::io::ErrorKind;

/// The arguments after the first one.
fn without_name(mut args: Args) -> Args
    ensures { into_iter_items result ≡ drop 1 (into_iter_items args) }
{
    let _ = args.next();
    args
}

/// The arguments as words.
fn words_in(alloc: Global, args: Args) -> Result<Vec<Text>, NoMemory>
    ensures { IfOk result (λ words. words.items ≡ map string_bytes (into_iter_items args)) }
{
    let mut words = Vec::new(alloc);
    for arg in args {
        words.push(Text::new(alloc, arg.as_bytes())?)?;
    }
    Ok(words)
}

/// The words of a call of the program, from the arguments that the process was given, of which the
/// first is the program's name.
///
/// Arguments that can't be had, since one is no text, are no words: then there are none, which is no
/// form of the program. `NoMemory` comes where the arguments couldn't be had for want of it, or where
/// it runs out here. Source: this project's own.
pub fn words_of(alloc: Global, args: io::Result<Args>) -> Result<Vec<Text>, NoMemory>
    ensures words { IfOk args (λ list. IfOk result (λ words. words.items ≡ map string_bytes (drop 1 (into_iter_items list)))) }
    ensures memory { IfErr args (λ e. error_kind e ≡ OutOfMemory → IsErr result) }
    ensures no_text { IfErr args (λ e. error_kind e ≢ OutOfMemory → IfOk result (λ words. words.items ≡ []) × IsOk result) }
{
    match args {
        Ok(args) => words_in(alloc, without_name(args)),
        Err(error) if error.kind() == ErrorKind::OutOfMemory => Err(NoMemory),
        Err(_) => Ok(Vec::new(alloc)),
    }
}
