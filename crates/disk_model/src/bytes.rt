ghost use Rattle.std.specs.Prelude.{◌≡◌, ◌+◌, ◌-◌, ◌^◌, ◌<◌, ◌≤◌, ◌++◌, length, take, drop, replicate, OnOk, OnErr, IsOk, vec_capacity};
ghost use Rattle.disk_model.specs.Bytes.{padded, written};

use std::alloc::AllocError;

/// Fills up to at least `end` bytes with zeros. An error changes nothing. It can't fail within the
/// capacity.
fn pad(into: &mut Vec<u8>, end: usize) -> Result<(), AllocError>
    ensures items { OnOk result (into.new.items ≡ padded end into.old.items) }
    ensures err { OnErr result (into.new.items ≡ into.old.items) }
    ensures capacity { vec_capacity into.old ≤ vec_capacity into.new }
    ensures succeeds { end ≤ vec_capacity into.old → IsOk result }
    ensures room { OnOk result (end ≤ vec_capacity into.new) }
{
    let len = into.len();
    into.resize(end.max(len), 0)
}

/// Puts bytes over those at a place.
fn lay(into: &mut [u8], at: usize, bytes: &[u8])
    requires { at + length bytes.now ≤ length into.old }
    ensures { into.new ≡ take at into.old ++ bytes.now ++ drop (at + length bytes.now) into.old }
{
    into[at..at + bytes.len()].copy_from_slice(bytes);
}

/// Puts 255 into each of `count` places.
fn lay_ones(into: &mut [u8], at: usize, count: usize)
    requires { at + count ≤ length into.old }
    ensures { into.new ≡ take at into.old ++ replicate count 255 ++ drop (at + count) into.old }
{
    into[at..at + count].fill(255);
}

/// Puts bytes over those at a place, and zeros into a gap before them. An error changes nothing.
/// It can't fail within the capacity.
#[tactic(auto, using(crate::proofs::Lists::laid, crate::proofs::Lists::all_of))]
pub(crate) fn put(into: &mut Vec<u8>, at: usize, bytes: &[u8]) -> Result<(), AllocError>
    requires { at + length bytes.now < 2 ^ 64 }
    ensures items { OnOk result (into.new.items ≡ written at bytes.now into.old.items) }
    ensures err { OnErr result (into.new.items ≡ into.old.items) }
    ensures capacity { vec_capacity into.old ≤ vec_capacity into.new }
    ensures succeeds { at + length bytes.now ≤ vec_capacity into.old → IsOk result }
    ensures room { OnOk result (at + length bytes.now ≤ vec_capacity into.new) }
{
    pad(into, at + bytes.len())?;
    lay(into.as_mut_slice(), at, bytes);
    Ok(())
}

/// Puts 255 into each of `count` places, as `put` does.
#[tactic(auto, using(crate::proofs::Lists::laid_ones, crate::proofs::Lists::all_of))]
pub(crate) fn put_ones(into: &mut Vec<u8>, at: usize, count: usize) -> Result<(), AllocError>
    requires { at + count < 2 ^ 64 }
    ensures items { OnOk result (into.new.items ≡ written at (replicate count 255) into.old.items) }
    ensures capacity { vec_capacity into.old ≤ vec_capacity into.new }
    ensures succeeds { at + count ≤ vec_capacity into.old → IsOk result }
{
    pad(into, at + count)?;
    lay_ones(into.as_mut_slice(), at, count);
    Ok(())
}
