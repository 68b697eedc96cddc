ghost use Rattle.std.specs.Prelude.{◌≡◌, ◌+◌, ◌^◌, ◌<◌, ℕ, true, false, nat_eq, length, OnOk, OnErr, IfOk};
ghost use Rattle.disk_model.specs.Files.{change, change_listed, each, wrote, resized, removed, forgotten, synced, lost, file_at, is_listed, now_of, left_of, IsStill};
ghost use Rattle.std.specs.List.{list_any};
ghost use Rattle.std.specs.List.Sorted.{IsStrictlySortedBy};
ghost use Rattle.std.specs.Ordering.{nat_cmp};
ghost use Rattle.disk_model.specs.Plain.{are_plain, purged_at};

use crate::file::MemFile;
use std::alloc::{AllocError, Global};
use std::collections::BTreeMap;

/// Writes bytes at a place of a file, and makes one of which there is nothing. An error changes
/// nothing.
#[tactic(auto, using(crate::proofs::Entries::set_same))]
pub(crate) fn write_in(
    files: &mut BTreeMap<u64, MemFile>,
    alloc: Global,
    file: u64,
    at: usize,
    bytes: &[u8],
) -> Result<(), AllocError>
    requires { at + length bytes.now < 2 ^ 64 }
    ensures ok { OnOk result (files.new.entries ≡ change file (wrote at bytes.now) files.old.entries) }
    ensures err { OnErr result (files.new.entries ≡ files.old.entries) }
{
    match files.get_mut(&file) {
        Some(held) => held.write(at, bytes)?,
        None => {
            let mut held = MemFile::new(alloc);
            held.write(at, bytes)?;
            files.insert(file, held)?;
        }
    }
    Ok(())
}

/// Makes a file this long, and makes one of which there is nothing. An error changes nothing.
#[tactic(auto, using(crate::proofs::Entries::set_same))]
pub(crate) fn cut_in(
    files: &mut BTreeMap<u64, MemFile>,
    alloc: Global,
    file: u64,
    size: usize,
) -> Result<(), AllocError>
    ensures ok { OnOk result (files.new.entries ≡ change file (resized size) files.old.entries) }
    ensures err { OnErr result (files.new.entries ≡ files.old.entries) }
{
    match files.get_mut(&file) {
        Some(held) => held.cut(size)?,
        None => {
            let mut held = MemFile::new(alloc);
            held.cut(size)?;
            files.insert(file, held)?;
        }
    }
    Ok(())
}

/// Removes a listed file.
#[tactic(auto, using(crate::proofs::Entries::set_same))]
pub(crate) fn remove_in(files: &mut BTreeMap<u64, MemFile>, file: u64)
    ensures { files.new.entries ≡ change_listed file removed files.old.entries }
{
    if let Some(held) = files.get_mut(&file) {
        if held.is_listed() {
            held.remove();
        }
    }
}

/// Makes sure of each removal. Where none is pending there is nothing to look for.
pub(crate) fn purge(files: &mut BTreeMap<u64, MemFile>, pending: bool)
    requires { pending ≡ false → are_plain files.old.entries ≡ true }
    ensures files { files.new.entries ≡ each forgotten files.old.entries }
    ensures at { (f : ℕ) → file_at f files.new.entries ≡ purged_at (file_at f files.old.entries) }
{
    if pending {
        files.retain(|_, held| {
            held.forget();
            held.is_listed()
        });
    }
}

/// Makes sure of what stands in a file, each removal being sure.
#[tactic(auto, using(crate::proofs::Entries::set_same))]
pub(crate) fn sync_in(files: &mut BTreeMap<u64, MemFile>, file: u64)
    requires { are_plain files.old.entries ≡ true }
    ensures { files.new.entries ≡ change_listed file synced files.old.entries }
{
    if let Some(held) = files.get_mut(&file) {
        held.sync();
    }
}

/// Loses the power of each file.
pub(crate) fn lose_all(files: &mut BTreeMap<u64, MemFile>, choice: u8)
    ensures files { files.new.entries ≡ each (lost choice) files.old.entries }
    ensures at { (f : ℕ) → now_of (file_at f files.new.entries) ≡ left_of choice (file_at f files.old.entries) }
    ensures still { (f : ℕ) → IsStill (file_at f files.new.entries) }
{
    files.retain(|_, held| {
        held.lose(choice);
        held.is_listed()
    });
}

/// The numbers of the listed files, in ascending order.
pub(crate) fn listed_in(
    files: &BTreeMap<u64, MemFile>,
    alloc: Global,
) -> Result<Vec<u64>, AllocError>
    ensures ascending { IfOk result (λ numbers. IsStrictlySortedBy nat_cmp numbers.items) }
    ensures listed { IfOk result (λ numbers. (f : ℕ) → list_any (nat_eq f) numbers.items ≡ is_listed files.now.entries f) }
{
    let mut numbers = Vec::new(alloc);
    for (number, held) in files {
        if held.is_listed() {
            numbers.push(*number)?;
        }
    }
    Ok(numbers)
}
