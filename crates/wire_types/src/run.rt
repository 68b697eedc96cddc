ghost use Rattle.std.specs.Prelude.{◌≡◌, ◌≤◌, ◌+◌, ◌++◌, [], true, length, take, drop, IfOk, OnOk, IfSome};
ghost use Rattle.host_ids.specs.Held.{part};
ghost use Rattle.wire_types.specs.Held.{Agree, IsGrown};

use host_ids::{Entries, Entry, NoMemory};
use std::alloc::Global;

/// The most entries that a run begins with, where its first Append has no more.
const MOST_AHEAD: usize = 128;

/// Copies of entries, to which more come at the end while Appends that show parts of them are held.
#[derive(Debug, Drop)]
pub(crate) struct Run {
    /// The index before the first entry.
    pub prev: u64,
    /// The entries.
    pub entries: Vec<Entry>,
}

impl Run {
    /// A run without entries, which takes no memory.
    pub fn new(alloc: Global) -> Run
        ensures { result.entries.items ≡ [] }
    {
        Run {
            prev: 0,
            entries: Vec::new(alloc),
        }
    }

    /// A run of the first entries of `tail`, which come after `prev`: at least `count` of them, and some
    /// ahead. The only error is `NoMemory`.
    pub fn begin(alloc: Global, prev: u64, tail: &[Entry], count: usize) -> Result<Run, NoMemory>
        requires within { count ≤ length tail.now }
        ensures front { IfOk result (λ run. take count run.entries.items ≡ take count tail.now) }
        ensures within { IfOk result (λ run. count ≤ length run.entries.items) }
    {
        let ahead = tail.len().min(count.max(MOST_AHEAD));
        let entries = Entries::from_slice(alloc, &tail[..ahead])?;
        Ok(Run {
            prev,
            entries: entries.into_vec()?,
        })
    }

    /// The place in the run at which these entries begin, which come after `prev`, if both are the same as
    /// far as both go. An empty run has none.
    pub fn place_of(&self, prev: u64, entries: &[Entry]) -> Option<usize>
        ensures within { IfSome result (λ first. first ≤ length self.now.entries.items) }
        ensures agree { IfSome result (λ first. Agree (drop first self.now.entries.items) entries.now) }
    {
        if self.entries.is_empty() {
            return None;
        }
        let first = place_after(self.prev, self.entries.len(), prev)?;
        if agree(&self.entries[first..], entries) {
            Some(first)
        } else {
            None
        }
    }

    /// Adds those of the entries that the run lacks; from the place `first` on it is the same as they are as
    /// far as both go. After `NoMemory`, the only error, some of them may have been added.
    pub fn extend(&mut self, first: usize, entries: &[Entry]) -> Result<(), NoMemory>
        requires within { first ≤ length self.old.entries.items }
        requires agree { Agree (drop first self.old.entries.items) entries.now }
        ensures grown { IsGrown self.old.entries.items self.new.entries.items }
        ensures within { OnOk result (first + length entries.now ≤ length self.new.entries.items) }
        ensures part { OnOk result (part first (length entries.now) self.new.entries.items ≡ entries.now) }
    {
        let there = self.entries.len() - first;
        add_copies(&mut self.entries, &entries[there.min(entries.len())..])
    }
}

/// The place of the entry after `prev` among `count` entries after `from`, or the place after their last.
pub(crate) fn place_after(from: u64, count: usize, prev: u64) -> Option<usize>
    ensures { IfSome result (λ place. place ≤ count) }
{
    if prev < from || prev - from > count as u64 {
        return None;
    }
    Some((prev - from) as usize)
}

/// Whether two lists of entries are the same as far as both go.
pub(crate) fn agree(entries: &[Entry], others: &[Entry]) -> bool
    ensures { result ≡ true → Agree entries.now others.now }
{
    for place in 0..entries.len().min(others.len()) {
        if !is_same(&entries[place], &others[place]) {
            return false;
        }
    }
    true
}

/// Whether two entries are the same.
fn is_same(entry: &Entry, other: &Entry) -> bool
    ensures { result ≡ true → entry.now ≡ other.now }
{
    entry == other
}

/// Adds copies of these entries at the end. After `NoMemory`, the only error, some may have been added.
fn add_copies(entries: &mut Vec<Entry>, more: &[Entry]) -> Result<(), NoMemory>
    ensures added { OnOk result (entries.new.items ≡ entries.old.items ++ more.now) }
    ensures grown { IsGrown entries.old.items entries.new.items }
{
    for entry in more {
        entries.push(entry.copy()?)?;
    }
    Ok(())
}
