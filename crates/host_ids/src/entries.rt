ghost use Rattle.std.specs.Prelude.{◌≡◌, ◌≤◌, ◌+◌, ◌++◌, [], ◌∷◌, length, take, drop, IfOk, OnOk, OnErr};
ghost use Rattle.std.specs.Arc.{arc_value};
ghost use Rattle.host_ids.specs.Held.{items_of, IsWithin};

use crate::entry::Entry;
use crate::memory::NoMemory;
use std::alloc::Global;
use std::marker::Model;
use std::sync::Arc;

/// Entries in order. Clauses see it as its list.
///
/// They belong to it alone, or they are shared: then a copy, or a copy of a part, is a count and takes no
/// memory, and lives as long as its owner wants, whatever becomes of the others. Source: this project's
/// own.
#[derive(Debug, Drop)]
pub struct Entries {
    alloc: Global,
    held: Held,
}

/// Where entries are: in a `Vec` of their own, or a part of one that others see too.
#[derive(Debug, Drop)]
pub(crate) enum Held {
    Own {
        entries: Vec<Entry>,
    },
    Shared {
        all: Arc<Vec<Entry>, Global>,
        first: usize,
        count: usize,
    },
}

impl Model for Entries {
    ghost use Rattle.std.specs.Prelude.{List};
    ghost use Rattle.host_ids.specs.Held.{items_of, IsWithin};
    ghost use Rattle.host_ids.specs.declared.entry.Entry.{Entry};

    ghost Value = { List Entry };

    ghost view = { λ e. items_of e.held };

    ghost invariant = { λ e. IsWithin e.held };
}

impl Entries {
    /// No entries, which takes no memory.
    pub fn new(alloc: Global) -> Entries
        ensures { result ≡ [] }
    {
        Entries {
            alloc,
            held: Held::Own {
                entries: Vec::new(alloc),
            },
        }
    }

    /// These entries once more, in a `Vec` of their own. The only error is `NoMemory`.
    pub fn from_slice(alloc: Global, entries: &[Entry]) -> Result<Entries, NoMemory>
        ensures { IfOk result (λ copies. copies ≡ entries.now) }
    {
        let held = Held::Own {
            entries: copies_of(alloc, entries)?,
        };
        Ok(Entries { alloc, held })
    }

    /// The entries of a `Vec`, which takes no memory.
    pub fn from_vec(entries: Vec<Entry>) -> Entries
        ensures { result ≡ entries.items }
    {
        Entries {
            alloc: *entries.allocator(),
            held: Held::Own { entries },
        }
    }

    /// Adds an entry at the end; entries that are shared become its own first. After `NoMemory`, the
    /// only error, all is as before.
    pub fn push(&mut self, entry: Entry) -> Result<(), NoMemory>
        ensures ok { OnOk result (self.new ≡ self.old ++ entry ∷ []) }
        ensures err { OnErr result (self.new ≡ self.old) }
    {
        push_to(self.alloc, &mut self.held, entry)
    }

    /// The entries in order.
    pub fn items(&self) -> &[Entry]
        ensures { result.now ≡ self.now }
    {
        items_of(&self.held)
    }

    /// All of them, after which none are left.
    pub fn take(&mut self) -> Entries
        ensures taken { result ≡ self.old }
        ensures left { self.new ≡ [] }
    {
        std::mem::replace(self, Entries::new(self.alloc))
    }

    /// The entries in order, as a `Vec` of their owner's. It takes no memory where they belong to these
    /// alone, which entries that are shared do where all of the others are gone and they are no part; else
    /// they are copied. The only error is `NoMemory`.
    pub fn into_vec(self) -> Result<Vec<Entry>, NoMemory>
        ensures { IfOk result (λ entries. entries.items ≡ self) }
    {
        let alloc = self.alloc;
        match self.held {
            Held::Own { entries } => Ok(entries),
            Held::Shared { all, first, count } => part_as_vec(alloc, all, first, count),
        }
    }

    /// The same entries, shared from now on. The only error is `NoMemory`.
    pub fn share(self) -> Result<Entries, NoMemory>
        ensures { IfOk result (λ shared. shared ≡ self) }
    {
        let alloc = self.alloc;
        let held = match self.held {
            Held::Own { entries } => share_all(alloc, entries)?,
            Held::Shared { all, first, count } => Held::Shared { all, first, count },
        };
        Ok(Entries { alloc, held })
    }

    /// The same entries once more. Where they are shared it takes no memory, and the only error is that
    /// there are too many copies to count them; else they are copied, and memory may run out.
    pub fn copy(&self) -> Result<Entries, NoMemory>
        ensures { IfOk result (λ copy. copy ≡ self.now) }
    {
        self.part(0, self.items().len())
    }

    /// `count` of the entries, from the place `first` on, which begin at 0. Where they are shared it takes
    /// no memory, and the only error is that there are too many copies to count them; else they are
    /// copied, and memory may run out.
    pub fn part(&self, first: usize, count: usize) -> Result<Entries, NoMemory>
        requires within { first + count ≤ length self.now }
        ensures { IfOk result (λ part. part ≡ take count (drop first self.now)) }
    {
        let held = part_of(self.alloc, &self.held, first, count)?;
        Ok(Entries {
            alloc: self.alloc,
            held,
        })
    }
}

/// Copies of these entries.
fn copies_of(alloc: Global, entries: &[Entry]) -> Result<Vec<Entry>, NoMemory>
    ensures { IfOk result (λ copies. copies.items ≡ entries.now) }
{
    let mut copies = Vec::with_capacity(alloc, entries.len())?;
    for entry in entries {
        copies.push(entry.copy()?)?;
    }
    Ok(copies)
}

/// `count` entries from a place on.
fn some_of(entries: &[Entry], first: usize, count: usize) -> &[Entry]
    requires within { first + count ≤ length entries.now }
    ensures { result.now ≡ take count (drop first entries.now) }
{
    entries.split_at(first).1.split_at(count).0
}

/// The entries in order.
fn items_of(held: &Held) -> &[Entry]
    requires within { IsWithin held.now }
    ensures { result.now ≡ items_of held.now }
{
    match held {
        Held::Own { entries } => entries,
        Held::Shared { all, first, count } => some_of(all, *first, *count),
    }
}

/// An entry more at the end. After `NoMemory` all is as before.
fn push_to(alloc: Global, held: &mut Held, entry: Entry) -> Result<(), NoMemory>
    requires within { IsWithin held.old }
    ensures ok { OnOk result (items_of held.new ≡ items_of held.old ++ entry ∷ []) }
    ensures err { OnErr result (items_of held.new ≡ items_of held.old) }
    ensures within { IsWithin held.new }
{
    match held {
        Held::Own { entries } => Ok(entries.push(entry)?),
        Held::Shared { all, first, count } => {
            let mut entries = copies_of(alloc, some_of(all, *first, *count))?;
            entries.push(entry)?;
            *held = Held::Own { entries };
            Ok(())
        }
    }
}

/// These entries, to be shared.
fn share_all(alloc: Global, entries: Vec<Entry>) -> Result<Held, NoMemory>
    ensures items { IfOk result (λ held. items_of held ≡ entries.items) }
    ensures within { IfOk result IsWithin }
{
    let count = entries.len();
    let all = Arc::new(alloc, entries)?;
    Ok(Held::Shared {
        all,
        first: 0,
        count,
    })
}

/// A part of shared entries as a `Vec`: their own one, where nobody else has it and it is all of it.
fn part_as_vec(
    alloc: Global,
    all: Arc<Vec<Entry>, Global>,
    first: usize,
    count: usize,
) -> Result<Vec<Entry>, NoMemory>
    requires within { first + count ≤ length (arc_value all).items }
    ensures { IfOk result (λ entries. entries.items ≡ take count (drop first (arc_value all).items)) }
{
    if first > 0 || count < all.len() {
        return copies_of(alloc, some_of(&all, first, count));
    }
    match Arc::try_unwrap(all) {
        Ok(entries) => Ok(entries),
        Err(all) => copies_of(alloc, &all),
    }
}

/// `count` of the entries, from a place on.
#[tactic(auto, using(crate::proofs::Parts::part_of_part))]
fn part_of(alloc: Global, held: &Held, first: usize, count: usize) -> Result<Held, NoMemory>
    requires within { IsWithin held.now }
    requires part { first + count ≤ length (items_of held.now) }
    ensures items { IfOk result (λ part. items_of part ≡ take count (drop first (items_of held.now))) }
    ensures within { IfOk result IsWithin }
{
    match held {
        Held::Own { entries } => Ok(Held::Own {
            entries: copies_of(alloc, some_of(entries, first, count))?,
        }),
        Held::Shared {
            all,
            first: before,
            count: _,
        } => Ok(Held::Shared {
            all: Arc::try_clone(all)?,
            first: before + first,
            count,
        }),
    }
}
