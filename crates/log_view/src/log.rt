ghost use Rattle.std.specs.Prelude.{◌≡◌, ◌≤◌, ◌<◌, ◌+◌, ◌-◌, ◌^◌, [], ◌∷◌, true, length, drop, IfOk, OnOk, OnErr};
ghost use Rattle.std.specs.List.{All};
ghost use Rattle.log_view.specs.Log.{empty, last, last_term, term_at, term_there, slice, append_after, cut_front, reset};
ghost use Rattle.log_view.specs.Tallies.{TermsRise, command_length};

use crate::ranges::some_from;
use crate::tally::Tally;
use host_ids::{Entries, Entry, NoMemory};
use std::alloc::Global;
use std::marker::Model;

/// A replica's log: a front with its term, and the entries after it.
///
/// The front is the index before the first entry that is kept, 0 where all are; the last index is
/// that of the last entry, or the front where there is none. Clauses see a log as the record of its
/// front, the front's term and its entries. Source: dissertation sections 3.5 and 5.1.
#[derive(Debug, Drop)]
pub struct Log {
    front: u64,
    front_term: u64,
    held: Vec<Entry>,
    tally: Tally,
}

impl Model for Log {
    ghost use Rattle.std.specs.Prelude.{◌<◌, ◌+◌, ◌^◌, length};
    ghost use Rattle.log_view.specs.Log.{Log as LogValue};
    ghost use Rattle.log_view.specs.Tallies.{IsTally};

    ghost Value = { LogValue };

    ghost view = { λ l. record { front = l.front; front_term = l.front_term; entries = l.held.items } };

    ghost invariant = { λ l. (l.front + length l.held.items < 2 ^ 64) × IsTally l.front_term l.held.items l.tally };
}

impl Log {
    /// A log without entries from the front 0 on, which takes no memory.
    pub fn new(alloc: Global) -> Log
        ensures { result ≡ empty }
    {
        Log {
            front: 0,
            front_term: 0,
            held: Vec::new(alloc),
            tally: Tally::new(),
        }
    }

    /// The index before the first entry that is kept, 0 where all are.
    pub fn front(&self) -> u64
        ensures { result ≡ self.now.front }
    {
        self.front
    }

    /// The index of the last entry; the front where there is none.
    pub fn last(&self) -> u64
        ensures { result ≡ last self.now }
    {
        self.front + self.held.len() as u64
    }

    /// The term at an index; `None` exactly where the index is below the front or above the last.
    pub fn term_at(&self, index: u64) -> Option<u64>
        ensures { result ≡ term_there self.now index }
    {
        if index < self.front || index > self.last() {
            return None;
        }
        if index == self.front {
            return Some(self.front_term);
        }
        Some(self.held[(index - self.front - 1) as usize].term)
    }

    /// The term at an index from front to last, 0 elsewhere: no entry has the term 0.
    pub fn term_or_zero(&self, index: u64) -> u64
        ensures { result ≡ term_at self.now index }
    {
        self.term_at(index).unwrap_or(0)
    }

    /// The term at the last index.
    fn last_term(&self) -> u64
        ensures { result ≡ last_term self.now }
    {
        self.term_or_zero(self.last())
    }

    /// Whether no term from front to last is below one before it. False says nothing: it stays so after
    /// a lower term came, until `reset`. It takes no time that grows with the log.
    #[tactic(auto, using(crate::proofs::Tallies::terms_rise))]
    pub fn terms_rise(&self) -> bool
        ensures { result ≡ true → TermsRise self.now }
    {
        self.tally.rises
    }

    /// A length that no command in the log exceeds, 0 after `new` and `reset`: entries that went count
    /// until then. It takes no time that grows with the log.
    pub fn longest(&self) -> usize
        ensures { All (λ e. command_length e.proposal ≤ result) self.now.entries }
    {
        self.tally.longest
    }

    /// The entries from `first` on, at most `most` of them; `first` lies from front + 1 to last + 1.
    pub fn some(&self, first: u64, most: u64) -> &[Entry]
        requires after { self.now.front < first }
        requires within { first ≤ last self.now + 1 }
        ensures { result.now ≡ slice self.now first most }
    {
        let place = first - self.front - 1;
        some_from(&self.held, place as usize, most as usize)
    }

    /// The entries from `first` on, at most `most` of them; `first` lies from front + 1 to last + 1.
    /// It takes as long as what it copies. The only error is `NoMemory`.
    pub fn slice(&self, first: u64, most: u64) -> Result<Entries, NoMemory>
        requires beyond { self.now.front < first }
        requires within { first ≤ last self.now + 1 }
        ensures { IfOk result (λ es. es ≡ slice self.now first most) }
    {
        Entries::from_slice(*self.held.allocator(), self.some(first, most))
    }

    /// The entries from `first` on, all of them where `first` is at most the front.
    pub fn tail(&self, first: u64) -> &[Entry]
        ensures { result.now ≡ drop (first - self.now.front - 1) self.now.entries }
    {
        let place = first.saturating_sub(self.front).saturating_sub(1) as usize;
        self.held.split_at(place.min(self.held.len())).1
    }

    /// All entries from `first` on, which lies from front + 1 to last + 1. It takes as long as what it
    /// copies. The only error is `NoMemory`.
    pub fn rest(&self, first: u64) -> Result<Entries, NoMemory>
        requires beyond { self.now.front < first }
        requires within { first ≤ last self.now + 1 }
        ensures { IfOk result (λ es. es ≡ drop (first - self.now.front - 1) self.now.entries) }
    {
        let place = (first - self.front - 1) as usize;
        Entries::from_slice(*self.held.allocator(), self.held.split_at(place).1)
    }

    /// The entries up to `index` stay, and these come after them; `index` lies from front to last,
    /// and the last index stays below 2^64. It takes as long as what goes and what comes. After
    /// `NoMemory`, the only error, all is as before.
    pub fn append_after(&mut self, index: u64, entries: Entries) -> Result<(), NoMemory>
        requires beyond { self.old.front ≤ index }
        requires within { index ≤ last self.old }
        requires fits { index + length entries < 2 ^ 64 }
        ensures ok { OnOk result (self.new ≡ append_after self.old index entries) }
        ensures err { OnErr result (self.new ≡ self.old) }
    {
        let mut more = entries.into_vec()?;
        self.held.reserve(more.len())?;
        self.held.truncate((index - self.front) as usize);
        let tally = self.tally.with_all(self.last_term(), &more);
        self.held.append(&mut more)?;
        self.tally = tally;
        Ok(())
    }

    /// The entry comes after the last one, where the last index stays below 2^64. It takes a step. After
    /// `NoMemory`, the only error, all is as before.
    pub fn push(&mut self, entry: Entry) -> Result<(), NoMemory>
        requires fits { last self.old + 1 < 2 ^ 64 }
        ensures ok { OnOk result (self.new ≡ append_after self.old (last self.old) (entry ∷ [])) }
        ensures err { OnErr result (self.new ≡ self.old) }
    {
        let tally = self.tally.with(self.last_term(), &entry);
        self.held.push(entry)?;
        self.tally = tally;
        Ok(())
    }

    /// The front becomes `index`, with the term there, and the entries up to it go; `index` lies from
    /// front to last. It takes no memory.
    #[tactic(auto, using(crate::proofs::Tallies::term_of_entry))]
    pub fn cut_front(&mut self, index: u64)
        requires beyond { self.old.front ≤ index }
        requires within { index ≤ last self.old }
        ensures { self.new ≡ cut_front self.old index }
    {
        if index > self.front {
            let count = (index - self.front) as usize;
            self.front_term = self.held[count - 1].term;
            self.held.drain(..count);
            self.front = index;
        }
    }

    /// The front becomes `index`, with a term, and no entry is kept. It takes no memory.
    pub fn reset(&mut self, index: u64, term: u64)
        ensures { self.new ≡ reset index term }
    {
        self.held.clear();
        self.front = index;
        self.front_term = term;
        self.tally = Tally::new();
    }
}
