ghost use Rattle.std.specs.Prelude.{◌≡◌, [], OnOk, OnErr, true, false, length, nat_lt, filter};
ghost use Rattle.std.specs.Option.{option_copied};
ghost use Rattle.std.specs.Ordering.{nat_cmp};
ghost use Rattle.std.specs.BTreeMap.{insert_entry, is_at};
ghost use Rattle.std.specs.Map.{lookup};
ghost use Rattle.session_lru.specs.Calls.{BeginsUpto};

use host_ids::{NoMemory, Text};
use std::alloc::Global;
use std::collections::BTreeMap;
use std::marker::Model;

/// Kept replies. Clauses see them as pairs of a series and a reply, by ascending series. Source:
/// dissertation section 6.3.
#[derive(Drop)]
pub struct Replies {
    pub(crate) held: BTreeMap<u64, Text>,
}

impl Model for Replies {
    ghost use Rattle.std.specs.Prelude.{List, ℕ};

    ghost Value = { List (ℕ × List ℕ) };

    ghost view = { λ r. r.held.entries };
}

impl Replies {
    /// No replies, which takes no memory.
    pub fn new(alloc: Global) -> Replies
        ensures { result ≡ [] }
    {
        Replies {
            held: BTreeMap::new(alloc),
        }
    }

    /// How many there are.
    pub(crate) fn len(&self) -> usize
        ensures { result ≡ length self.now }
    {
        self.held.len()
    }

    /// The reply of a series.
    pub fn find(&self, series: u64) -> Option<&Text>
        ensures { option_copied result ≡ lookup (is_at (nat_cmp series)) self.now }
    {
        self.held.get(&series)
    }

    /// Keeps a reply, in place of one that the series has. After `NoMemory`, the only error,
    /// all is as before.
    pub fn keep(&mut self, series: u64, reply: Text) -> Result<(), NoMemory>
        ensures ok { OnOk result (self.new ≡ insert_entry nat_cmp self.old series reply) }
        ensures err { OnErr result (self.new ≡ self.old) }
    {
        self.held.insert(series, reply)?;
        Ok(())
    }

    /// Drops the replies up to a series. It costs what is dropped, and not what stays.
    pub fn drop_to(&mut self, series: u64)
        ensures { self.new ≡ filter (λ e. nat_lt series e.0) self.old }
    {
        while self.first_is_upto(series) {
            self.held.pop_first();
        }
    }

    /// Whether there is a reply of a series up to this one. The first one tells.
    fn first_is_upto(&self, series: u64) -> bool
        ensures one { result ≡ true → BeginsUpto series self.now }
        ensures none { result ≡ false → filter (λ e. nat_lt series e.0) self.now ≡ self.now }
    {
        match self.held.first_key_value() {
            Some((first, _)) => *first <= series,
            None => false,
        }
    }
}
