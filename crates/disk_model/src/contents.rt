ghost use Rattle.std.specs.Prelude.{◌≡◌, ℕ, ◌+◌, ◌-◌, ◌^◌, ◌<◌, ◌≤◌, true, [], length, take, drop, min, replicate, OnOk, OnErr, IsOk, vec_capacity};
ghost use Rattle.std.specs.List.{list_all};
ghost use Rattle.disk_model.specs.Bytes.{written, cut_to};
ghost use Rattle.disk_model.specs.Undo.{undo, undone, burn, burned, is_within, settled};

use crate::bytes::{put, put_ones};
use std::alloc::{AllocError, Global};
use std::marker::Model;

/// What a call did to the bytes of a file.
#[derive(Drop)]
pub(crate) enum Action {
    /// `count` bytes were written at this place.
    Write { at: usize, count: usize },
    /// The file was made this long.
    Cut { size: usize },
}

/// An action with what undoes it: the bytes that stood from a place on, and the length of before.
#[derive(Drop)]
pub(crate) struct Change {
    action: Action,
    place: usize,
    over: Vec<u8>,
    before: usize,
}

/// The bytes of a file, with its changes since the last sync, the latest last.
///
/// Clauses see what stands there now, what the last sync left, and what stands there with 255 for
/// each byte that was written since. A change keeps the bytes that it overwrote, so that a call
/// costs what it moves, and a loss of power what was moved since the last sync.
#[derive(Drop)]
pub(crate) struct Contents {
    alloc: Global,
    bytes: Vec<u8>,
    changes: Vec<Change>,
}

impl Model for Contents {
    ghost use Rattle.std.specs.Prelude.{◌≡◌, true, vec_capacity};
    ghost use Rattle.std.specs.List.{list_all};
    ghost use Rattle.disk_model.specs.Undo.{Held, held, is_within};

    ghost Value = { Held };

    ghost view = { λ c. held c.changes.items c.bytes.items };

    ghost invariant = { λ c. list_all (is_within (vec_capacity c.bytes)) c.changes.items ≡ true };
}

/// Undoes one change, within the capacity.
fn undo_one(bytes: &mut Vec<u8>, change: &Change)
    requires { is_within (vec_capacity bytes.old) change.now ≡ true }
    ensures items { bytes.new.items ≡ undo change.now bytes.old.items }
    ensures capacity { vec_capacity bytes.old ≤ vec_capacity bytes.new }
{
    put(bytes, change.place, change.over.as_slice()).unwrap();
    bytes.truncate(change.before);
}

/// Does an action again, within the capacity, with 255 for each byte that it wrote.
fn burn_one(bytes: &mut Vec<u8>, change: &Change)
    requires { is_within (vec_capacity bytes.old) change.now ≡ true }
    ensures items { bytes.new.items ≡ burn change.now.action bytes.old.items }
    ensures capacity { vec_capacity bytes.old ≤ vec_capacity bytes.new }
{
    match &change.action {
        Action::Write { at, count } => put_ones(bytes, *at, *count).unwrap(),
        Action::Cut { size } => bytes.resize(*size, 0).unwrap(),
    }
}

/// Undoes changes, the last one first, within the capacity.
fn undo_all(bytes: &mut Vec<u8>, changes: &[Change])
    requires { list_all (is_within (vec_capacity bytes.old)) changes.now ≡ true }
    ensures items { bytes.new.items ≡ undone changes.now bytes.old.items }
    ensures capacity { vec_capacity bytes.old ≤ vec_capacity bytes.new }
{
    let count = changes.len();
    for done in 0..count {
        undo_one(bytes, &changes[count - 1 - done]);
    }
}

/// Does changes again, the first one first, within the capacity, with 255 for what was written.
fn burn_all(bytes: &mut Vec<u8>, changes: &[Change])
    requires { list_all (is_within (vec_capacity bytes.old)) changes.now ≡ true }
    ensures items { bytes.new.items ≡ burned changes.now bytes.old.items }
    ensures capacity { vec_capacity bytes.old ≤ vec_capacity bytes.new }
{
    for change in changes {
        burn_one(bytes, change);
    }
}

impl Contents {
    /// No bytes, which takes no memory.
    pub(crate) fn new(alloc: Global) -> Contents
        ensures { result ≡ settled [] }
    {
        Contents {
            alloc,
            bytes: Vec::new(alloc),
            changes: Vec::new(alloc),
        }
    }

    /// These bytes, as if they had been synced.
    pub(crate) fn of(alloc: Global, bytes: Vec<u8>) -> Contents
        ensures { result ≡ settled bytes.items }
    {
        Contents {
            alloc,
            bytes,
            changes: Vec::new(alloc),
        }
    }

    /// The bytes as they stand.
    pub(crate) fn bytes(&self) -> &[u8]
        ensures { result.now ≡ self.now.now }
    {
        self.bytes.as_slice()
    }

    /// Writes bytes at a place, a gap before them filled with zeros. An error changes nothing.
    pub(crate) fn write(&mut self, at: usize, bytes: &[u8]) -> Result<(), AllocError>
        requires { at + length bytes.now < 2 ^ 64 }
        ensures now { OnOk result (self.new.now ≡ written at bytes.now self.old.now) }
        ensures kept { OnOk result (self.new.kept ≡ self.old.kept) }
        ensures burnt { OnOk result (self.new.burnt ≡ written at (replicate (length bytes.now) 255) self.old.burnt) }
        ensures err { OnErr result (self.new ≡ self.old) }
    {
        let before = self.bytes.len();
        let place = at.min(before);
        let end = (at + bytes.len()).min(before);
        let over = Vec::from_slice(self.alloc, &self.bytes[place..end])?;
        self.changes.reserve(1)?;
        put(&mut self.bytes, at, bytes)?;
        let action = Action::Write {
            at,
            count: bytes.len(),
        };
        self.changes.push_reserved(Change {
            action,
            place,
            over,
            before,
        });
        Ok(())
    }

    /// Makes the file this long. An error changes nothing.
    pub(crate) fn cut(&mut self, size: usize) -> Result<(), AllocError>
        ensures now { OnOk result (self.new.now ≡ cut_to size self.old.now) }
        ensures kept { OnOk result (self.new.kept ≡ self.old.kept) }
        ensures burnt { OnOk result (self.new.burnt ≡ cut_to size self.old.burnt) }
        ensures err { OnErr result (self.new ≡ self.old) }
    {
        let before = self.bytes.len();
        let place = size.min(before);
        let over = Vec::from_slice(self.alloc, &self.bytes[place..])?;
        self.changes.reserve(1)?;
        self.bytes.resize(size, 0)?;
        self.changes.push_reserved(Change {
            action: Action::Cut { size },
            place,
            over,
            before,
        });
        Ok(())
    }

    /// Makes sure of what stands there now.
    pub(crate) fn settle(&mut self)
        ensures { self.new ≡ settled self.old.now }
    {
        self.changes.clear();
    }

    /// Leaves what stood there at the last sync.
    pub(crate) fn fall_back(&mut self)
        ensures { self.new ≡ settled self.old.kept }
    {
        undo_all(&mut self.bytes, self.changes.as_slice());
        self.changes.clear();
    }

    /// Leaves 255 for each byte that was written since the last sync.
    #[tactic(auto, using(crate::proofs::Changes::within_more))]
    pub(crate) fn burn(&mut self)
        ensures { self.new ≡ settled self.old.burnt }
    {
        undo_all(&mut self.bytes, self.changes.as_slice());
        burn_all(&mut self.bytes, self.changes.as_slice());
        self.changes.clear();
    }
}
