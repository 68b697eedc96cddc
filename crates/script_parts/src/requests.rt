ghost use Rattle.std.specs.Prelude.{◌≡◌, [], ◌∷◌, OnOk, IfOk};
ghost use Rattle.std.specs.BTreeMap.{insert_entry};
ghost use Rattle.raft_model.specs.Group.{key_order};
ghost use Rattle.run_model.specs.World.{waiting_order};
ghost use Rattle.script_parts.specs.Due.{is_due};
ghost use Rattle.run_model.specs.Run.{confirmed, confirmed_by, due, keys_with, not_due, want_of, without};

use host_ids::{Key, NoMemory};
use raft_model::Note;
use run_model::{Waiting, Want};
use std::alloc::Global;
use std::collections::{BTreeMap, BTreeSet};
use std::marker::Model;

/// The open requests of a host by key, and of the reads among them those that are confirmed and
/// wait for their front. Clauses see both as lists in order.
#[derive(Drop)]
pub struct Requests {
    alloc: Global,
    wants: BTreeMap<Key, Want>,
    waiting: BTreeSet<Waiting>,
}

impl Model for Requests {
    ghost use Rattle.run_model.specs.World.{waiting_order, Open};

    ghost Value = { Open };

    ghost view = { λ r. record { wants = r.wants.entries; waiting = r.waiting.keys } };
}

impl Requests {
    /// No requests, which takes no memory.
    pub fn new(alloc: Global) -> Requests
        ensures wants { result.wants ≡ [] }
        ensures waiting { result.waiting ≡ [] }
    {
        Requests {
            alloc,
            wants: BTreeMap::new(alloc),
            waiting: BTreeSet::new(alloc),
        }
    }

    /// Adds a request.
    pub fn join(&mut self, key: Key, want: Want) -> Result<(), NoMemory>
        ensures { OnOk result (self.new ≡ record self.old { wants = insert_entry key_order self.old.wants key want }) }
    {
        self.wants.insert(key, want)?;
        Ok(())
    }

    /// A read that is open and has no index yet waits for this one.
    fn confirm(&mut self, key: Key, index: u64) -> Result<(), NoMemory>
        ensures { OnOk result (self.new ≡ confirmed_by (want_of key self.old.wants) key index self.old) }
    {
        let query = match self.wants.get(&key) {
            Some(Want::Read { query, front: None }) => query.copy()?,
            _ => return Ok(()),
        };
        let front = Some(index);
        self.wants.insert(key, Want::Read { query, front })?;
        self.waiting.insert(Waiting { front: index, key })?;
        Ok(())
    }

    /// A read that a note confirms waits for its index.
    #[tactic(auto, unfolding(run_model::specs::Run::confirmed))]
    fn take_note(&mut self, note: Note) -> Result<(), NoMemory>
        ensures { OnOk result (self.new ≡ confirmed (note ∷ []) self.old) }
    {
        match note {
            Note::Confirmed { key, index, .. } => self.confirm(key, index),
            Note::Leader { .. } | Note::Pending { .. } | Note::Idle | Note::Dropped { .. } => Ok(
                (),
            ),
        }
    }

    /// The reads that the notes of an event confirm wait for their indices.
    #[tactic(auto, unfolding(run_model::specs::Run::confirmed))]
    pub fn take_notes(&mut self, notes: &[Note]) -> Result<(), NoMemory>
        ensures { OnOk result (self.new ≡ confirmed notes.now self.old) }
    {
        for note in notes {
            self.take_note(*note)?;
        }
        Ok(())
    }

    /// Takes a request out, if it is open.
    pub fn leave(&mut self, key: Key) -> Option<Want>
        ensures want { result ≡ want_of key self.old.wants }
        ensures rest { self.new ≡ record self.old { wants = without key self.old.wants } }
    {
        self.wants.remove(&key)
    }

    /// The keys of the reads whose front is applied, in order of asking. They wait no longer.
    pub fn due(&mut self, applied: u64) -> Result<Vec<Key>, NoMemory>
        ensures keys { IfOk result (λ keys. keys.items ≡ keys_with [] (due applied self.old.waiting)) }
        ensures rest { OnOk result (self.new ≡ record self.old { waiting = not_due applied self.old.waiting }) }
    {
        let keys = take_due(self.alloc, &mut self.waiting, applied)?;
        in_order(self.alloc, &keys)
    }
}

fn is_due(waiting: &BTreeSet<Waiting>, applied: u64) -> bool
    ensures { result ≡ is_due applied waiting.now.keys }
{
    match waiting.first() {
        Some(read) => read.front <= applied,
        None => false,
    }
}

fn in_order(alloc: Global, keys: &BTreeSet<Key>) -> Result<Vec<Key>, NoMemory>
    ensures { IfOk result (λ list. list.items ≡ keys.now.keys) }
{
    let list = keys.iter().copied().collect(alloc)?;
    Ok(list)
}

fn take_due(
    alloc: Global,
    waiting: &mut BTreeSet<Waiting>,
    applied: u64,
) -> Result<BTreeSet<Key>, NoMemory>
    ensures keys { IfOk result (λ keys. keys.keys ≡ keys_with [] (due applied waiting.old.keys)) }
    ensures rest { OnOk result (waiting.new.keys ≡ not_due applied waiting.old.keys) }
{
    let mut keys = BTreeSet::new(alloc);
    while is_due(waiting, applied) {
        if let Some(read) = waiting.pop_first() {
            keys.insert(read.key)?;
        }
    }
    Ok(keys)
}
