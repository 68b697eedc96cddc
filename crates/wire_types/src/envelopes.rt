ghost use Rattle.std.specs.Prelude.{◌≡◌, ◌≤◌, ◌++◌, [], ◌∷◌, length, take, IfOk, OnOk, OnErr};
ghost use Rattle.wire_types.specs.Held.{append_of, all_shown, AreShown};

use crate::append::{AppendHead, append_of};
use crate::envelope::Envelope;
use crate::frozen::{Frozen, keep, reuse};
use crate::run::Run;
use crate::slot::{Slot, settle};
use host_ids::{Entries, Entry, NoMemory};
use std::alloc::Global;
use std::marker::Model;

/// Envelopes in order. Clauses see it as its list.
///
/// Appends have their entries in common. Entries are copied once, into a run that grows while its Appends
/// are held: each of them shows a part of it. Once the envelopes are taken the run grows no more, and the
/// Appends have counts of it, as have later Appends of the same entries. Source: this project's own.
#[derive(Debug, Drop)]
pub struct Envelopes {
    alloc: Global,
    /// Envelopes that are finished.
    done: Vec<Envelope>,
    /// The envelopes after them.
    slots: Vec<Slot>,
    /// The run of which these show parts.
    run: Run,
    /// Runs that grow no more, the one that was used last at the end.
    frozen: Vec<Frozen>,
}

impl Model for Envelopes {
    ghost use Rattle.std.specs.Prelude.{List, ◌++◌};
    ghost use Rattle.wire_types.specs.declared.envelope.Envelope.{Envelope};
    ghost use Rattle.wire_types.specs.Held.{all_shown, AreShown};

    ghost Value = { List Envelope };

    ghost view = { λ e. e.done.items ++ all_shown e.run.entries.items e.slots.items };

    ghost invariant = { λ e. AreShown e.run.entries.items e.slots.items };
}

impl Envelopes {
    /// No envelopes, which takes no memory.
    pub fn new(alloc: Global) -> Envelopes
        ensures { result ≡ [] }
    {
        Envelopes {
            alloc,
            done: Vec::new(alloc),
            slots: Vec::new(alloc),
            run: Run::new(alloc),
            frozen: Vec::new(alloc),
        }
    }

    /// Adds an envelope at the end. After `NoMemory`, the only error, all is as before.
    pub fn push(&mut self, envelope: Envelope) -> Result<(), NoMemory>
        ensures ok { OnOk result (self.new ≡ self.old ++ envelope ∷ []) }
        ensures err { OnErr result (self.new ≡ self.old) }
    {
        if self.slots.is_empty() {
            self.done.push(envelope)?;
            return Ok(());
        }
        self.slots.push(Slot::Whole { envelope })?;
        Ok(())
    }

    /// Adds an Append of the first `count` of these entries, which come after the head's `prev`. The rest
    /// of `tail`, of which at most some more are looked at, may be copied ahead for Appends to come. After
    /// `NoMemory`, the only error, the envelopes can only be dropped.
    ///
    /// It takes as long as comparing the entries with those of at most nine runs, and copying those that
    /// the run lacks; where a new run begins, as copying at most 128 or `count` entries, and moving the
    /// envelopes that were added since the last run began.
    pub fn push_append(
        &mut self,
        head: AppendHead,
        tail: &[Entry],
        count: usize,
    ) -> Result<(), NoMemory>
        requires within { count ≤ length tail.now }
        ensures { OnOk result (self.new ≡ self.old ++ append_of head (take count tail.now) ∷ []) }
    {
        if count == 0 {
            return self.push(append_of(head, Entries::new(self.alloc)));
        }
        match reuse(&mut self.frozen, head.prev, &tail[..count])? {
            Some(entries) => self.push(append_of(head, entries)),
            None => self.push_part(head, tail, count),
        }
    }

    /// Adds an Append of the first `count` of these entries as a part of the run, or of a new run where it
    /// isn't the same as they are.
    fn push_part(&mut self, head: AppendHead, tail: &[Entry], count: usize) -> Result<(), NoMemory>
        requires within { count ≤ length tail.now }
        ensures { OnOk result (self.new ≡ self.old ++ append_of head (take count tail.now) ∷ []) }
    {
        if let Some(first) = self.run.place_of(head.prev, &tail[..count]) {
            self.run.extend(first, &tail[..count])?;
            self.slots.push(Slot::Part { head, first, count })?;
            return Ok(());
        }
        seal(
            self.alloc,
            &mut self.done,
            &mut self.slots,
            &mut self.run,
            &mut self.frozen,
        )?;
        self.run = Run::begin(self.alloc, head.prev, tail, count)?;
        self.slots.push(Slot::Part {
            head,
            first: 0,
            count,
        })?;
        Ok(())
    }

    /// All of them, after which none are left. After `NoMemory`, the only error, what is left is only to be
    /// dropped. It takes as long as moving the envelopes that were added since the last run began.
    pub fn take(&mut self) -> Result<Envelopes, NoMemory>
        ensures taken { IfOk result (λ taken. taken ≡ self.old) }
        ensures left { OnOk result (self.new ≡ []) }
    {
        seal(
            self.alloc,
            &mut self.done,
            &mut self.slots,
            &mut self.run,
            &mut self.frozen,
        )?;
        let mut taken = Envelopes::new(self.alloc);
        taken.done = std::mem::replace(&mut self.done, Vec::new(self.alloc));
        Ok(taken)
    }

    /// The envelopes in order, as a `Vec` of their owner's. The only error is `NoMemory`. It takes as long
    /// as moving the envelopes that were added since the last run began.
    pub fn into_vec(self) -> Result<Vec<Envelope>, NoMemory>
        ensures { IfOk result (λ envelopes. envelopes.items ≡ self) }
    {
        let Envelopes {
            alloc,
            mut done,
            mut slots,
            mut run,
            mut frozen,
        } = self;
        seal(alloc, &mut done, &mut slots, &mut run, &mut frozen)?;
        Ok(done)
    }
}

/// Ends the run: the envelopes of the slots are finished, each Append with its part of the run, which is
/// kept. Where there are no slots it does nothing. Each envelope is moved once. After `NoMemory`, the only
/// error, some of them may be lost.
fn seal(
    alloc: Global,
    done: &mut Vec<Envelope>,
    slots: &mut Vec<Slot>,
    run: &mut Run,
    frozen: &mut Vec<Frozen>,
) -> Result<(), NoMemory>
    requires within { AreShown run.old.entries.items slots.old.items }
    ensures done { OnOk result (done.new.items ≡ done.old.items ++ all_shown run.old.entries.items slots.old.items) }
    ensures none { slots.new.items ≡ [] }
{
    if slots.is_empty() {
        return Ok(());
    }
    let grown = std::mem::replace(run, Run::new(alloc));
    let Ok(entries) = Entries::from_vec(grown.entries).share() else {
        slots.clear();
        return Err(NoMemory);
    };
    settle(done, slots, &entries)?;
    keep(
        frozen,
        Frozen {
            prev: grown.prev,
            entries,
        },
    )
}
