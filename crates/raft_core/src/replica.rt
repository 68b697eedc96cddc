ghost use Rattle.std.specs.Prelude.{◌≡◌, ◌≤◌, ◌++◌, ◌&&◌, ◌↔◌, IsTrue, not, length, true, false, [], ◌∷◌, OnOk, IfOk, IfErr, IfSome, IfNone, None, Some, Err};
ghost use Rattle.std.specs.List.{All};
ghost use Rattle.raft_model.specs.Replica.{may_release, quiet, is_changed, ripe};
ghost use Rattle.raft_model.specs.Saving.{is_stuck};
ghost use Rattle.raft_model.specs.Step.{row, step, released, ready, after_ready, saved};
ghost use Rattle.raft_model.specs.declared.state.Pending.{Pending};
ghost use Rattle.raft_model.specs.Given.{pending_id, is_pending_id};
ghost use Rattle.raft_core.specs.Core.{begun};
ghost use Rattle.raft_core.specs.Range.{IsWithin, InRange, IsMail, Holds};
ghost use Rattle.raft_core.specs.Notes.{led_notes};
ghost use Rattle.raft_core.specs.Marks.{mark as mark_by, saved_by};
ghost use Rattle.std.specs.Option.{option_map, option_copied};
ghost use Rattle.raft_core.specs.declared.fault.CoreFault.TheVariants as core_faults;

use crate::fault::CoreFault;
use crate::notes::leader_note;
use crate::rows::row_of;
use crate::saving::{BatchMark, is_stuck_now, mark_of, ready_row, saved_row};
use crate::seat::Seat;
use crate::sending::{is_changed_now, may_send};
use crate::state::fresh_state;
use crate::within::is_input_within;
use host_ids::{Batch, NoMemory};
use log_view::Log;
use raft_model::{Input, Note, Received, Role, State};
use std::alloc::Global;
use std::collections::VecDeque;
use std::marker::Model;
use wire_types::{Envelope, Envelopes};

/// One replica of a group.
///
/// Clauses see it as the record of its seat, its state, and the envelopes that it has released to be
/// sent and that `sent` hasn't handed out yet. Each call is a row of the step table. Once out
/// of memory, a replica can only be dropped: `step`, `ready` and `saved` answer `NoMemory` from
/// then on, so that it doesn't act on a state that a row left half done. Source: dissertation
/// chapters 3, 5 and 6; batches, and envelopes that are held until what they promise is saved, are
/// this project's own.
#[derive(Drop)]
pub struct Replica {
    seat: Seat,
    state: State,
    out: VecDeque<Envelope>,
    broken: bool,
}

impl Model for Replica {
    ghost use Rattle.std.specs.Prelude.{◌≡◌, false};
    ghost use Rattle.raft_core.specs.Core.{Core};
    ghost use Rattle.std.specs.List.{All};
    ghost use Rattle.raft_core.specs.Range.{InRange, Holds, IsMail};

    ghost Value = { Core };

    ghost view = { λ r. record { seat = r.seat; state = r.state; out = r.out.items } };

    ghost invariant = { λ r. (r.broken ≡ false → InRange r.state × Holds r.state) × All IsMail r.out.items };
}

impl Replica {
    /// The replica of group 1 to 64 at host `me`, which has just begun. `voters` are the 1 to 7 hosts
    /// of the group, ascending, each 1 to 9, with `me` among them. The only error is `NoMemory`.
    pub fn new(alloc: Global, group: u8, me: u8, voters: &[u8]) -> Result<Replica, NoMemory>
        requires host { (1 ≤ me) × (me ≤ 9) }
        requires few { length voters.now ≤ 7 }
        requires hosts { All (λ v. v ≤ 9) voters.now }
        ensures { IfOk result (λ replica. replica ≡ begun group me voters.now) }
    {
        Ok(Replica {
            seat: Seat::new(alloc, group, me, voters)?,
            state: fresh_state(alloc),
            out: VecDeque::new(alloc),
            broken: false,
        })
    }

    /// Whether an input may be given to `step`.
    pub fn is_within(&self, input: &Input) -> bool
        ensures { IsTrue result ↔ IsWithin self.now.state input.now }
    {
        is_input_within(&self.state, input)
    }

    /// The row of an input, and then what may go on the wire after it: it answers the notes.
    ///
    /// An envelope comes from a host, 1 to 9; its term and the indices of an Append's entries, of a reply
    /// and of a piece are at most 2^62; the number and the count of a piece are below 2^32-1. The same holds of a piece that is to be sent. The client of a proposal is at
    /// least 1, its series 1 to 2^64-3, its responded value at most 2^64-3; the same holds of the
    /// proposals of an envelope. An Installed has the index of the received snapshot. The only error
    /// is `NoMemory`; after that the replica can only be dropped.
    pub fn step(&mut self, input: Input) -> Result<Vec<Note>, NoMemory>
        requires within { IsWithin self.old.state input }
        ensures replica { OnOk result (self.new.state ≡ (step self.old.seat input self.old.state).replica) }
        ensures notes { IfOk result (λ notes. notes.items ≡ (step self.old.seat input self.old.state).notes) }
        ensures sent { OnOk result (self.new.out ≡ self.old.out ++ (step self.old.seat input self.old.state).sent) }
        ensures waits { OnOk result (may_release self.new.state ≡ false → self.new.out ≡ self.old.out) }
        ensures seat { self.new.seat ≡ self.old.seat }
        ensures range { OnOk result (InRange self.new.state) }
    {
        if self.broken {
            return Err(NoMemory);
        }
        self.broken = true;
        let notes = act(&self.seat, &mut self.state, input)?;
        release(&mut self.state, &mut self.out)?;
        self.broken = false;
        Ok(notes)
    }

    /// The batch to save, which is pending from then on; `None` exactly where one is pending already,
    /// nothing changed since the last one, or its entries would have 2^31 bytes or more together. The
    /// only error is `NoMemory`; after that the replica can only be dropped.
    pub fn ready(&mut self) -> Result<Option<Batch>, NoMemory>
        ensures replica { OnOk result (self.new.state ≡ after_ready self.old.state) }
        ensures batch { IfOk result (λ batch. batch ≡ ready self.old.state) }
        ensures out { self.new.out ≡ self.old.out }
        ensures seat { self.new.seat ≡ self.old.seat }
        ensures range { OnOk result (InRange self.new.state) }
    {
        if self.broken {
            return Err(NoMemory);
        }
        self.broken = true;
        let batch = take_batch(&mut self.state)?;
        self.broken = false;
        Ok(batch)
    }

    /// The pending batch was saved: the row, and then what may go on the wire after the batch's
    /// envelopes; it answers the notes.
    ///
    /// `NotPending` comes exactly where `id` isn't the number of the pending batch; nothing changes
    /// then. The only other error is `NoMemory`; after that the replica can only be dropped.
    pub fn saved(&mut self, id: u64) -> Result<Vec<Note>, CoreFault>
        ensures not_pending { is_pending_id self.old.state id ≡ false → result ≡ Err (core_faults.NotPending (pending_id self.old.state)) }
        ensures kept { is_pending_id self.old.state id ≡ false → self.new ≡ self.old }
        ensures pending { is_pending_id self.old.state id ≡ true → IfErr result (λ fault. fault ≡ core_faults.NoMemory) }
        ensures replica { (p : Pending) → self.old.state.pending ≡ Some p → OnOk result (self.new.state ≡ (saved self.old.seat p self.old.state).replica) }
        ensures notes { (p : Pending) → self.old.state.pending ≡ Some p → IfOk result (λ notes. notes.items ≡ (saved self.old.seat p self.old.state).notes) }
        ensures sent { (p : Pending) → self.old.state.pending ≡ Some p → OnOk result (self.new.out ≡ self.old.out ++ (saved self.old.seat p self.old.state).sent) }
        ensures seat { self.new.seat ≡ self.old.seat }
        ensures range { OnOk result (InRange self.new.state) }
    {
        let (pending, is_it) = pending_number(&self.state, id);
        if !is_it {
            return Err(CoreFault::NotPending { pending });
        }
        if self.broken {
            return Err(CoreFault::NoMemory);
        }
        self.broken = true;
        let notes = save(&self.seat, &mut self.state, &mut self.out)?;
        self.broken = false;
        Ok(notes)
    }

    /// What it is in its term.
    pub fn role(&self) -> Role
        ensures { result ≡ self.now.state.role }
    {
        self.state.role
    }

    /// Its term.
    pub fn term(&self) -> u64
        ensures { result ≡ self.now.state.term }
    {
        self.state.term
    }

    /// Its commit index.
    pub fn commit(&self) -> u64
        ensures { result ≡ self.now.state.commit }
    {
        self.state.commit
    }

    /// The last index that may be applied: it is both committed and saved.
    pub fn ripe(&self) -> u64
        ensures { result ≡ ripe self.now.state }
    {
        self.state.commit.min(self.state.stable)
    }

    /// The batch that is being saved, if there is one.
    pub fn pending(&self) -> Option<&Batch>
        ensures { option_copied result ≡ option_map (λ p. p.batch) self.now.state.pending }
    {
        match &self.state.pending {
            None => None,
            Some(pending) => Some(&pending.batch),
        }
    }

    /// The last snapshot that was received whole, if there is one. It stays there after its install, until
    /// another one takes its place.
    pub fn inbox(&self) -> Option<&Received>
        ensures { option_copied result ≡ option_map (λ b. b.received) self.now.state.inbox }
    {
        match &self.state.inbox {
            None => None,
            Some(inbox) => Some(&inbox.received),
        }
    }

    /// Its log.
    pub fn log(&self) -> &Log
        ensures { result.now ≡ self.now.state.log }
    {
        &self.state.log
    }

    /// Whether something changed since the last batch was taken, and can be taken: the entries of a
    /// batch have fewer than 2^31 bytes together.
    pub fn changed(&self) -> bool
        ensures { result ≡ (is_changed self.now.state && not (is_stuck self.now.state)) }
    {
        is_changed_now(&self.state) && !is_stuck_now(&self.state)
    }

    /// The next envelope that goes on the wire; `None` exactly where nothing is released. It meets the
    /// conditions on envelopes that `step` has.
    pub fn sent(&mut self) -> Option<Envelope>
        ensures some { IfSome result (λ envelope. self.old.out ≡ envelope ∷ self.new.out) }
        ensures mail { IfSome result IsMail }
        ensures none { IfNone result (self.old.out ≡ []) }
        ensures left { IfNone result (self.new.out ≡ []) }
        ensures state { self.new.state ≡ self.old.state }
        ensures seat { self.new.seat ≡ self.old.seat }
    {
        self.out.pop_front()
    }
}

/// These envelopes go on the wire, in order.
fn put_out(out: &mut VecDeque<Envelope>, envelopes: Envelopes) -> Result<(), NoMemory>
    requires mail { All IsMail out.old.items }
    requires more { All IsMail envelopes }
    ensures put { OnOk result (out.new.items ≡ out.old.items ++ envelopes) }
    ensures mail { All IsMail out.new.items }
{
    let mut more = VecDeque::from_vec(envelopes.into_vec()?);
    out.append(&mut more)?;
    Ok(())
}

/// The row of an input, which keeps the replica in range, and what it sends fit to be given.
#[tactic(auto, using(crate::proofs::Steps::row_kept, crate::proofs::Steps::row_holds))]
fn act(seat: &Seat, r: &mut State, input: Input) -> Result<Vec<Note>, NoMemory>
    requires within { IsWithin r.old input }
    requires range { InRange r.old }
    requires holds { Holds r.old }
    ensures replica { OnOk result (r.new ≡ (row seat.now input r.old).replica) }
    ensures notes { IfOk result (λ notes. notes.items ≡ (row seat.now input r.old).notes) }
    ensures range { OnOk result (InRange r.new) }
    ensures holds { OnOk result (Holds r.new) }
{
    row_of(seat, r, input)
}

/// The batch to save, which keeps the replica in range.
#[tactic(auto, using(crate::proofs::Steps::ready_kept, crate::proofs::Steps::ready_holds))]
fn take_batch(r: &mut State) -> Result<Option<Batch>, NoMemory>
    requires range { InRange r.old }
    requires holds { Holds r.old }
    ensures replica { OnOk result (r.new ≡ after_ready r.old) }
    ensures batch { IfOk result (λ batch. batch ≡ ready r.old) }
    ensures range { OnOk result (InRange r.new) }
    ensures holds { OnOk result (Holds r.new) }
{
    ready_row(r)
}

/// The held envelopes go on the wire where nothing is left to save.
#[tactic(auto, using(crate::proofs::Steps::released_kept, crate::proofs::Steps::released_holds))]
fn release(r: &mut State, out: &mut VecDeque<Envelope>) -> Result<(), NoMemory>
    requires range { InRange r.old }
    requires holds { Holds r.old }
    requires mail { All IsMail out.old.items }
    ensures replica { OnOk result (r.new ≡ (released [] (quiet r.old)).replica) }
    ensures sent { OnOk result (out.new.items ≡ out.old.items ++ (released [] (quiet r.old)).sent) }
    ensures range { OnOk result (InRange r.new) }
    ensures holds { OnOk result (Holds r.new) }
    ensures mail { All IsMail out.new.items }
{
    if may_send(r) {
        let held = r.held.take()?;
        put_out(out, held)?;
    }
    Ok(())
}

/// The number of the pending batch, 0 for none, and whether it is this one.
fn pending_number(r: &State, id: u64) -> (u64, bool)
    ensures number { result.0 ≡ pending_id r.now }
    ensures is_it { result.1 ≡ is_pending_id r.now id }
{
    match &r.pending {
        None => (0, false),
        Some(pending) => (pending.batch.id, pending.batch.id == id),
    }
}

/// What Saved needs of the pending batch.
fn pending_mark(r: &State) -> Option<BatchMark>
    requires range { InRange r.now }
    ensures { result ≡ option_map (λ p. mark_by p.batch) r.now.pending }
{
    match &r.pending {
        None => None,
        Some(pending) => Some(mark_of(&pending.batch)),
    }
}

/// The pending batch's envelopes, after which none is pending.
fn take_envelopes(alloc: Global, r: &mut State) -> Envelopes
    requires mail { IfSome r.old.pending (λ p. All IsMail p.envelopes) }
    ensures envelopes { (p : Pending) → r.old.pending ≡ Some p → result ≡ p.envelopes }
    ensures mail { All IsMail result }
    ensures replica { r.new ≡ record r.old { pending = None } }
{
    match std::mem::replace(&mut r.pending, None) {
        None => Envelopes::new(alloc),
        Some(pending) => pending.envelopes,
    }
}

/// What Saved makes of a replica; whether it leads now, and the envelopes that waited for the batch.
#[tactic(auto, using(crate::proofs::Steps::saved_kept, crate::proofs::Steps::saved_holds))]
fn finish(seat: &Seat, r: &mut State, mark: BatchMark) -> Result<(bool, Envelopes), NoMemory>
    requires range { InRange r.old }
    requires holds { Holds r.old }
    ensures replica { OnOk result (r.new ≡ (saved_by mark seat.now r.old).replica) }
    ensures notes { IfOk result (λ done. led_notes seat.now r.old.term done.0 ≡ (saved_by mark seat.now r.old).notes) }
    ensures envelopes { (p : Pending) → r.old.pending ≡ Some p → IfOk result (λ done. done.1 ≡ p.envelopes) }
    ensures range { OnOk result (InRange r.new) }
    ensures holds { OnOk result (Holds r.new) }
    ensures mail { IfOk result (λ done. All IsMail done.1) }
{
    let led = saved_row(seat, r, mark)?;
    Ok((led, take_envelopes(seat.alloc(), r)))
}

/// The row of Saved, and then what may go on the wire after the batch's envelopes.
fn settle(
    seat: &Seat,
    r: &mut State,
    out: &mut VecDeque<Envelope>,
    mark: BatchMark,
) -> Result<Vec<Note>, NoMemory>
    requires range { InRange r.old }
    requires holds { Holds r.old }
    requires mail { All IsMail out.old.items }
    ensures replica { OnOk result (r.new ≡ (released [] (quiet (saved_by mark seat.now r.old).replica)).replica) }
    ensures notes { IfOk result (λ notes. notes.items ≡ (saved_by mark seat.now r.old).notes) }
    ensures sent { (p : Pending) → r.old.pending ≡ Some p → OnOk result (out.new.items ≡ (out.old.items ++ p.envelopes) ++ (released [] (quiet (saved_by mark seat.now r.old).replica)).sent) }
    ensures range { OnOk result (InRange r.new) }
    ensures holds { OnOk result (Holds r.new) }
    ensures mail { All IsMail out.new.items }
{
    let term = r.term;
    let (led, envelopes) = finish(seat, r, mark)?;
    let notes = leader_note(seat, term, led)?;
    put_out(out, envelopes)?;
    release(r, out)?;
    Ok(notes)
}

/// The row of Saved with the pending batch.
fn save(seat: &Seat, r: &mut State, out: &mut VecDeque<Envelope>) -> Result<Vec<Note>, NoMemory>
    requires range { InRange r.old }
    requires holds { Holds r.old }
    requires mail { All IsMail out.old.items }
    ensures replica { (p : Pending) → r.old.pending ≡ Some p → OnOk result (r.new ≡ (saved seat.now p r.old).replica) }
    ensures notes { (p : Pending) → r.old.pending ≡ Some p → IfOk result (λ notes. notes.items ≡ (saved seat.now p r.old).notes) }
    ensures sent { (p : Pending) → r.old.pending ≡ Some p → OnOk result (out.new.items ≡ out.old.items ++ (saved seat.now p r.old).sent) }
    ensures range { OnOk result (InRange r.new) }
    ensures holds { OnOk result (Holds r.new) }
    ensures mail { All IsMail out.new.items }
{
    match pending_mark(r) {
        None => Ok(Vec::new(seat.alloc())),
        Some(mark) => {
            let notes = settle(seat, r, out, mark)?;
            Ok(notes)
        }
    }
}
