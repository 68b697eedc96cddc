ghost use Rattle.std.specs.Prelude.{◌≡◌, ◌≤◌, ◌<◌, ◌+◌, ◌-◌, ◌^◌, length, nat_le, OnOk, IfOk, true};
ghost use Rattle.log_view.specs.Log.{last};
ghost use Rattle.raft_model.specs.Saving.{payload, bytes_of, next_id, batch_of, batch_last, gave_batch, is_stuck, stabilised, counts_own, own_vote, own_match, saved_batch};
ghost use Rattle.raft_model.specs.Step.{ready, after_ready};
ghost use Rattle.raft_core.specs.Notes.{led_notes};
ghost use Rattle.raft_model.specs.Replica.{is_candidate};
ghost use Rattle.raft_core.specs.Marks.{mark as mark_by, own_vote_by, stabilised_by, saved_by};

use crate::appending::commit_by_rule;
use crate::seat::Seat;
use crate::sending::{is_candidate_role, is_changed_now, is_leader_role, is_waiting};
use crate::voting::count_grant;
use host_ids::{Batch, Entry, MOST_COMMAND, NoMemory, Proposal};
use raft_model::{Pending, State, Taken};

/// A batch whose entries have this number of bytes or more isn't taken.
const MOST_BATCH: u64 = 1 << 31;

/// This number of entries, each of 51 bytes and a command of at most 512, has fewer bytes than that.
const SURELY_FEW: usize = 3_800_000;

/// The number of the batch after this one.
fn id_after(id: u64) -> u64
    requires { id ≤ 2 ^ 62 }
    ensures { result ≡ next_id id }
{
    if id == 1 << 62 { 1 } else { id + 1 }
}

fn payload_len(proposal: &Proposal) -> usize
    ensures { result ≡ length (payload proposal.now) }
{
    match proposal {
        Proposal::Blank => 0,
        Proposal::Plain { command } => command.bytes().len(),
        Proposal::Session { command, .. } => command.bytes().len(),
        Proposal::Register { .. } => 0,
        Proposal::Close { .. } => 0,
    }
}

/// Whether these entries have at least `most` bytes together.
fn have_bytes(entries: &[Entry], most: u64) -> bool
    ensures { result ≡ nat_le most (bytes_of entries.now) }
{
    let mut left = most;
    for entry in entries {
        left = left
            .saturating_sub(51)
            .saturating_sub(payload_len(&entry.proposal) as u64);
    }
    left == 0
}

/// Whether the next batch would have entries of 2^31 bytes or more. As long as their number and the
/// longest command rule that out, no entry is looked at.
#[tactic(auto, using(crate::proofs::Sizes::few_are_small))]
pub(crate) fn is_stuck_now(r: &State) -> bool
    ensures { result ≡ is_stuck r.now }
{
    let tail = r.log.tail(r.from);
    let is_small = r.log.longest() <= MOST_COMMAND && tail.len() <= SURELY_FEW;
    !is_small && have_bytes(tail, MOST_BATCH)
}

/// What changed since the last batch. Its entries are shared, so it can be copied without memory.
fn batch_now(r: &State) -> Result<Batch, NoMemory>
    requires from { r.now.log.front < r.now.from }
    requires within { r.now.from ≤ last r.now.log + 1 }
    requires id { r.now.batches ≤ 2 ^ 62 }
    ensures { IfOk result (λ batch. batch ≡ batch_of r.now) }
{
    let entries = r.log.rest(r.from)?.share()?;
    Ok(Batch {
        id: id_after(r.batches),
        term: r.term,
        vote: r.vote,
        commit: r.commit,
        front: r.log.front(),
        front_term: r.log.term_or_zero(r.log.front()),
        first: r.from,
        entries,
    })
}

/// The held envelopes wait for the batch.
fn give(r: &mut State, batch: Batch) -> Result<(), NoMemory>
    requires batch { batch ≡ batch_of r.old }
    requires room { last r.old.log + 1 < 2 ^ 64 }
    ensures { OnOk result (r.new ≡ gave_batch r.old) }
{
    let envelopes = r.held.take()?;
    r.batches = batch.id;
    r.pending = Some(Pending { batch, envelopes });
    r.taken = Taken {
        term: r.term,
        vote: r.vote,
        commit: r.commit,
        front: r.log.front(),
    };
    r.from = r.log.last() + 1;
    Ok(())
}

/// The batch to save, if there is one.
pub(crate) fn ready_row(r: &mut State) -> Result<Option<Batch>, NoMemory>
    requires from { r.old.log.front < r.old.from }
    requires within { r.old.from ≤ last r.old.log + 1 }
    requires id { r.old.batches ≤ 2 ^ 62 }
    requires room { last r.old.log + 1 < 2 ^ 64 }
    ensures replica { OnOk result (r.new ≡ after_ready r.old) }
    ensures batch { IfOk result (λ batch. batch ≡ ready r.old) }
{
    if is_waiting(r) || !is_changed_now(r) || is_stuck_now(r) {
        return Ok(None);
    }
    let batch = batch_now(r)?;
    give(r, batch.copy()?)?;
    Ok(Some(batch))
}

/// What Saved needs of a batch: its term, its vote and its last index.
#[derive(Clone, Copy, Debug)]
pub(crate) struct BatchMark {
    pub(crate) term: u64,
    pub(crate) vote: u8,
    pub(crate) end: u64,
}

pub(crate) fn mark_of(batch: &Batch) -> BatchMark
    requires some { 0 < batch.now.first }
    requires room { batch.now.first + length batch.now.entries < 2 ^ 64 }
    ensures { result ≡ mark_by batch.now }
{
    BatchMark {
        term: batch.term,
        vote: batch.vote,
        end: batch.first + batch.entries.items().len() as u64 - 1,
    }
}

/// What is saved: up to the batch's last index, as far as the log is still as it was then.
fn stabilise(r: &mut State, mark: BatchMark)
    ensures { r.new ≡ stabilised_by mark r.old }
{
    r.stable = r.log.front().max(mark.end.min(r.from.saturating_sub(1)));
}

/// The replica's own vote is counted where the batch saved it; whether it leads now.
fn vote_own(seat: &Seat, r: &mut State, mark: BatchMark) -> Result<bool, NoMemory>
    requires room { is_candidate r.old ≡ true → last r.old.log + 1 < 2 ^ 64 }
    ensures replica { OnOk result (r.new ≡ (own_vote_by mark seat.now r.old).replica) }
    ensures notes { IfOk result (λ led. led_notes seat.now r.old.term led ≡ (own_vote_by mark seat.now r.old).notes) }
    ensures pending { OnOk result (r.new.pending ≡ r.old.pending) }
{
    if is_candidate_role(r) && mark.term == r.term && mark.vote == seat.me() {
        count_grant(seat, r, seat.me())
    } else {
        Ok(false)
    }
}

/// A leader counts its own entries once they are saved.
#[tactic(auto, using(crate::proofs::Waits::own_match_stays))]
fn match_own(seat: &Seat, r: &mut State)
    ensures replica { r.new ≡ own_match seat.now r.old }
    ensures pending { r.new.pending ≡ r.old.pending }
{
    if is_leader_role(r) {
        r.matched[seat.me() as usize] = r.stable;
        commit_by_rule(seat, r);
    }
}

/// A batch was saved, which is still pending; whether the replica leads now.
pub(crate) fn saved_row(seat: &Seat, r: &mut State, mark: BatchMark) -> Result<bool, NoMemory>
    requires room { is_candidate r.old ≡ true → last r.old.log + 1 < 2 ^ 64 }
    ensures replica { OnOk result (r.new ≡ own_match seat.now (own_vote_by mark seat.now (stabilised_by mark r.old)).replica) }
    ensures notes { IfOk result (λ led. led_notes seat.now r.old.term led ≡ (own_vote_by mark seat.now (stabilised_by mark r.old)).notes) }
    ensures pending { OnOk result (r.new.pending ≡ r.old.pending) }
{
    stabilise(r, mark);
    let led = vote_own(seat, r, mark)?;
    match_own(seat, r);
    Ok(led)
}
