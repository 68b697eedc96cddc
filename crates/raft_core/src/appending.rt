ghost use Rattle.std.specs.Prelude.{◌≡◌, ◌≤◌, ◌<◌, ◌+◌, ◌^◌, length, OnOk};
ghost use Rattle.log_view.specs.Log.{last};
ghost use Rattle.roster.specs.Roster.{at};
ghost use Rattle.raft_model.specs.Replica.{commit_rule};
ghost use Rattle.raft_model.specs.Appending.{changed, answers_append, takes_append, follows, on_append as append_of, more_to, progress, with_progress, heard, on_append_reply as append_reply_of};

use crate::seat::Seat;
use crate::sending::{append_to_one, is_leader_role, lower, send};
use host_ids::{Entries, NoMemory};
use raft_append::{Appended, Progress, commit_candidate, on_append, on_append_reply};
use raft_model::{Role, State};
use wire_types::Body;

/// The replica follows the sender.
pub(crate) fn follow(r: &mut State, from: u8)
    ensures { r.new ≡ follows from r.old }
{
    r.role = Role::Follower;
    r.leader = from;
}

/// The log changed from an index on, or it didn't.
fn note_change(r: &mut State, changed_from: Option<u64>)
    ensures { r.new ≡ changed changed_from r.old }
{
    match changed_from {
        None => {}
        Some(index) => lower(r, index),
    }
}

/// The outcome of an append is answered.
fn answer_append(
    seat: &Seat,
    r: &mut State,
    from: u8,
    commit: u64,
    outcome: Appended,
) -> Result<(), NoMemory>
    ensures { OnOk result (r.new ≡ (answers_append seat.now from commit outcome r.old).replica) }
{
    match outcome {
        Appended::Refused { hint } => send(
            seat,
            r,
            from,
            Body::AppendReply {
                ok: false,
                index: hint,
            },
        ),
        Appended::Stored {
            index,
            changed_from,
        } => {
            note_change(r, changed_from);
            r.commit = r.commit.max(commit.min(index));
            send(seat, r, from, Body::AppendReply { ok: true, index })
        }
    }
}

/// An Append of the replica's term, at a follower of the sender.
fn take_append(
    seat: &Seat,
    r: &mut State,
    from: u8,
    prev: u64,
    prev_term: u64,
    commit: u64,
    entries: Entries,
) -> Result<(), NoMemory>
    requires front { r.old.log.front ≤ r.old.commit }
    requires committed { r.old.commit ≤ last r.old.log }
    requires fits { prev + length entries < 2 ^ 64 }
    ensures { OnOk result (r.new ≡ (takes_append seat.now from prev prev_term commit entries r.old).replica) }
{
    let own = r.commit;
    let outcome = on_append(&mut r.log, own, prev, prev_term, entries)?;
    answer_append(seat, r, from, commit, outcome)
}

/// An Append, whose term was taken over.
pub(crate) fn append_row(
    seat: &Seat,
    r: &mut State,
    from: u8,
    term: u64,
    prev: u64,
    prev_term: u64,
    commit: u64,
    entries: Entries,
) -> Result<(), NoMemory>
    requires front { r.old.log.front ≤ r.old.commit }
    requires committed { r.old.commit ≤ last r.old.log }
    requires fits { prev + length entries < 2 ^ 64 }
    ensures { OnOk result (r.new ≡ (append_of seat.now from term prev prev_term commit entries r.old).replica) }
{
    if term < r.term {
        return send(
            seat,
            r,
            from,
            Body::AppendReply {
                ok: false,
                index: 0,
            },
        );
    }
    if is_leader_role(r) {
        return Ok(());
    }
    follow(r, from);
    take_append(seat, r, from, prev, prev_term, commit, entries)
}

/// A voter that lacks entries is sent more.
pub(crate) fn send_more(seat: &Seat, r: &mut State, to: u8) -> Result<(), NoMemory>
    requires host { to ≤ 9 }
    ensures { OnOk result (r.new ≡ more_to seat.now to r.old) }
{
    if r.matched[to as usize] < r.log.last() {
        append_to_one(seat, r, to)?;
    }
    Ok(())
}

fn progress_of(r: &State) -> Progress
    ensures { result ≡ progress r.now }
{
    Progress {
        next: r.next,
        matched: r.matched,
    }
}

/// A voter's answer moves what is known of it.
pub(crate) fn hear(r: &mut State, from: u8, ok: bool, index: u64)
    requires host { (1 ≤ from) × (from ≤ 9) }
    requires room { index + 1 < 2 ^ 64 }
    requires matched { at r.old.matched from + 1 < 2 ^ 64 }
    ensures { r.new ≡ with_progress (heard from ok index (progress r.old)) r.old }
{
    let mut known = progress_of(r);
    on_append_reply(&mut known, from, ok, index);
    r.next = known.next;
    r.matched = known.matched;
}

/// The commit rule.
pub(crate) fn commit_by_rule(seat: &Seat, r: &mut State)
    ensures { r.new ≡ commit_rule seat.now r.old }
{
    let known = progress_of(r);
    r.commit = commit_candidate(&r.log, r.term, r.commit, seat.voters(), &known);
}

/// An AppendReply, whose term was taken over.
pub(crate) fn append_reply_row(
    seat: &Seat,
    r: &mut State,
    from: u8,
    term: u64,
    ok: bool,
    index: u64,
) -> Result<(), NoMemory>
    requires host { (1 ≤ from) × (from ≤ 9) }
    requires room { index + 1 < 2 ^ 64 }
    requires matched { at r.old.matched from + 1 < 2 ^ 64 }
    ensures { OnOk result (r.new ≡ (append_reply_of seat.now from term ok index r.old).replica) }
{
    if term != r.term || !is_leader_role(r) {
        return Ok(());
    }
    hear(r, from, ok, index);
    if ok {
        commit_by_rule(seat, r);
        send_more(seat, r, from)
    } else {
        append_to_one(seat, r, from)
    }
}
