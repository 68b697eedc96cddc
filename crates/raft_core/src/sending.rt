ghost use Rattle.std.specs.Prelude.{◌≡◌, ◌≤◌, ◌<◌, ◌+◌, ◌^◌, OnOk};
ghost use Rattle.log_view.specs.Log.{last};
ghost use Rattle.raft_model.specs.Replica.{sent, sent_in, append_to, each_other, is_full, is_changed, is_pending, is_leader, is_candidate, is_follower, may_release, lowered, in_term};

use crate::seat::Seat;
use host_ids::NoMemory;
use raft_model::{Role, State};
use wire_types::{AppendHead, Body, Envelope, MOST_ENTRIES};

/// An envelope of the replica's term is held.
pub(crate) fn send(seat: &Seat, r: &mut State, to: u8, body: Body) -> Result<(), NoMemory>
    ensures { OnOk result (r.new ≡ sent seat.now to body r.old) }
{
    let term = r.term;
    r.held.push(Envelope {
        from: seat.me(),
        to,
        group: seat.group(),
        term,
        body,
    })
}

/// An envelope of another term is held.
pub(crate) fn send_in(
    term: u64,
    seat: &Seat,
    r: &mut State,
    to: u8,
    body: Body,
) -> Result<(), NoMemory>
    ensures { OnOk result (r.new ≡ sent_in term seat.now to body r.old) }
{
    r.held.push(Envelope {
        from: seat.me(),
        to,
        group: seat.group(),
        term,
        body,
    })
}

pub(crate) fn is_leader_role(r: &State) -> bool
    ensures { result ≡ is_leader r.now }
{
    match r.role {
        Role::Leader => true,
        Role::Follower => false,
        Role::Candidate => false,
    }
}

pub(crate) fn is_candidate_role(r: &State) -> bool
    ensures { result ≡ is_candidate r.now }
{
    match r.role {
        Role::Candidate => true,
        Role::Follower => false,
        Role::Leader => false,
    }
}

pub(crate) fn is_follower_role(r: &State) -> bool
    ensures { result ≡ is_follower r.now }
{
    match r.role {
        Role::Follower => true,
        Role::Candidate => false,
        Role::Leader => false,
    }
}

pub(crate) fn is_full_now(r: &State) -> bool
    ensures { result ≡ is_full r.now }
{
    r.term >= 1 << 62 || r.log.last() >= 1 << 62 || r.reads.round() >= 1 << 62
}

pub(crate) fn is_changed_now(r: &State) -> bool
    ensures { result ≡ is_changed r.now }
{
    r.term != r.taken.term
        || r.vote != r.taken.vote
        || r.commit != r.taken.commit
        || r.log.front() != r.taken.front
        || r.from <= r.log.last()
}

pub(crate) fn is_waiting(r: &State) -> bool
    ensures { result ≡ is_pending r.now }
{
    match &r.pending {
        None => false,
        Some(_) => true,
    }
}

pub(crate) fn may_send(r: &State) -> bool
    ensures { result ≡ may_release r.now }
{
    !is_waiting(r) && !is_changed_now(r)
}

/// The log changed from an index on.
pub(crate) fn lower(r: &mut State, index: u64)
    ensures { r.new ≡ lowered index r.old }
{
    r.from = r.from.min(index);
    r.stable = r.stable.min(r.from.saturating_sub(1));
}

/// A greater term is taken over.
pub(crate) fn take_term(r: &mut State, term: u64)
    ensures { r.new ≡ in_term term r.old }
{
    if r.term < term {
        r.term = term;
        r.vote = 0;
        r.role = Role::Follower;
        r.leader = 0;
        r.granted = [false; 10];
        r.reads.close();
    }
}

/// Entries to one voter, where it is known which.
#[tactic(auto, using(crate::proofs::Windows::first_ones))]
pub(crate) fn append_to_one(seat: &Seat, r: &mut State, to: u8) -> Result<(), NoMemory>
    requires host { to ≤ 9 }
    ensures { OnOk result (r.new ≡ append_to seat.now to r.old) }
{
    let next = r.next[to as usize];
    if r.log.front() < next && next - 1 <= r.log.last() {
        let prev = next - 1;
        let head = AppendHead {
            from: seat.me(),
            to,
            group: seat.group(),
            term: r.term,
            prev,
            prev_term: r.log.term_or_zero(prev),
            commit: r.commit,
        };
        let tail = r.log.tail(next);
        r.held
            .push_append(head, tail, MOST_ENTRIES.min(tail.len()))?;
    }
    Ok(())
}

/// Entries to each other voter.
pub(crate) fn append_to_others(seat: &Seat, r: &mut State) -> Result<(), NoMemory>
    ensures { OnOk result (r.new ≡ each_other seat.now.me (append_to seat.now) seat.now.voters r.old) }
{
    for voter in seat.voters() {
        if *voter != seat.me() {
            append_to_one(seat, r, *voter)?;
        }
    }
    Ok(())
}
