ghost use Rattle.std.specs.Prelude.{◌≡◌, ◌<◌, ◌+◌, ◌^◌, OnOk, IfOk};
ghost use Rattle.log_view.specs.Log.{last};
ghost use Rattle.raft_model.specs.Replica.{appended, appended_to_all};
ghost use Rattle.raft_model.specs.Proposing.{on_propose, on_local_proposal};
ghost use Rattle.raft_core.specs.Notes.{dropped_notes};

use crate::seat::Seat;
use crate::sending::{append_to_others, is_full_now, is_leader_role, lower, send_in};
use host_ids::{Entry, Key, NoMemory, Proposal};
use raft_model::State;
use wire_types::Body;

/// An entry of the term at the end of the log.
fn append(r: &mut State, key: Key, proposal: Proposal) -> Result<(), NoMemory>
    requires room { last r.old.log + 1 < 2 ^ 64 }
    ensures { OnOk result (r.new ≡ appended key proposal r.old) }
{
    let index = r.log.last() + 1;
    let entry = Entry {
        index,
        term: r.term,
        key,
        proposal,
    };
    r.log.push(entry)?;
    lower(r, index);
    Ok(())
}

/// A leader appends an entry and sends it to the others.
pub(crate) fn append_to_all(
    seat: &Seat,
    r: &mut State,
    key: Key,
    proposal: Proposal,
) -> Result<(), NoMemory>
    requires room { last r.old.log + 1 < 2 ^ 64 }
    ensures { OnOk result (r.new ≡ appended_to_all seat.now key proposal r.old) }
{
    append(r, key, proposal)?;
    append_to_others(seat, r)
}

/// A proposal that another host handed on.
pub(crate) fn propose_row(
    seat: &Seat,
    r: &mut State,
    key: Key,
    proposal: Proposal,
) -> Result<(), NoMemory>
    ensures { OnOk result (r.new ≡ (on_propose seat.now key proposal r.old).replica) }
{
    if is_leader_role(r) && !is_full_now(r) {
        append_to_all(seat, r, key, proposal)?;
    }
    Ok(())
}

/// A proposal that was asked here; whether it is dropped.
pub(crate) fn local_proposal_row(
    seat: &Seat,
    r: &mut State,
    key: Key,
    proposal: Proposal,
) -> Result<bool, NoMemory>
    ensures replica { OnOk result (r.new ≡ (on_local_proposal seat.now key proposal r.old).replica) }
    ensures notes { IfOk result (λ dropped. dropped_notes key dropped ≡ (on_local_proposal seat.now key proposal r.old).notes) }
{
    if is_full_now(r) {
        return Ok(true);
    }
    if is_leader_role(r) {
        append_to_all(seat, r, key, proposal)?;
        return Ok(false);
    }
    if r.leader == 0 {
        return Ok(true);
    }
    let leader = r.leader;
    send_in(0, seat, r, leader, Body::Propose { key, proposal })?;
    Ok(false)
}
