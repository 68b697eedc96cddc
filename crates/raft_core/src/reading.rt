ghost use Rattle.std.specs.Prelude.{◌≡◌, ◌≤◌, ◌<◌, ◌+◌, ◌^◌, ◌==◌, ◌||◌, ◌∷◌, [], nat_le, length, List, OnOk, IfOk, OnErr, true};
ghost use Rattle.std.specs.List.{All};
ghost use Rattle.raft_model.specs.Replica.{quiet};
ghost use Rattle.raft_model.specs.Reading.{confirmed, confirms, answers_round, on_beat_reply, on_beat, beats, next_round, on_script_beat, may_read, opened, open_read, on_read_ask, on_ask, then_more_to};
ghost use Rattle.raft_core.specs.Notes.{idle_notes, dropped_notes};
ghost use Rattle.raft_core.specs.Confirming.{confirm_from};

use crate::appending::{follow, send_more};
use crate::seat::Seat;
use crate::sending::{is_full_now, is_leader_role, send, send_in};
use host_ids::{Key, NoMemory};
use raft_model::{Note, State};
use read_index::OpenRead;
use wire_types::Body;

/// A Beat, whose term was taken over.
pub(crate) fn beat_row(
    seat: &Seat,
    r: &mut State,
    from: u8,
    term: u64,
    commit: u64,
    round: u64,
) -> Result<(), NoMemory>
    ensures { OnOk result (r.new ≡ (on_beat seat.now from term commit round r.old).replica) }
{
    if term < r.term {
        return send(seat, r, from, Body::BeatReply { round: 0 });
    }
    if is_leader_role(r) {
        return Ok(());
    }
    follow(r, from);
    r.commit = r.commit.max(commit.min(r.log.last()));
    send(seat, r, from, Body::BeatReply { round })
}

/// A confirmed read is noted, or answered to the host that handed it on.
fn confirm_one(
    seat: &Seat,
    r: &mut State,
    notes: &mut Vec<Note>,
    read: &OpenRead,
) -> Result<(), NoMemory>
    ensures row { OnOk result (record { replica = r.new; notes = notes.new.items } ≡ confirmed seat.now read.now (record { replica = r.old; notes = notes.old.items })) }
    ensures reads { OnOk result (r.new.reads ≡ r.old.reads) }
{
    if read.origin == seat.me() {
        notes.push(Note::Confirmed {
            host: seat.me(),
            key: read.key,
            index: read.index,
        })?;
        Ok(())
    } else {
        let body = Body::ReadAnswer {
            key: read.key,
            index: read.index,
        };
        send_in(0, seat, r, read.origin, body)
    }
}

/// The open reads that are answered, which come before the others, are confirmed in order.
#[tactic(auto, using(crate::proofs::Confirming::none_left))]
fn confirm_each(seat: &Seat, r: &mut State, notes: &mut Vec<Note>) -> Result<(), NoMemory>
    ensures { OnOk result (record { replica = r.new; notes = notes.new.items } ≡ confirm_from seat.now r.old notes.old.items) }
{
    while let Some(read) = r.reads.confirmed(seat.voters(), seat.me()) {
        confirm_one(seat, r, notes, &read)?;
    }
    Ok(())
}

/// The open reads that are answered are confirmed.
fn confirm_open(seat: &Seat, r: &mut State) -> Result<Vec<Note>, NoMemory>
    ensures replica { OnOk result (r.new ≡ (confirms seat.now r.old).replica) }
    ensures notes { IfOk result (λ notes. notes.items ≡ (confirms seat.now r.old).notes) }
{
    let mut notes = Vec::new(seat.alloc());
    confirm_each(seat, r, &mut notes)?;
    Ok(notes)
}

/// A BeatReply, whose term was taken over.
pub(crate) fn beat_reply_row(
    seat: &Seat,
    r: &mut State,
    from: u8,
    term: u64,
    round: u64,
) -> Result<Vec<Note>, NoMemory>
    requires host { from ≤ 9 }
    ensures replica { OnOk result (r.new ≡ (on_beat_reply seat.now from term round r.old).replica) }
    ensures notes { IfOk result (λ notes. notes.items ≡ (on_beat_reply seat.now from term round r.old).notes) }
{
    if term != r.term || !is_leader_role(r) {
        return Ok(Vec::new(seat.alloc()));
    }
    r.reads.on_beat_reply(from, round);
    let notes = confirm_open(seat, r)?;
    send_more(seat, r, from)?;
    Ok(notes)
}

/// Each other voter is sent a beat of the round.
fn send_beats(seat: &Seat, r: &mut State) -> Result<(), NoMemory>
    ensures { OnOk result (r.new ≡ beats seat.now r.old) }
{
    for voter in seat.voters() {
        if *voter != seat.me() {
            let commit = r.matched[*voter as usize].min(r.commit);
            let round = r.reads.round();
            send(seat, r, *voter, Body::Beat { commit, round })?;
        }
    }
    Ok(())
}

/// The script's beat; whether it is idle.
pub(crate) fn script_beat_row(seat: &Seat, r: &mut State) -> Result<bool, NoMemory>
    ensures replica { OnOk result (r.new ≡ (on_script_beat seat.now r.old).replica) }
    ensures notes { IfOk result (λ idle. idle_notes idle ≡ (on_script_beat seat.now r.old).notes) }
{
    if is_full_now(r) || !is_leader_role(r) {
        return Ok(true);
    }
    r.reads.beat();
    send_beats(seat, r)?;
    Ok(false)
}

/// Whether the replica leads and has committed an entry of its term.
fn may_open(r: &State) -> bool
    ensures { result ≡ may_read r.now }
{
    is_leader_role(r) && r.log.term_or_zero(r.commit) == r.term
}

/// A read opens.
fn open(seat: &Seat, r: &mut State, key: Key, origin: u8) -> Result<Vec<Note>, NoMemory>
    requires room { r.old.reads.round + 1 < 2 ^ 64 }
    ensures replica { OnOk result (r.new ≡ (open_read seat.now key origin r.old).replica) }
    ensures notes { IfOk result (λ notes. notes.items ≡ (open_read seat.now key origin r.old).notes) }
{
    r.reads.ask(key, origin, r.commit)?;
    send_beats(seat, r)?;
    confirm_open(seat, r)
}

/// A read that another host handed on.
pub(crate) fn read_ask_row(
    seat: &Seat,
    r: &mut State,
    from: u8,
    key: Key,
) -> Result<Vec<Note>, NoMemory>
    ensures replica { OnOk result (r.new ≡ (on_read_ask seat.now from key r.old).replica) }
    ensures notes { IfOk result (λ notes. notes.items ≡ (on_read_ask seat.now from key r.old).notes) }
{
    if may_open(r) && !is_full_now(r) {
        open(seat, r, key, from)
    } else {
        Ok(Vec::new(seat.alloc()))
    }
}

/// A read that is dropped.
fn dropped(seat: &Seat, key: Key) -> Result<Vec<Note>, NoMemory>
    ensures { IfOk result (λ notes. notes.items ≡ dropped_notes key true) }
{
    let mut notes = Vec::new(seat.alloc());
    notes.push(Note::Dropped { key })?;
    Ok(notes)
}

/// A read that was asked here.
pub(crate) fn ask_row(seat: &Seat, r: &mut State, key: Key) -> Result<Vec<Note>, NoMemory>
    ensures replica { OnOk result (r.new ≡ (on_ask seat.now key r.old).replica) }
    ensures notes { IfOk result (λ notes. notes.items ≡ (on_ask seat.now key r.old).notes) }
{
    if is_full_now(r) {
        return dropped(seat, key);
    }
    if is_leader_role(r) {
        if may_open(r) {
            return open(seat, r, key, seat.me());
        }
        return dropped(seat, key);
    }
    if r.leader == 0 {
        return dropped(seat, key);
    }
    let leader = r.leader;
    send_in(0, seat, r, leader, Body::ReadAsk { key })?;
    Ok(Vec::new(seat.alloc()))
}
