ghost use Rattle.std.specs.Prelude.{◌≡◌, ◌≤◌, ◌^◌, ◌∷◌, [], OnOk, IfOk};
ghost use Rattle.raft_model.specs.declared.note.Note.TheVariants as kinds_of_notes;
ghost use Rattle.raft_model.specs.Replica.{in_term};
ghost use Rattle.raft_model.specs.Step.{on_body, row};
ghost use Rattle.raft_core.specs.Range.{InRange, BodyWithin, IsWithin, IsSeat};

use crate::appending::{append_reply_row, append_row};
use crate::notes::{dropped_note, idle_note, leader_note};
use crate::proposing::{local_proposal_row, propose_row};
use crate::reading::{ask_row, beat_reply_row, beat_row, read_ask_row, script_beat_row};
use crate::seat::Seat;
use crate::sending::take_term;
use crate::snapping::{chunk_row, compact_row, installed_row, send_chunk, snap_reply_row};
use crate::voting::{timeout_row, vote_reply_row, vote_row};
use host_ids::{Key, NoMemory};
use raft_model::{Chunk, Input, Note, State};
use wire_types::Body;

/// An envelope's term is taken over.
#[tactic(auto, using(crate::proofs::Steps::in_term_kept))]
fn enter(r: &mut State, term: u64)
    requires short { term ≤ 2 ^ 62 }
    requires range { InRange r.old }
    ensures entered { r.new ≡ in_term term r.old }
    ensures range { InRange r.new }
    ensures taken_over { term ≤ r.new.term }
{
    take_term(r, term);
}

/// An envelope by its kind: those of a term first meet the rule on greater terms.
fn body_row(
    seat: &Seat,
    r: &mut State,
    from: u8,
    term: u64,
    body: Body,
) -> Result<Vec<Note>, NoMemory>
    requires host { (1 ≤ from) × (from ≤ 9) }
    requires short { term ≤ 2 ^ 62 }
    requires within { BodyWithin body }
    requires range { InRange r.old }
    ensures replica { OnOk result (r.new ≡ (on_body seat.now from term body r.old).replica) }
    ensures notes { IfOk result (λ notes. notes.items ≡ (on_body seat.now from term body r.old).notes) }
{
    match body {
        Body::Vote { last, last_term } => {
            enter(r, term);
            vote_row(seat, r, from, term, last, last_term)?;
            Ok(Vec::new(seat.alloc()))
        }
        Body::VoteReply { granted } => {
            enter(r, term);
            let now = r.term;
            let led = vote_reply_row(seat, r, from, term, granted)?;
            leader_note(seat, now, led)
        }
        Body::Append {
            prev,
            prev_term,
            commit,
            entries,
        } => {
            enter(r, term);
            append_row(seat, r, from, term, prev, prev_term, commit, entries)?;
            Ok(Vec::new(seat.alloc()))
        }
        Body::AppendReply { ok, index } => {
            enter(r, term);
            append_reply_row(seat, r, from, term, ok, index)?;
            Ok(Vec::new(seat.alloc()))
        }
        Body::Beat { commit, round } => {
            enter(r, term);
            beat_row(seat, r, from, term, commit, round)?;
            Ok(Vec::new(seat.alloc()))
        }
        Body::BeatReply { round } => {
            enter(r, term);
            beat_reply_row(seat, r, from, term, round)
        }
        Body::SnapChunk {
            index,
            last_term,
            number,
            count,
            size,
            bytes,
        } => {
            enter(r, term);
            let chunk = Chunk {
                term,
                index,
                last_term,
                number,
                count,
                size,
                bytes,
            };
            chunk_row(seat, r, from, chunk)?;
            Ok(Vec::new(seat.alloc()))
        }
        Body::SnapReply { index, whole, .. } => {
            enter(r, term);
            snap_reply_row(seat, r, from, term, index, whole)?;
            Ok(Vec::new(seat.alloc()))
        }
        Body::Propose { key, proposal } => {
            propose_row(seat, r, key, proposal)?;
            Ok(Vec::new(seat.alloc()))
        }
        Body::ReadAsk { key } => read_ask_row(seat, r, from, key),
        Body::ReadAnswer { key, index } => confirmed_note(seat, key, index),
    }
}

/// The note of a read that the leader confirmed.
fn confirmed_note(seat: &Seat, key: Key, index: u64) -> Result<Vec<Note>, NoMemory>
    ensures { IfOk result (λ notes. notes.items ≡ kinds_of_notes.Confirmed seat.now.me key index ∷ []) }
{
    let mut notes = Vec::new(seat.alloc());
    notes.push(Note::Confirmed {
        host: seat.me(),
        key,
        index,
    })?;
    Ok(notes)
}

/// The row of an input.
#[tactic(auto, unfolding(raft_model::specs::Step::row))]
pub(crate) fn row_of(seat: &Seat, r: &mut State, input: Input) -> Result<Vec<Note>, NoMemory>
    requires within { IsWithin r.old input }
    requires range { InRange r.old }
    ensures replica { OnOk result (r.new ≡ (row seat.now input r.old).replica) }
    ensures notes { IfOk result (λ notes. notes.items ≡ (row seat.now input r.old).notes) }
    ensures host { IsSeat seat.now }
{
    let alloc = seat.alloc();
    match input {
        Input::Timeout => {
            let idle = timeout_row(seat, r)?;
            idle_note(seat, idle)
        }
        Input::Beat => {
            let idle = script_beat_row(seat, r)?;
            idle_note(seat, idle)
        }
        Input::Envelope { envelope } => {
            body_row(seat, r, envelope.from, envelope.term, envelope.body)
        }
        Input::Propose { key, proposal } => {
            let dropped = local_proposal_row(seat, r, key, proposal)?;
            dropped_note(seat, key, dropped)
        }
        Input::Ask { key } => ask_row(seat, r, key),
        Input::Chunk { to, chunk } => {
            send_chunk(seat, r, to, chunk)?;
            Ok(Vec::new(alloc))
        }
        Input::Compact { index } => {
            compact_row(r, index);
            Ok(Vec::new(alloc))
        }
        Input::Installed { index, term } => {
            installed_row(seat, r, index, term)?;
            Ok(Vec::new(alloc))
        }
    }
}
