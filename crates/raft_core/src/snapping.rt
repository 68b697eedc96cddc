ghost use Rattle.std.specs.Prelude.{◌≡◌, ◌≤◌, ◌<◌, ◌+◌, ◌-◌, ◌^◌, ◌++◌, ◌∷◌, [], length, OnOk, IfOk, IfSome, List};
ghost use Rattle.std.specs.List.{flat_map};
ghost use Rattle.log_view.specs.Log.{last};
ghost use Rattle.roster.specs.Roster.{at};
ghost use Rattle.raft_model.specs.Replica.{ripe};
ghost use Rattle.raft_model.specs.Snapping.{belongs, is_next, is_first, after_take, counted_in, taken, on_chunk, on_snap_reply, sends_chunk, compacted, stays, based, replied, installed};

use crate::appending::{follow, hear, send_more};
use crate::seat::Seat;
use crate::sending::{is_follower_role, is_leader_role, send, send_in};
use host_ids::{NoMemory, Text};
use log_view::Log;
use raft_model::{Chunk, Inbox, Received, State};
use std::alloc::Global;
use wire_types::Body;

/// Whether two pieces are of one series.
fn belong(a: &Chunk, b: &Chunk) -> bool
    ensures { result ≡ belongs a.now b.now }
{
    a.term == b.term
        && a.index == b.index
        && a.last_term == b.last_term
        && a.count == b.count
        && a.size == b.size
}

/// Whether a piece is the next one of those in hand.
fn comes_next(hand: &[Chunk], chunk: &Chunk) -> bool
    ensures { result ≡ is_next hand.now chunk.now }
{
    match hand.first() {
        None => false,
        Some(first) => belong(first, chunk) && chunk.number as usize == hand.len() + 1,
    }
}

/// Whether a piece is the first one of a series that isn't in hand.
fn comes_first(hand: &[Chunk], chunk: &Chunk) -> bool
    ensures { result ≡ is_first hand.now chunk.now }
{
    match hand.first() {
        None => chunk.number == 1,
        Some(first) => !belong(first, chunk) && chunk.number == 1,
    }
}

/// The bytes of these pieces, one after the other.
fn joined(alloc: Global, hand: &[Chunk]) -> Result<Text, NoMemory>
    ensures { IfOk result (λ bytes. bytes ≡ flat_map (λ b. b.bytes) hand.now) }
{
    let mut bytes = Vec::new(alloc);
    for chunk in hand {
        bytes.extend_from_slice(chunk.bytes.bytes())?;
    }
    Text::from_vec(bytes)
}

/// A SnapReply, whose term was taken over.
pub(crate) fn snap_reply_row(
    seat: &Seat,
    r: &mut State,
    from: u8,
    term: u64,
    index: u64,
    whole: bool,
) -> Result<(), NoMemory>
    requires host { (1 ≤ from) × (from ≤ 9) }
    requires room { index + 1 < 2 ^ 64 }
    requires matched { at r.old.matched from + 1 < 2 ^ 64 }
    ensures { OnOk result (r.new ≡ (on_snap_reply seat.now from term index whole r.old).replica) }
{
    if !whole || term != r.term || !is_leader_role(r) {
        return Ok(());
    }
    hear(r, from, true, index);
    send_more(seat, r, from)
}

/// The sending of a piece.
pub(crate) fn send_chunk(seat: &Seat, r: &mut State, to: u8, chunk: Chunk) -> Result<(), NoMemory>
    ensures { OnOk result (r.new ≡ (sends_chunk seat.now to chunk r.old).replica) }
{
    let term = chunk.term;
    let body = Body::SnapChunk {
        index: chunk.index,
        last_term: chunk.last_term,
        number: chunk.number,
        count: chunk.count,
        size: chunk.size,
        bytes: chunk.bytes,
    };
    send_in(term, seat, r, to, body)
}

/// The log may be cut.
pub(crate) fn compact_row(r: &mut State, index: u64)
    requires ripe { r.old.commit ≤ last r.old.log }
    ensures { r.new ≡ (compacted index r.old).replica }
{
    if r.log.front() < index && index <= r.commit.min(r.stable) {
        r.log.cut_front(index);
    }
}

/// Whether the log holds a place with its term.
fn has_place(log: &Log, index: u64, term: u64) -> bool
    ensures { result ≡ stays log.now index term }
{
    index <= log.last() && log.term_or_zero(index) == term
}

/// The log begins after a snapshot.
fn base(r: &mut State, index: u64, term: u64)
    requires beyond { r.old.log.front ≤ index }
    requires room { index + 1 < 2 ^ 64 }
    ensures based { r.new ≡ based index term r.old }
    ensures inbox { r.new.inbox ≡ r.old.inbox }
{
    if has_place(&r.log, index, term) {
        r.log.cut_front(index);
        r.stable = r.stable.max(index);
        r.from = r.from.max(index + 1);
    } else {
        r.log.reset(index, term);
        r.stable = index;
        r.from = index + 1;
    }
    r.commit = index;
}

/// The sender of the snapshot hears that it is there.
fn reply_whole(seat: &Seat, r: &mut State, index: u64) -> Result<(), NoMemory>
    requires count { IfSome r.old.inbox (λ b. b.count + 1 < 2 ^ 32) }
    ensures { OnOk result (r.new ≡ replied seat.now index r.old.inbox r.old) }
{
    let (sender, count) = match &r.inbox {
        None => return Ok(()),
        Some(inbox) => (inbox.sender, inbox.count),
    };
    let body = Body::SnapReply {
        index,
        want: count + 1,
        whole: true,
    };
    send(seat, r, sender, body)
}

/// The received snapshot was put in place.
pub(crate) fn installed_row(
    seat: &Seat,
    r: &mut State,
    index: u64,
    term: u64,
) -> Result<(), NoMemory>
    requires front { r.old.log.front ≤ r.old.commit }
    requires room { index + 1 < 2 ^ 64 }
    requires count { IfSome r.old.inbox (λ b. b.count + 1 < 2 ^ 32) }
    ensures { OnOk result (r.new ≡ (installed seat.now index term r.old).replica) }
{
    if !is_follower_role(r) || index <= r.commit {
        return Ok(());
    }
    base(r, index, term);
    reply_whole(seat, r, index)
}

/// A piece that goes after those in hand: it is the last, or the next one is wanted.
fn count_in(seat: &Seat, r: &mut State, from: u8, chunk: Chunk) -> Result<(), NoMemory>
    requires number { chunk.number + 1 < 2 ^ 32 }
    ensures { OnOk result (r.new ≡ after_take seat.now from chunk (counted_in (r.old.assembly ++ chunk ∷ []) chunk) r.old) }
{
    let (index, term, number, count) = (chunk.index, chunk.last_term, chunk.number, chunk.count);
    r.assembly.push(chunk)?;
    if number == count {
        let bytes = joined(seat.alloc(), r.assembly.items())?;
        r.assembly.clear();
        r.inbox = Some(Inbox {
            received: Received { index, term, bytes },
            sender: from,
            count,
        });
        return Ok(());
    }
    let body = Body::SnapReply {
        index,
        want: number + 1,
        whole: false,
    };
    send(seat, r, from, body)
}

/// The pieces in hand take one more, or it isn't the one that is wanted.
fn take_chunk(seat: &Seat, r: &mut State, from: u8, chunk: Chunk) -> Result<(), NoMemory>
    requires number { chunk.number + 1 < 2 ^ 32 }
    requires hand { length r.old.assembly + 1 < 2 ^ 32 }
    ensures { OnOk result (r.new ≡ after_take seat.now from chunk (taken r.old.assembly chunk) r.old) }
{
    if comes_next(r.assembly.items(), &chunk) {
        return count_in(seat, r, from, chunk);
    }
    if comes_first(r.assembly.items(), &chunk) {
        r.assembly.clear();
        return count_in(seat, r, from, chunk);
    }
    let body = Body::SnapReply {
        index: chunk.index,
        want: r.assembly.items().len() as u32 + 1,
        whole: false,
    };
    send(seat, r, from, body)
}

/// A piece of a snapshot, whose term was taken over.
pub(crate) fn chunk_row(seat: &Seat, r: &mut State, from: u8, chunk: Chunk) -> Result<(), NoMemory>
    requires number { chunk.number + 1 < 2 ^ 32 }
    requires count { chunk.count + 1 < 2 ^ 32 }
    requires hand { length r.old.assembly + 1 < 2 ^ 32 }
    ensures { OnOk result (r.new ≡ (on_chunk seat.now from chunk r.old).replica) }
{
    let index = chunk.index;
    if chunk.term < r.term {
        let body = Body::SnapReply {
            index,
            want: 0,
            whole: false,
        };
        return send(seat, r, from, body);
    }
    if is_leader_role(r) {
        return Ok(());
    }
    follow(r, from);
    if index <= r.commit {
        let body = Body::SnapReply {
            index,
            want: chunk.count + 1,
            whole: true,
        };
        return send(seat, r, from, body);
    }
    take_chunk(seat, r, from, chunk)
}
