ghost use Rattle.std.specs.Prelude.{◌≡◌, ◌≤◌, ◌<◌, ◌+◌, ◌^◌, ◌∷◌, [], OnOk, IfOk, if◌then◌else◌, true};
ghost use Rattle.log_view.specs.Log.{last};
ghost use Rattle.raft_core.specs.Notes.{led_notes, idle_notes};
ghost use Rattle.raft_model.specs.Replica.{crowned, lead, is_candidate};
ghost use Rattle.raft_model.specs.Voting.{election, campaigned, asked_votes, on_timeout, on_vote, granted_by, on_vote_reply};

use crate::proposing::append_to_all;
use crate::seat::Seat;
use crate::sending::{is_candidate_role, is_full_now, is_leader_role, send};
use host_ids::{Key, NoMemory, Proposal};
use raft_model::{Role, State};
use raft_vote::{Election, campaign, on_vote, on_vote_reply};
use read_index::Reads;
use wire_types::Body;

/// What of the replica its votes depend on.
fn election_of(r: &State) -> Election
    ensures { result ≡ election r.now }
{
    let end = r.log.last();
    Election {
        term: r.term,
        vote: r.vote,
        last: end,
        last_term: r.log.term_or_zero(end),
        granted: r.granted,
        candidate: is_candidate_role(r),
    }
}

/// A candidate of the next term.
fn stand(seat: &Seat, r: &mut State)
    requires room { r.old.term + 1 < 2 ^ 64 }
    ensures { r.new ≡ campaigned seat.now r.old }
{
    let mut state = election_of(r);
    campaign(&mut state, seat.me());
    r.term = state.term;
    r.vote = state.vote;
    r.role = Role::Candidate;
    r.leader = 0;
    r.granted = state.granted;
}

/// Votes are asked of the others.
fn ask_votes(seat: &Seat, r: &mut State) -> Result<(), NoMemory>
    ensures { OnOk result (r.new ≡ asked_votes seat.now r.old) }
{
    for voter in seat.voters() {
        if *voter != seat.me() {
            let end = r.log.last();
            let last_term = r.log.term_or_zero(end);
            let body = Body::Vote {
                last: end,
                last_term,
            };
            send(seat, r, *voter, body)?;
        }
    }
    Ok(())
}

/// The election timeout; whether it is idle.
pub(crate) fn timeout_row(seat: &Seat, r: &mut State) -> Result<bool, NoMemory>
    ensures replica { OnOk result (r.new ≡ (on_timeout seat.now r.old).replica) }
    ensures notes { IfOk result (λ idle. idle_notes idle ≡ (on_timeout seat.now r.old).notes) }
{
    if is_full_now(r) || is_leader_role(r) {
        return Ok(true);
    }
    stand(seat, r);
    ask_votes(seat, r)?;
    Ok(false)
}

/// A Vote, whose term was taken over.
pub(crate) fn vote_row(
    seat: &Seat,
    r: &mut State,
    from: u8,
    term: u64,
    end: u64,
    last_term: u64,
) -> Result<(), NoMemory>
    requires host { (1 ≤ from) × (from ≤ 9) }
    requires taken_over { term ≤ r.old.term }
    ensures { OnOk result (r.new ≡ (on_vote seat.now from term end last_term r.old).replica) }
{
    let mut state = election_of(r);
    let granted = on_vote(&mut state, from, term, end, last_term);
    r.vote = state.vote;
    send(seat, r, from, Body::VoteReply { granted })
}

/// The leader of its term.
fn crown(seat: &Seat, r: &mut State)
    requires room { last r.old.log + 1 < 2 ^ 64 }
    ensures { r.new ≡ crowned seat.now r.old }
{
    r.role = Role::Leader;
    r.leader = seat.me();
    r.reads = Reads::new(seat.alloc());
    r.next = [r.log.last() + 1; 10];
    r.matched = [0; 10];
    r.matched[seat.me() as usize] = r.stable;
}

/// It leads, and says so to all.
#[tactic(auto, using(crate::proofs::Waits::lead_stays))]
fn take_lead(seat: &Seat, r: &mut State) -> Result<(), NoMemory>
    requires room { last r.old.log + 1 < 2 ^ 64 }
    ensures replica { OnOk result (r.new ≡ (lead seat.now r.old).replica) }
    ensures pending { OnOk result (r.new.pending ≡ r.old.pending) }
{
    crown(seat, r);
    let no_key = Key {
        host: 0,
        start: 0,
        serial: 0,
    };
    append_to_all(seat, r, no_key, Proposal::Blank)
}

/// A grant in the candidate's term is counted; whether it leads now.
pub(crate) fn count_grant(seat: &Seat, r: &mut State, from: u8) -> Result<bool, NoMemory>
    requires host { (1 ≤ from) × (from ≤ 9) }
    requires candidate { is_candidate r.old ≡ true }
    requires room { last r.old.log + 1 < 2 ^ 64 }
    ensures replica { OnOk result (r.new ≡ (granted_by seat.now from r.old).replica) }
    ensures notes { IfOk result (λ led. led_notes seat.now r.old.term led ≡ (granted_by seat.now from r.old).notes) }
    ensures pending { OnOk result (r.new.pending ≡ r.old.pending) }
{
    let mut state = election_of(r);
    let term = r.term;
    let won = on_vote_reply(&mut state, from, term, true, seat.voters());
    r.granted = state.granted;
    if won {
        take_lead(seat, r)?;
    }
    Ok(won)
}

/// A VoteReply, whose term was taken over; whether it leads now.
pub(crate) fn vote_reply_row(
    seat: &Seat,
    r: &mut State,
    from: u8,
    term: u64,
    granted: bool,
) -> Result<bool, NoMemory>
    requires host { (1 ≤ from) × (from ≤ 9) }
    requires room { is_candidate r.old ≡ true → last r.old.log + 1 < 2 ^ 64 }
    ensures replica { OnOk result (r.new ≡ (on_vote_reply seat.now from term granted r.old).replica) }
    ensures notes { IfOk result (λ led. led_notes seat.now r.old.term led ≡ (on_vote_reply seat.now from term granted r.old).notes) }
{
    if granted && term == r.term && is_candidate_role(r) {
        count_grant(seat, r, from)
    } else {
        Ok(false)
    }
}
