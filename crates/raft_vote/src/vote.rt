ghost use Rattle.std.specs.Prelude.{◌≡◌, ◌≤◌, ◌<◌, ◌+◌, ◌^◌, ◌&&◌, ℕ, length, if◌then◌else◌};
ghost use Rattle.std.specs.List.{All};
ghost use Rattle.raft_model.specs.Voting.{stands, grants, voted, with_grant, has_won, counts};

use raft_model::Election;
use roster::has_majority;

/// The replica at host `me` stands for leader of the next term, with its own vote and with no vote
/// counted yet: its own counts once it is saved. The term after it is below 2^64.
///
/// Source: dissertation section 3.4; that a vote counts only once it is saved is section 3.8.
pub fn campaign(state: &mut Election, me: u8)
    requires host { (1 ≤ me) × (me ≤ 9) }
    requires room { state.old.term + 1 < 2 ^ 64 }
    ensures { state.new ≡ stands me state.old }
{
    state.term += 1;
    state.vote = me;
    state.granted = [false; 10];
    state.candidate = true;
}

/// A candidate of `term`, which is the state's or an older one, asks for a vote; `last` and
/// `last_term` are the end of its log.
///
/// It gets the vote where the term is the state's, the vote is free or its own already, and its log
/// is at least as late: its last term is greater, or it is equal and the log is no shorter. Then the
/// vote is its own. It answers whether the vote was given; nothing else changes. Source: dissertation
/// sections 3.4 and 3.6.
pub fn on_vote(state: &mut Election, from: u8, term: u64, last: u64, last_term: u64) -> bool
    requires host { (1 ≤ from) × (from ≤ 9) }
    requires taken_over { term ≤ state.old.term }
    ensures granted { result ≡ grants state.old from term last last_term }
    ensures state { state.new ≡ voted from result state.old }
{
    let is_free = state.vote == 0 || state.vote == from;
    let is_late_enough = last_term > state.last_term
        || (last_term == state.last_term && last >= state.last);
    let granted = term >= state.term && is_free && is_late_enough;
    if granted {
        state.vote = from;
    }
    granted
}

/// A voter answers a candidate in `term`, which is the state's or an older one. `voters` are the 1 to
/// 7 hosts of the group, ascending, each 1 to 9.
///
/// The vote is counted where it was given, the term is the state's and the replica is a candidate. It
/// answers whether it was, and a majority has given theirs now; nothing else changes. Source:
/// dissertation section 3.4.
pub fn on_vote_reply(
    state: &mut Election,
    from: u8,
    term: u64,
    granted: bool,
    voters: &[u8],
) -> bool
    requires host { (1 ≤ from) × (from ≤ 9) }
    requires taken_over { term ≤ state.old.term }
    requires few { length voters.now ≤ 7 }
    requires hosts { All (λ v. v ≤ 9) voters.now }
    ensures state { state.new ≡ (if counts state.old term granted then with_grant from state.old else state.old) }
    ensures won { result ≡ (counts state.old term granted && has_won voters.now state.new) }
{
    if !granted || term != state.term || !state.candidate {
        return false;
    }
    state.granted[from as usize] = true;
    has_majority(voters, &state.granted)
}
