ghost use Rattle.std.specs.Prelude.{◌≡◌, ◌≤◌, ◌<◌, ℕ, true, length, nat_le};
ghost use Rattle.std.specs.List.{All};
ghost use Rattle.log_view.specs.Log.{last, term_at};
ghost use Rattle.raft_model.specs.Replica.{committed_by};
ghost use Rattle.raft_append.specs.Matching.{greatest_below};

use log_view::Log;
use raft_model::Progress;
use roster::has_reached;

/// The commit rule: the greatest index above `commit` up to which a majority of the voters has matched
/// the log, and whose entry is of `term`; `commit` where there is none.
///
/// `voters` are the 1 to 7 hosts of the group, ascending, each 1 to 9. An entry of an earlier term
/// isn't committed by counting who has it, but by an entry of the term after it. It takes no memory.
/// Where the log says that its terms rise, and none is above `term`, it takes as long as there are
/// voters, whatever the log's length; else as long as there are indices above `commit` that a majority
/// has and that aren't of the term. Source: dissertation sections 3.5 and 3.6.
#[tactic(auto, using(crate::proofs::Matched::skipped, crate::proofs::Matched::greatest_less))]
pub fn commit_candidate(
    log: &Log,
    term: u64,
    commit: u64,
    voters: &[u8],
    progress: &Progress,
) -> u64
    requires few { length voters.now ≤ 7 }
    requires hosts { All (λ v. v ≤ 9) voters.now }
    ensures { result ≡ committed_by voters.now progress.now.matched log.now term commit }
{
    let mut left = log.last().saturating_sub(commit);
    while left > 0 {
        let index = commit + left;
        if !has_reached(voters, &progress.matched, index) {
            left = matched_below(voters, &progress.matched, index).saturating_sub(commit);
        } else if log.term_or_zero(index) == term {
            return index;
        } else if is_before(log, index, term) {
            return commit;
        } else {
            left -= 1;
        }
    }
    commit
}

/// Whether the entry at this index is of a term before this one, and so are all below it: where terms
/// rise they need not be looked at.
fn is_before(log: &Log, index: u64, term: u64) -> bool
    requires within { index ≤ last log.now }
    ensures { result ≡ true → ((k : ℕ) → k ≤ index → term_at log.now k < term) }
{
    log.term_or_zero(index) < term && log.terms_rise()
}

/// The greatest index below this one that a voter has matched, 0 for none.
fn matched_below(voters: &[u8], matched: &[u64; 10], index: u64) -> u64
    requires some { 0 < index }
    requires hosts { All (λ v. v ≤ 9) voters.now }
    ensures greatest { result ≡ greatest_below matched.now index 0 voters.now }
    ensures below { result < index }
{
    let mut below = 0;
    for voter in voters {
        let own = matched[*voter as usize];
        if own < index {
            below = below.max(own);
        }
    }
    below
}
