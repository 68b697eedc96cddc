ghost use Rattle.std.specs.Prelude.{◌≡◌, ◌≤◌, ◌<◌, ◌+◌, ◌^◌};
ghost use Rattle.roster.specs.Roster.{at};
ghost use Rattle.raft_model.specs.Appending.{heard};

use raft_model::Progress;

/// A voter answers an append of the leader's term: it has all up to `index`, or the logs may agree up
/// to there.
///
/// Where it has them, the matched index rises to `index` and the next one above it; neither falls. Else
/// the next index falls to the one above `index`, but not to the matched one, and doesn't rise
/// above what it was but for that. The index and what is matched are below 2^64-1. Source:
/// dissertation section 3.5.
pub fn on_append_reply(progress: &mut Progress, from: u8, ok: bool, index: u64)
    requires host { (1 ≤ from) × (from ≤ 9) }
    requires room { index + 1 < 2 ^ 64 }
    requires matched { at progress.old.matched from + 1 < 2 ^ 64 }
    ensures { progress.new ≡ heard from ok index progress.old }
{
    let place = from as usize;
    if ok {
        progress.matched[place] = progress.matched[place].max(index);
        progress.next[place] = progress.next[place].max(index + 1);
    } else {
        let least = progress.matched[place] + 1;
        progress.next[place] = least.max(progress.next[place].min(index + 1));
    }
}
