ghost use Rattle.std.specs.Prelude.{◌≡◌};
ghost use Rattle.raft_model.specs.Group.{is_decided};
ghost use Rattle.raft_model.specs.Allowed.{is_allowed};
ghost use Rattle.group_world.specs.Members.{group_of};
ghost use Rattle.raft_model.specs.Given.{IsGiven};

use crate::members::Members;
use host_ids::Entry;
use raft_core::LaneEvent;

/// Whether a place is 0 with the term 0, or a decided one with its term.
fn is_decided(decided: &[Entry], index: u64, term: u64) -> bool
    ensures { result ≡ is_decided decided.now index term }
{
    if index == 0 {
        return term == 0;
    }
    match decided.get((index - 1) as usize) {
        None => false,
        Some(entry) => entry.term == term,
    }
}

/// Whether an event is one that honest disks and honest snapshots may lead to. An install names the
/// received snapshot, and no start is given.
pub(crate) fn is_allowed(w: &Members, event: &LaneEvent) -> bool
    requires given { IsGiven (group_of w.now) event.now }
    ensures { result ≡ is_allowed (group_of w.now) event.now }
{
    match event {
        LaneEvent::Chunk { chunk, .. } => is_decided(&w.decided, chunk.index, chunk.last_term),
        LaneEvent::Restart { .. } => false,
        LaneEvent::Timeout { .. }
        | LaneEvent::Beat { .. }
        | LaneEvent::Deliver { .. }
        | LaneEvent::Ready { .. }
        | LaneEvent::Saved { .. }
        | LaneEvent::Propose { .. }
        | LaneEvent::Ask { .. }
        | LaneEvent::Compact { .. }
        | LaneEvent::Installed { .. }
        | LaneEvent::Down { .. } => true,
    }
}
