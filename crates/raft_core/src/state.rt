ghost use Rattle.std.specs.Prelude.{◌≡◌};
ghost use Rattle.raft_model.specs.Replica.{fresh};

use log_view::Log;
use raft_model::{Chunks, Role, State, Taken};
use read_index::Reads;
use std::alloc::Global;
use wire_types::Envelopes;

/// The state of a replica that has just begun, which takes no memory.
pub(crate) fn fresh_state(alloc: Global) -> State
    ensures { result ≡ fresh }
{
    State {
        term: 0,
        vote: 0,
        log: Log::new(alloc),
        commit: 0,
        role: Role::Follower,
        leader: 0,
        granted: [false; 10],
        next: [0; 10],
        matched: [0; 10],
        reads: Reads::new(alloc),
        stable: 0,
        from: 1,
        pending: None,
        held: Envelopes::new(alloc),
        assembly: Chunks::new(alloc),
        inbox: None,
        taken: Taken {
            term: 0,
            vote: 0,
            commit: 0,
            front: 0,
        },
        batches: 0,
    }
}
