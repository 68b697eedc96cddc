ghost use Rattle.std.specs.Prelude.{◌≡◌, true, false, length};
ghost use Rattle.std.specs.List.{list_all};
ghost use Rattle.wire_types.specs.Grammar.{is_host};

use group_world::Lane;
use script_parts::{Clients, Contexts, Node};
use std::alloc::Global;

/// The hosts of a run, the group with its replicas, what each host keeps beside its replica, and the
/// requests and sessions.
///
/// A table has ten places, one for each number of a host. After `NoMemory` in an event of the core
/// a world is broken, and can only be dropped. Else all voters are hosts. Clauses see it as the world of
/// the rules (`world_of`). Source: this project's own.
#[derive(Drop)]
pub struct World {
    pub(crate) alloc: Global,
    pub(crate) declared: [bool; 10],
    pub(crate) lane: Lane,
    pub(crate) limit: u32,
    pub(crate) nodes: Vec<Node>,
    pub(crate) contexts: Contexts,
    pub(crate) clients: Clients,
    pub(crate) settled: u64,
    pub(crate) appended: u64,
    pub(crate) broken: bool,
    ghost table: { length nodes.items ≡ 10 },
    ghost hosts: { broken ≡ false → list_all is_host lane.group.voters ≡ true },
}
