ghost use Rattle.std.specs.Prelude.{◌≡◌, ◌<◌, ◌++◌, ◌+◌, ◌^◌, true, length, OnOk, IfOk};
ghost use Rattle.run_model.specs.Run.{apply, arrives, deliver, event_step, handed_back, lose, next_entries, pending_at, save, show, taken};
ghost use Rattle.raft_model.specs.Fit.{are_fit};
ghost use Rattle.raft_model.specs.Group.{envelope_at, replica_at};
ghost use Rattle.run_model.specs.World.{node_at};
ghost use Rattle.script_world.specs.World.{world_of};
ghost use Rattle.script_world.specs.Took.{Took};

use crate::world::World;
use group_world::Lane;
use host_ids::{Entry, NoMemory};
use raft_core::LaneEvent;
use script_parts::{Node, kind_of, tell};
use script_text::{HostEvent, Line, Refusal, Tolds};

/// The entries of a host's log after what its node was given, at most `most` and none that isn't
/// ripe.
#[tactic(auto, using(crate::proofs::Fits::length_slice))]
fn next_entries<'a>(lane: &'a Lane, host: u8, node: &Node, most: u32) -> &'a [Entry]
    ensures entries { result.now ≡ next_entries (replica_at lane.now.group host) node.now.cell most }
    ensures fit { are_fit result.now ≡ true }
    ensures room { node.now.cell.applied + length result.now < 2 ^ 64 }
{
    let applied = node.applied();
    let ripe = lane.ripe(host);
    if ripe <= applied {
        return &[];
    }
    let count = u64::from(most).min(ripe - applied);
    lane.entry_slice(host, applied.max(lane.front(host)) + 1, count)
}

impl World {
    /// Takes a batch of a host's replica where none is pending.
    fn take(&mut self, host: u8) -> Result<(), NoMemory>
        ensures { OnOk result (world_of self.new ≡ taken host (world_of self.old)) }
    {
        if self.lane.batch(host).is_some() {
            return Ok(());
        }
        self.act(host, LaneEvent::Ready { host })?;
        Ok(())
    }

    /// Hands the pending batch of a host's replica back as saved; idle where none is pending.
    fn hand_back(&mut self, host: u8, out: &mut Tolds) -> Result<(), NoMemory>
        ensures { OnOk result (Took (handed_back host (pending_at (world_of self.old) host) (world_of self.old)) (world_of self.new) out.old out.new) }
    {
        let id = match self.lane.batch(host) {
            None => return tell(self.alloc, Line::Idle, out),
            Some(batch) => batch.id,
        };
        self.core(host, LaneEvent::Saved { host, id }, out)
    }

    /// Takes a batch of a host's replica where none is pending, and hands the pending one back as
    /// saved.
    pub(crate) fn save(&mut self, host: u8, out: &mut Tolds) -> Result<(), NoMemory>
        ensures { OnOk result (Took (save host (world_of self.old)) (world_of self.new) out.old out.new) }
    {
        self.take(host)?;
        self.hand_back(host, out)
    }

    /// An envelope of this number arrives where it is for; it is refused where there is none.
    pub(crate) fn arrive(&mut self, number: u64, out: &mut Tolds) -> Result<(), NoMemory>
        ensures { OnOk result (Took (arrives (envelope_at (world_of self.old).group.wire number) number (world_of self.old)) (world_of self.new) out.old out.new) }
    {
        let to = match self.lane.envelope(number) {
            None => return self.refuse(Refusal::NoEnvelope, out),
            Some(envelope) => envelope.to,
        };
        self.core(to, LaneEvent::Deliver { number }, out)
    }

    /// The line `deliver`.
    #[tactic(auto, unfolding(run_model::specs::Run::deliver))]
    pub(crate) fn deliver(&mut self, number: u64, out: &mut Tolds) -> Result<(), NoMemory>
        ensures { OnOk result (Took (deliver number (world_of self.old)) (world_of self.new) out.old out.new) }
    {
        if !self.has_group() {
            return self.refuse(Refusal::NoReplica, out);
        }
        self.arrive(number, out)
    }

    /// The line `wire`: shows an envelope.
    #[tactic(auto, unfolding(run_model::specs::Run::show))]
    pub(crate) fn show(&self, number: u64, out: &mut Tolds) -> Result<(), NoMemory>
        ensures told { OnOk result (out.new ≡ out.old ++ (show number (world_of self.now)).told) }
        ensures world { (show number (world_of self.now)).world ≡ world_of self.now }
    {
        if !self.has_group() {
            return self.refuse(Refusal::NoReplica, out);
        }
        match self.lane.envelope(number) {
            None => self.refuse(Refusal::NoEnvelope, out),
            Some(envelope) => {
                let line = Line::Wire {
                    group: 1,
                    number,
                    from: envelope.from,
                    to: envelope.to,
                    kind: kind_of(&envelope.body),
                    term: envelope.term,
                };
                tell(self.alloc, line, out)
            }
        }
    }

    /// The line `lose`: no settle delivers what was sent so far.
    #[tactic(auto, unfolding(run_model::specs::Run::lose))]
    pub(crate) fn lose(&mut self, out: &mut Tolds) -> Result<(), NoMemory>
        ensures { OnOk result (Took (lose (world_of self.old)) (world_of self.new) out.old out.new) }
    {
        if !self.has_group() {
            return self.refuse(Refusal::NoReplica, out);
        }
        self.settled = self.lane.newest();
        Ok(())
    }

    /// Gives entries of a host's log to its cell, at most `most`; idle where none is ripe.
    pub(crate) fn apply(&mut self, host: u8, most: u32, out: &mut Tolds) -> Result<(), NoMemory>
        requires { host < 10 }
        ensures { OnOk result (Took (apply host most (world_of self.old)) (world_of self.new) out.old out.new) }
    {
        if !self.is_ripe(host) {
            return tell(self.alloc, Line::Idle, out);
        }
        let node = &mut self.nodes[host as usize];
        let entries = next_entries(&self.lane, host, node, most);
        node.apply(&self.contexts, entries, out)
    }

    /// What an event at a host's replica does.
    #[tactic(auto, unfolding(run_model::specs::Run::event_step))]
    pub(crate) fn event(
        &mut self,
        host: u8,
        event: HostEvent,
        out: &mut Tolds,
    ) -> Result<(), NoMemory>
        requires { host < 10 }
        ensures { OnOk result (Took (event_step host event (world_of self.old)) (world_of self.new) out.old out.new) }
    {
        match event {
            HostEvent::Timeout { .. } => self.core(host, LaneEvent::Timeout { host }, out),
            HostEvent::Beat { .. } => self.core(host, LaneEvent::Beat { host }, out),
            HostEvent::Ready { .. } => self.core(host, LaneEvent::Ready { host }, out),
            HostEvent::Save { .. } => self.save(host, out),
            HostEvent::Apply { most, .. } => self.apply(host, most, out),
        }
    }
}
