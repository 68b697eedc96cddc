ghost use Rattle.std.specs.Prelude.{◌≡◌, ◌<◌, ◌^◌, ◌+◌, ◌-◌, ◌++◌, ◌∷◌, [], length, OnOk, IfOk, if◌then◌else◌};
ghost use Rattle.raft_model.specs.Group.{act, is_member};
ghost use Rattle.raft_model.specs.Given.{IsGiven};
ghost use Rattle.run_model.specs.World.{is_declared, node_at};
ghost use Rattle.run_model.specs.Run.{bare, core, has_any, heard, has_group, is_ripe, is_unsaved, is_used, moved, next_key, noted, reached, unsettled};
ghost use Rattle.script_world.specs.Parts.{is_memory, is_leading};
ghost use Rattle.script_world.specs.World.{world_of};
ghost use Rattle.script_world.specs.Took.{Took};
ghost use Rattle.script_text.specs.Print.{refusal_number};

use crate::world::World;
use group_world::Lane;
use host_ids::{Key, NoMemory, Text};
use raft_core::{LaneEvent, LaneFault, Note, Role};
use script_parts::{tell, tell_notes};
use script_text::{Limit, Line, MOST_ENTRIES, MOST_ENVELOPES, MOST_SCRIPT, Refusal, Tolds};
use std::alloc::Global;

/// The limit of a script, as a length.
const SCRIPT_LENGTH: usize = MOST_SCRIPT as usize;

fn has_any(voters: &[u8]) -> bool
    ensures { result ≡ has_any voters.now }
{
    match voters {
        [] => false,
        [_, ..] => true,
    }
}

fn is_leading(role: Role) -> bool
    ensures { result ≡ is_leading role }
{
    matches!(role, Role::Leader)
}

/// How many entries an event appended where these were the last indices before and after it.
fn appended_by(role: Role, before: u64, later: u64) -> u64
    ensures { result ≡ (if is_leading role then later - before else 0) }
{
    if is_leading(role) {
        later.saturating_sub(before)
    } else {
        0
    }
}

/// Whether memory ran out.
fn is_memory(fault: LaneFault) -> bool
    ensures { result ≡ is_memory fault }
{
    matches!(fault, LaneFault::NoMemory)
}

/// An event of a group: its notes. A refused event changes nothing, and has none.
fn act_on(alloc: Global, lane: &mut Lane, event: LaneEvent) -> Result<Vec<Note>, NoMemory>
    requires { IsGiven lane.old.group event }
    ensures group { OnOk result (lane.new.group ≡ (act event lane.old.group).group) }
    ensures notes { IfOk result (λ notes. notes.items ≡ (act event lane.old.group).notes) }
    ensures voters { OnOk result (lane.new.group.voters ≡ lane.old.group.voters) }
{
    match lane.act(event) {
        Ok(notes) => Ok(notes),
        Err(fault) => {
            if is_memory(fault) {
                return Err(NoMemory);
            }
            Ok(Vec::new(alloc))
        }
    }
}

impl World {
    /// Whether a host was declared.
    pub(crate) fn is_declared(&self, host: u8) -> bool
        ensures { result ≡ is_declared (world_of self.now) host }
    {
        match self.declared.get(host as usize) {
            Some(declared) => *declared,
            None => false,
        }
    }

    /// Whether a host has a replica of the group.
    pub(crate) fn is_voter(&self, host: u8) -> bool
        ensures { result ≡ is_member (world_of self.now).group host }
    {
        self.lane.voters().contains(&host)
    }

    /// Whether the group was declared.
    pub(crate) fn has_group(&self) -> bool
        ensures { result ≡ has_group (world_of self.now) }
    {
        has_any(self.lane.voters())
    }

    /// Whether the context was used by a request that wasn't refused.
    pub(crate) fn is_used(&self, context: &Text) -> bool
        ensures { result ≡ is_used (world_of self.now) context.now }
    {
        self.contexts.has(context)
    }

    /// The key of the next request of a host.
    pub(crate) fn next_key(&self, host: u8) -> Key
        ensures { result ≡ next_key (world_of self.now) host }
    {
        Key {
            host,
            start: 1,
            serial: self.contexts.count(host) + 1,
        }
    }

    /// Tells that a line is refused.
    pub(crate) fn refuse(&self, refusal: Refusal, out: &mut Tolds) -> Result<(), NoMemory>
        ensures { OnOk result (out.new ≡ out.old ++ bare (Line.Refused (refusal_number refusal)) ∷ []) }
    {
        let number = refusal.number();
        tell(self.alloc, Line::Refused { number }, out)
    }

    /// An event of the core that moves the replica of a host: its notes. After `NoMemory`, the only
    /// error, the world can only be dropped.
    pub(crate) fn act(&mut self, host: u8, event: LaneEvent) -> Result<Vec<Note>, NoMemory>
        requires given { IsGiven (world_of self.old).group event }
        ensures world { OnOk result (world_of self.new ≡ moved host event (world_of self.old)) }
        ensures notes { IfOk result (λ notes. notes.items ≡ noted event (world_of self.old)) }
    {
        if self.broken {
            return Err(NoMemory);
        }
        self.broken = true;
        let before = self.lane.last(host);
        let notes = act_on(self.alloc, &mut self.lane, event)?;
        let more = appended_by(self.lane.role(host), before, self.lane.last(host));
        self.appended = self.appended.saturating_add(more).min(MOST_ENTRIES);
        self.broken = false;
        Ok(notes)
    }

    /// An event of the core that moves the replica of a host, and the lines of what it noted.
    pub(crate) fn core(
        &mut self,
        host: u8,
        event: LaneEvent,
        out: &mut Tolds,
    ) -> Result<(), NoMemory>
        requires given { IsGiven (world_of self.old).group event }
        ensures { OnOk result (Took (core host event (world_of self.old)) (world_of self.new) out.old out.new) }
    {
        let notes = self.act(host, event)?;
        tell_notes(self.alloc, &notes, out)?;
        self.hear(host, &notes, out)
    }

    /// After an event of a host the reads that it confirmed wait for their indices, and those whose
    /// index is reached are answered.
    #[tactic(auto, using(crate::proofs::Hearing::nothing_heard))]
    pub(crate) fn hear(&mut self, host: u8, notes: &[Note], out: &mut Tolds) -> Result<(), NoMemory>
        ensures { OnOk result (Took (heard host notes.now (world_of self.old)) (world_of self.new) out.old out.new) }
    {
        let place = usize::from(host);
        if place >= self.nodes.len() {
            return Ok(());
        }
        self.nodes[place].hear(&self.contexts, notes, out)
    }

    /// The first limit that is reached, where the lines that were read have `size` bytes: of entries, of
    /// envelopes, of the script, in this order. A run stops there, before its next line.
    #[tactic(auto, unfolding(run_model::specs::Run::reached))]
    pub fn reached(&self, size: usize) -> Option<Limit>
        ensures { result ≡ reached (world_of self.now) size }
    {
        if self.appended >= MOST_ENTRIES {
            return Some(Limit::Entries);
        }
        if self.lane.newest() >= MOST_ENVELOPES {
            return Some(Limit::Envelopes);
        }
        if size >= SCRIPT_LENGTH {
            return Some(Limit::Script);
        }
        None
    }

    /// How many entries the cell of a host was given.
    pub(crate) fn applied(&self, host: u8) -> u64
        ensures { result ≡ (node_at (world_of self.now) host).cell.applied }
    {
        match self.nodes.get(host as usize) {
            Some(node) => node.applied(),
            None => 0,
        }
    }

    /// Whether an entry of a host may be applied.
    pub(crate) fn is_ripe(&self, host: u8) -> bool
        ensures { result ≡ is_ripe (world_of self.now) host }
    {
        self.applied(host) < self.lane.ripe(host)
    }

    /// Whether a batch of a host's replica is pending, or something changed that a batch can hold.
    pub(crate) fn is_unsaved(&self, host: u8) -> bool
        ensures { result ≡ is_unsaved (world_of self.now) host }
    {
        if self.lane.batch(host).is_some() {
            return true;
        }
        self.lane.changed(host)
    }

    /// How many envelopes there are after the settled number.
    pub(crate) fn unsettled(&self) -> u64
        ensures count { result ≡ unsettled (world_of self.now) }
        ensures room { (world_of self.now).settled + result < 2 ^ 64 }
    {
        let newest = self.lane.newest();
        newest.saturating_sub(self.settled)
    }
}
