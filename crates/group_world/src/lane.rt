ghost use Rattle.std.specs.Prelude.{◌≡◌, ◌≤◌, ◌<◌, ◌+◌, ◌-◌, ◌^◌, ◌&&◌, not, length, take, drop, true, false, Some, None, Err, OnOk, OnErr, IfOk, IfErr, IfSome, OnSome};
ghost use Rattle.std.specs.List.{All};
ghost use Rattle.std.specs.Option.{option_copied, option_map};
ghost use Rattle.log_view.specs.Log.{last, slice, term_there};
ghost use Rattle.raft_model.specs.Fit.{are_fit};
ghost use Rattle.raft_model.specs.Replica.{is_changed, ripe};
ghost use Rattle.raft_model.specs.Saving.{is_stuck};
ghost use Rattle.raft_model.specs.Allowed.{is_allowed};
ghost use Rattle.raft_model.specs.Group.{act, fresh_group, replica_at, envelope_at};
ghost use Rattle.raft_model.specs.declared.event.LaneFault.TheVariants as faults;
ghost use Rattle.raft_safety.specs.OneList.{IsOneList};
ghost use Rattle.raft_safety.specs.ReadFront.{AreFronted};
ghost use Rattle.raft_safety.specs.Runs.{HasRun};
ghost use Rattle.group_world.specs.Members.{group_of, lost, IsWhole};
ghost use Rattle.raft_model.specs.Given.{refusal_of, IsGiven};

use crate::act::act_on;
use crate::allowed::is_allowed;
use crate::make::begin;
use crate::members::Members;
use crate::moves::range_of;
use crate::refusals::{envelope_of, refusal, some_replica};
use host_ids::{Batch, Entries, Entry, NoMemory};
use raft_core::{LaneEvent, LaneFault, Note, Received, Role};
use raft_safety::{runs_as_one, runs_go_on};
use std::alloc::Global;
use std::marker::Model;
use wire_types::Envelope;

/// A group as one value: its replicas, which of them are up, the wire with every envelope ever sent,
/// what each replica has saved, and the one decided list.
///
/// Clauses see it as the group of the definitions, and whether it is faithful: whether every event that
/// it acted on was one that honest disks and honest snapshots may lead to, and memory never ran out. Of a
/// faithful lane it is a fact of this type that a list of allowed events led to it from a group that has
/// just begun, so what holds after every such list holds of it. After `NoMemory` nothing of the group
/// is left but its number: it has no voters, so from then on each event is refused.
/// Source: dissertation chapter 3; the wire that keeps every envelope, what is saved when, and the
/// refusals are this project's own.
#[derive(Drop)]
pub struct Lane {
    members: Members,
    faithful: bool,
}

impl Model for Lane {
    ghost use Rattle.std.specs.Prelude.{◌≡◌, true};
    ghost use Rattle.raft_safety.specs.Runs.{HasRun};
    ghost use Rattle.group_world.specs.Members.{Kept, group_of, IsWhole};

    ghost Value = { Kept };

    ghost view = { λ l. record { group = group_of l.members; faithful = l.faithful } };

    ghost invariant = { λ l. IsWhole l.members × (l.faithful ≡ true → HasRun (group_of l.members)) };
}

impl Lane {
    /// An event: it answers the notes.
    ///
    /// It is refused exactly where the host is none of the voters (`NotMember`); where it is down, for
    /// `Deliver` the one that the envelope is for (`IsDown`); where no envelope has the number
    /// (`NoEnvelope`); where another batch is pending than the one that was saved, or none
    /// (`NotPending`); where a log is to be cut after the ripe index (`NotRipe`). Refusals come in
    /// the order of the definitions, and a refused event changes nothing. The only other error is
    /// `NoMemory`; then nothing of the group is left but its number, and the lane isn't faithful (`lost`).
    ///
    /// Of an event that isn't refused it is asked: a proposal is no blank, and it and each key have a
    /// spelling; a piece goes to another voter and is well formed, its term is from 1 to its host's and its
    /// index at most 2^62; an Installed names the received snapshot, which is past the commit index, at a
    /// follower. A host that is down can't be started again yet.
    ///
    /// After an event that isn't refused the lane is faithful exactly where it was so and the event is an
    /// allowed one: any but a piece of a snapshot whose place is neither 0 with the term 0 nor a decided
    /// one with its term (`faithful`). Where it stays so, no two hosts lead a term, one before the event
    /// and one after it; the decided list goes on; and what any replica had committed before, or has now,
    /// is of that list (`safe`). Each read that the event notes as confirmed has an index that is at least
    /// the length of the decided list when a read with its key was first asked (`fronts`).
    pub fn act(&mut self, event: LaneEvent) -> Result<Vec<Note>, LaneFault>
        requires given { refusal_of self.old.group event ≡ None → IsGiven self.old.group event }
        ensures refused { IfSome (act event self.old.group).refused (λ fault. result ≡ Err fault) }
        ensures kept { OnSome (act event self.old.group).refused (self.new ≡ self.old) }
        ensures memory { (act event self.old.group).refused ≡ None → IfErr result (λ fault. fault ≡ faults.NoMemory) }
        ensures lost { (act event self.old.group).refused ≡ None → OnErr result (self.new ≡ lost self.old.group.number) }
        ensures group { OnOk result (self.new.group ≡ (act event self.old.group).group) }
        ensures notes { IfOk result (λ notes. notes.items ≡ (act event self.old.group).notes) }
        ensures faithful { OnOk result (self.new.faithful ≡ (self.old.faithful && is_allowed self.old.group event)) }
        ensures safe { self.old.faithful ≡ true → is_allowed self.old.group event ≡ true → OnOk result (IsOneList self.old.group self.new.group) }
        ensures fronts { self.old.faithful ≡ true → is_allowed self.old.group event ≡ true → IfOk result (λ notes. AreFronted self.new.group.asks notes.items) }
    {
        if let Some(fault) = refused(&self.members, &event) {
            return Err(fault);
        }
        runs_go_on();
        runs_as_one();
        let allowed = is_allowed(&self.members, &event);
        let (alloc, number) = (self.members.wire.alloc(), self.members.number);
        match act_on(&mut self.members, event) {
            Ok(notes) => {
                self.faithful = self.faithful && allowed;
                Ok(notes)
            }
            Err(_) => {
                self.members = Members::lost(alloc, number);
                self.faithful = false;
                Err(LaneFault::NoMemory)
            }
        }
    }

    /// The group of these voters, at most 7 hosts, each 1 to 9, which has just begun. All are up. A group
    /// that can decide anything has voters, ascending, and a number of 1 to 64. The only error is
    /// `NoMemory`.
    pub fn new(alloc: Global, group: u8, voters: &[u8]) -> Result<Lane, NoMemory>
        requires few { length voters.now ≤ 7 }
        requires hosts { All (λ v. (1 ≤ v) × (v ≤ 9)) voters.now }
        ensures { IfOk result (λ lane. lane ≡ record { group = fresh_group group voters.now; faithful = true }) }
    {
        runs_go_on();
        Ok(Lane {
            members: begin(alloc, group, voters)?,
            faithful: true,
        })
    }

    /// The voters.
    pub fn voters(&self) -> &[u8]
        ensures { result.now ≡ self.now.group.voters }
    {
        &self.members.voters
    }

    /// The number of the newest envelope, 0 where there is none.
    pub fn newest(&self) -> u64
        ensures { result ≡ length self.now.group.wire }
    {
        self.members.wire.envelopes().len() as u64
    }

    /// The envelope of a number, from 1 in the order of sending; `None` exactly where there is none.
    pub fn envelope(&self, number: u64) -> Option<&Envelope>
        ensures { option_copied result ≡ envelope_at self.now.group.wire number }
    {
        envelope_of(self.members.wire.envelopes(), number)
    }

    /// The decided list's entries from `index`, at least 1, on, at most `most` of them. It takes as
    /// long as what it copies. The only error is `NoMemory`.
    pub fn decided_from(&self, index: u64, most: u64) -> Result<Entries, NoMemory>
        requires from { 1 ≤ index }
        ensures { IfOk result (λ entries. entries ≡ take most (drop (index - 1) self.now.group.decided)) }
    {
        let some = range_of(&self.members.decided, (index - 1) as usize, most as usize);
        Entries::from_slice(*self.members.decided.allocator(), some)
    }

    /// The decided list.
    pub fn decided(&self) -> &[Entry]
        ensures { result.now ≡ self.now.group.decided }
    {
        self.members.decided.as_slice()
    }

    /// The pending batch of a host, a voter, if it has one.
    pub fn batch(&self, host: u8) -> Option<&Batch>
        ensures { option_copied result ≡ option_map (λ p. p.batch) (replica_at self.now.group host).pending }
    {
        match some_replica(&self.members, host) {
            None => None,
            Some(replica) => replica.pending(),
        }
    }

    /// Whether the replica of a host, a voter, has something to save that a batch can hold.
    pub fn changed(&self, host: u8) -> bool
        ensures { result ≡ (is_changed (replica_at self.now.group host) && not (is_stuck (replica_at self.now.group host))) }
    {
        match some_replica(&self.members, host) {
            None => false,
            Some(replica) => replica.changed(),
        }
    }

    /// The last index that the replica of a host, a voter, may have applied: it lies from front to last of
    /// its log, and is at most 2^62.
    #[tactic(auto, using(crate::proofs::Ranges::whole_range))]
    pub fn ripe(&self, host: u8) -> u64
        ensures value { result ≡ ripe (replica_at self.now.group host) }
        ensures range { ((replica_at self.now.group host).log.front ≤ result) × (result ≤ last (replica_at self.now.group host).log) }
        ensures short { result ≤ 2 ^ 62 }
    {
        match some_replica(&self.members, host) {
            None => 0,
            Some(replica) => replica.ripe(),
        }
    }

    /// The last snapshot that the replica of a host, a voter, has received whole, if there is one. It stays
    /// there after its install, until another one takes its place.
    pub fn inbox(&self, host: u8) -> Option<&Received>
        ensures { option_copied result ≡ option_map (λ b. b.received) (replica_at self.now.group host).inbox }
    {
        match some_replica(&self.members, host) {
            None => None,
            Some(replica) => replica.inbox(),
        }
    }

    /// What the replica of a host, a voter, is in its term.
    pub fn role(&self, host: u8) -> Role
        ensures { result ≡ (replica_at self.now.group host).role }
    {
        match some_replica(&self.members, host) {
            None => Role::Follower,
            Some(replica) => replica.role(),
        }
    }

    /// The commit index of the replica of a host, a voter: it lies from front to last of its log.
    #[tactic(auto, using(crate::proofs::Ranges::whole_range))]
    pub fn commit(&self, host: u8) -> u64
        ensures value { result ≡ (replica_at self.now.group host).commit }
        ensures range { ((replica_at self.now.group host).log.front ≤ result) × (result ≤ last (replica_at self.now.group host).log) }
    {
        match some_replica(&self.members, host) {
            None => 0,
            Some(replica) => replica.commit(),
        }
    }

    /// The term of the replica of a host, a voter, at most 2^62.
    #[tactic(auto, using(crate::proofs::Ranges::whole_range))]
    pub fn term(&self, host: u8) -> u64
        ensures value { result ≡ (replica_at self.now.group host).term }
        ensures range { result ≤ 2 ^ 62 }
    {
        match some_replica(&self.members, host) {
            None => 0,
            Some(replica) => replica.term(),
        }
    }

    /// The front of the log of a host, a voter.
    pub fn front(&self, host: u8) -> u64
        ensures { result ≡ (replica_at self.now.group host).log.front }
    {
        match some_replica(&self.members, host) {
            None => 0,
            Some(replica) => replica.log().front(),
        }
    }

    /// The last index of the log of a host, a voter, at most 2^62.
    #[tactic(auto, using(crate::proofs::Ranges::whole_range))]
    pub fn last(&self, host: u8) -> u64
        ensures value { result ≡ last (replica_at self.now.group host).log }
        ensures range { result ≤ 2 ^ 62 }
    {
        match some_replica(&self.members, host) {
            None => 0,
            Some(replica) => replica.log().last(),
        }
    }

    /// The term at an index of the log of a host, a voter; `None` exactly where the index is below its
    /// front or above its last.
    pub fn term_at(&self, host: u8, index: u64) -> Option<u64>
        ensures { result ≡ term_there (replica_at self.now.group host).log index }
    {
        match some_replica(&self.members, host) {
            None => { if index == 0 { Some(0) } else { None } }
            Some(replica) => replica.log().term_at(index),
        }
    }

    /// The entries of the log of a host, a voter, from `first` on, at most `most` of them; `first`
    /// lies from front + 1 to last + 1. Of each entry's proposal the client is at least 1, the series 1
    /// to 2^64-3 and the responded value at most 2^64-3, where it has them. It takes as long as what
    /// it copies. The only error is `NoMemory`.
    pub fn entries(&self, host: u8, first: u64, most: u64) -> Result<Entries, NoMemory>
        requires beyond { (replica_at self.now.group host).log.front < first }
        requires within { first ≤ last (replica_at self.now.group host).log + 1 }
        ensures entries { IfOk result (λ entries. entries ≡ slice (replica_at self.now.group host).log first most) }
        ensures fit { IfOk result (λ entries. are_fit entries ≡ true) }
    {
        let alloc = self.members.wire.alloc();
        Entries::from_slice(alloc, self.entry_slice(host, first, most))
    }

    /// The same entries as `entries` answers, lent.
    #[tactic(auto, using(crate::proofs::Lost::whole_fit))]
    pub fn entry_slice(&self, host: u8, first: u64, most: u64) -> &[Entry]
        requires beyond { (replica_at self.now.group host).log.front < first }
        requires within { first ≤ last (replica_at self.now.group host).log + 1 }
        ensures entries { result.now ≡ slice (replica_at self.now.group host).log first most }
        ensures fit { are_fit result.now ≡ true }
    {
        match some_replica(&self.members, host) {
            None => &[],
            Some(replica) => replica.log().some(first, most),
        }
    }

    /// Whether every event that the lane acted on was an allowed one, that honest disks and honest snapshots
    /// may lead to, and memory never ran out. Then a list of allowed events led to the lane from a group that has just begun (`runs`).
    pub fn faithful(&self) -> bool
        ensures faithful { result ≡ self.now.faithful }
        ensures runs { self.now.faithful ≡ true → HasRun self.now.group }
    {
        self.faithful
    }
}

/// Why an event is refused, if so, by the group's event.
#[tactic(auto, using(crate::proofs::Refused::refused_is))]
fn refused(w: &Members, event: &LaneEvent) -> Option<LaneFault>
    ensures definition { result ≡ (act event.now (group_of w.now)).refused }
    ensures table { result ≡ refusal_of (group_of w.now) event.now }
{
    refusal(w, event)
}
