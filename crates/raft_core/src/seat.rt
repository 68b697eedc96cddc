ghost use Rattle.std.specs.Prelude.{◌≡◌, ◌≤◌, length, IfOk};
ghost use Rattle.std.specs.List.{All};
ghost use Rattle.raft_core.specs.Range.{IsSeat};

use host_ids::NoMemory;
use std::alloc::Global;
use std::marker::Model;

/// A place in a group: which group, which host, and all its voters, ascending. Source: this project's
/// own.
#[derive(Debug, Drop)]
pub(crate) struct Seat {
    group: u8,
    me: u8,
    voters: Vec<u8>,
}

impl Model for Seat {
    ghost use Rattle.std.specs.Prelude.{◌≤◌, length};
    ghost use Rattle.std.specs.List.{All};
    ghost use Rattle.roster.specs.Roster.{Seat as SeatValue};

    ghost Value = { SeatValue };

    ghost view = { λ s. record { group = s.group; me = s.me; voters = s.voters.items } };

    ghost invariant = { λ s. (1 ≤ s.me) × (s.me ≤ 9) × (length s.voters.items ≤ 7) × All (λ v. v ≤ 9) s.voters.items };
}

impl Seat {
    /// The place of host `me`. The only error is `NoMemory`.
    pub(crate) fn new(alloc: Global, group: u8, me: u8, voters: &[u8]) -> Result<Seat, NoMemory>
        requires host { (1 ≤ me) × (me ≤ 9) }
        requires few { length voters.now ≤ 7 }
        requires hosts { All (λ v. v ≤ 9) voters.now }
        ensures { IfOk result (λ seat. seat ≡ record { group = group; me = me; voters = voters.now }) }
    {
        let voters = Vec::from_slice(alloc, voters)?;
        Ok(Seat { group, me, voters })
    }

    /// Its allocator. The host of a seat is one (`host`).
    pub(crate) fn alloc(&self) -> Global
        ensures host { IsSeat self.now }
    {
        *self.voters.allocator()
    }

    pub(crate) fn group(&self) -> u8
        ensures { result ≡ self.now.group }
    {
        self.group
    }

    pub(crate) fn me(&self) -> u8
        ensures value { result ≡ self.now.me }
        ensures host { (1 ≤ result) × (result ≤ 9) }
    {
        self.me
    }

    pub(crate) fn voters(&self) -> &[u8]
        ensures value { result.now ≡ self.now.voters }
        ensures hosts { All (λ v. v ≤ 9) result.now }
        ensures few { length result.now ≤ 7 }
    {
        &self.voters
    }
}
