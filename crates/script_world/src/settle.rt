ghost use Rattle.std.specs.Prelude.{◌≡◌, ◌<◌, ◌++◌, ◌+◌, ◌^◌, true, OnOk, IfOk};
ghost use Rattle.std.specs.List.{list_all, list_any};
ghost use Rattle.run_model.specs.Run.{apply_each, apply_tried, deliver_each, deliver_next, is_busy, is_ripe, is_unsaved, round, second_half, save_each, save_tried, settle, settles, unsettled};
ghost use Rattle.wire_types.specs.Grammar.{is_host};
ghost use Rattle.script_world.specs.World.{world_of};
ghost use Rattle.script_world.specs.Took.{Took, Turned};
ghost use Rattle.script_text.specs.declared.limit.TheConstants.{MOST_ROUNDS};

use crate::world::World;
use host_ids::NoMemory;
use script_text::{Limit, MOST_APPLIED, MOST_ROUNDS, Refusal, Tolds};

impl World {
    /// The voters of the group, each of which is a host. The only error is `NoMemory`, also after an
    /// event of the core met it.
    fn voters(&self) -> Result<Vec<u8>, NoMemory>
        ensures voters { IfOk result (λ voters. voters.items ≡ (world_of self.now).group.voters) }
        ensures hosts { IfOk result (λ voters. list_all is_host voters.items ≡ true) }
    {
        if self.broken {
            return Err(NoMemory);
        }
        let voters = Vec::from_slice(self.alloc, self.lane.voters())?;
        Ok(voters)
    }

    /// Saves where a host has something to save. Answers the limit that was reached before.
    fn save_tried(
        &mut self,
        host: u8,
        size: usize,
        out: &mut Tolds,
    ) -> Result<Option<Limit>, NoMemory>
        ensures { IfOk result (λ full. Turned (save_tried host size (world_of self.old)) (world_of self.new) out.old out.new full) }
    {
        if !self.is_unsaved(host) {
            return Ok(None);
        }
        match self.reached(size) {
            Some(limit) => Ok(Some(limit)),
            None => {
                self.save(host, out)?;
                Ok(None)
            }
        }
    }

    /// Saves at each of these hosts, in their order. Answers the limit that was reached in it.
    fn save_each(
        &mut self,
        hosts: &[u8],
        size: usize,
        out: &mut Tolds,
    ) -> Result<Option<Limit>, NoMemory>
        ensures { IfOk result (λ full. Turned (save_each hosts.now size (world_of self.old)) (world_of self.new) out.old out.new full) }
    {
        for host in hosts {
            if let Some(limit) = self.save_tried(*host, size, out)? {
                return Ok(Some(limit));
            }
        }
        Ok(None)
    }

    /// The envelope after the settled number arrives.
    fn deliver_next(&mut self, out: &mut Tolds) -> Result<(), NoMemory>
        requires { (world_of self.old).settled + 1 < 2 ^ 64 }
        ensures took { OnOk result (Took (deliver_next (world_of self.old)) (world_of self.new) out.old out.new) }
        ensures settled { OnOk result ((world_of self.new).settled ≡ (world_of self.old).settled + 1) }
    {
        self.settled += 1;
        self.arrive(self.settled, out)
    }

    /// The envelopes after the settled number arrive, up to the newest one of now. Answers the limit
    /// that was reached in it.
    fn deliver_each(&mut self, size: usize, out: &mut Tolds) -> Result<Option<Limit>, NoMemory>
        ensures { IfOk result (λ full. Turned (deliver_each (unsettled (world_of self.old)) size (world_of self.old)) (world_of self.new) out.old out.new full) }
    {
        let mut left = self.unsettled();
        'wire: while left > 0 {
            if let Some(limit) = self.reached(size) {
                return Ok(Some(limit));
            }
            self.deliver_next(out)?;
            left -= 1;
        }
        Ok(None)
    }

    /// Applies where an entry of a host is ripe. Answers the limit that was reached before.
    fn apply_tried(
        &mut self,
        host: u8,
        size: usize,
        out: &mut Tolds,
    ) -> Result<Option<Limit>, NoMemory>
        requires { host < 10 }
        ensures { IfOk result (λ full. Turned (apply_tried host size (world_of self.old)) (world_of self.new) out.old out.new full) }
    {
        if !self.is_ripe(host) {
            return Ok(None);
        }
        match self.reached(size) {
            Some(limit) => Ok(Some(limit)),
            None => {
                self.apply(host, MOST_APPLIED, out)?;
                Ok(None)
            }
        }
    }

    /// Applies at each of these hosts, in their order. Answers the limit that was reached in it.
    fn apply_each(
        &mut self,
        hosts: &[u8],
        size: usize,
        out: &mut Tolds,
    ) -> Result<Option<Limit>, NoMemory>
        requires { list_all is_host hosts.now ≡ true }
        ensures { IfOk result (λ full. Turned (apply_each hosts.now size (world_of self.old)) (world_of self.new) out.old out.new full) }
    {
        for host in hosts {
            if let Some(limit) = self.apply_tried(*host, size, out)? {
                return Ok(Some(limit));
            }
        }
        Ok(None)
    }

    /// The deliveries and the applies of a round.
    fn second_half(&mut self, size: usize, out: &mut Tolds) -> Result<Option<Limit>, NoMemory>
        ensures { IfOk result (λ full. Turned (second_half size (world_of self.old)) (world_of self.new) out.old out.new full) }
    {
        if let Some(limit) = self.deliver_each(size, out)? {
            return Ok(Some(limit));
        }
        let hosts = self.voters()?;
        self.apply_each(&hosts, size, out)
    }

    /// A round of a settle. Answers the limit that was reached in it.
    fn round(&mut self, size: usize, out: &mut Tolds) -> Result<Option<Limit>, NoMemory>
        ensures { IfOk result (λ full. Turned (round size (world_of self.old)) (world_of self.new) out.old out.new full) }
    {
        let hosts = self.voters()?;
        if let Some(limit) = self.save_each(&hosts, size, out)? {
            return Ok(Some(limit));
        }
        self.second_half(size, out)
    }

    /// Whether a voter has something to save.
    fn any_unsaved(&self) -> bool
        ensures { result ≡ list_any (is_unsaved (world_of self.now)) (world_of self.now).group.voters }
    {
        self.lane.voters().iter().any(|host| self.is_unsaved(*host))
    }

    /// Whether an entry of a voter is ripe.
    fn any_ripe(&self) -> bool
        ensures { result ≡ list_any (is_ripe (world_of self.now)) (world_of self.now).group.voters }
    {
        self.lane.voters().iter().any(|host| self.is_ripe(*host))
    }

    /// Whether a round has something to do.
    fn is_busy(&self) -> bool
        ensures { result ≡ is_busy (world_of self.now) }
    {
        if self.any_unsaved() || self.unsettled() > 0 {
            return true;
        }
        self.any_ripe()
    }

    /// Rounds until one has nothing to do. Answers the limit that was reached in them.
    fn rounds(&mut self, size: usize, out: &mut Tolds) -> Result<Option<Limit>, NoMemory>
        ensures { IfOk result (λ full. Turned (settle MOST_ROUNDS size (world_of self.old)) (world_of self.new) out.old out.new full) }
    {
        let mut left = MOST_ROUNDS;
        'rounds: while left > 0 {
            if !self.is_busy() {
                return Ok(None);
            }
            if let Some(limit) = self.round(size, out)? {
                return Ok(Some(limit));
            }
            left -= 1;
        }
        Ok(None)
    }

    /// The line `settle`, where the lines that were read have `size` bytes with it. Answers the
    /// limit that was reached in it.
    #[tactic(auto, unfolding(run_model::specs::Run::settles))]
    pub(crate) fn settle(&mut self, size: usize, out: &mut Tolds) -> Result<Option<Limit>, NoMemory>
        ensures { IfOk result (λ full. Turned (settles size (world_of self.old)) (world_of self.new) out.old out.new full) }
    {
        if !self.has_group() {
            self.refuse(Refusal::NoReplica, out)?;
            return Ok(None);
        }
        self.rounds(size, out)
    }
}
