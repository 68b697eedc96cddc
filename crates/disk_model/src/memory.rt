ghost use Rattle.std.specs.Prelude.{◌≡◌, false, true};
ghost use Rattle.disk_model.specs.Plain.{are_plain};

use crate::calls::Calls;
use crate::damage::{Damage, damage_all};
use crate::disk::Disk;
use crate::fault::DiskFault;
use crate::file::MemFile;
use crate::files::{cut_in, listed_in, lose_all, purge, remove_in, sync_in, write_in};
use std::alloc::Global;
use std::collections::BTreeMap;
use std::snapshot::Snapshot;

/// A disk in memory, which tells its plan.
///
/// A call costs what it moves. Of a file only what was overwritten since its last sync is kept
/// beside it. What the files were at each call is remembered for proofs alone, and takes no memory.
/// Source: this project's own.
#[derive(Drop)]
pub struct MemDisk {
    alloc: Global,
    files: BTreeMap<u64, MemFile>,
    /// Whether a file was removed since the last sync.
    pending: bool,
    calls: Calls,
    losses: u64,
    damages: Vec<Damage>,
    past: Vec<Snapshot<BTreeMap<u64, MemFile>>>,
    ghost plain: { pending ≡ false → are_plain files.entries ≡ true },
}

impl MemDisk {
    ghost use Rattle.std.specs.Prelude.{◌≡◌, [], OnOk, OnErr, IfErr, true, ℕ};
    ghost use Rattle.disk_model.specs.Files.{seen_in, left_in, file_at, IsStill};
    ghost use Rattle.disk_model.specs.Plan.{empty_plan, failing_too, damaging_too, armed, powered, is_damaging, one_more};
    ghost use Rattle.disk_model.specs.declared.damage.Damage.{Damage};
    ghost use Rattle.disk_model.specs.declared.fault.DiskFault.TheVariants.{NoMemory};
    ghost use Rattle.disk_model.specs.Memory.{Begins, Counted, Rests, plan_of};

    /// An empty disk of which no call fails, which takes no memory.
    pub(crate) fn new(alloc: Global) -> MemDisk
        ensures plan { plan_of result ≡ empty_plan }
        ensures faults { result.calls.failed ≡ 0 }
    {
        MemDisk {
            alloc,
            files: BTreeMap::new(alloc),
            pending: false,
            calls: Calls::new(alloc),
            losses: 0,
            damages: Vec::new(alloc),
            past: Vec::new(alloc),
        }
    }

    /// Lists a call that fails, counted from 1.
    pub(crate) fn fail(&mut self, call: u64) -> Result<(), DiskFault>
        ensures plan { OnOk result (plan_of self.new ≡ failing_too call (plan_of self.old)) }
        ensures err { OnErr result (plan_of self.new ≡ plan_of self.old) }
        ensures rests { Rests self.old self.new }
        ensures only { IfErr result (λ e. e ≡ NoMemory) }
    {
        self.calls.list(call)?;
        Ok(())
    }

    /// Lists what a loss of power, counted from 1, puts into a file.
    pub(crate) fn damage(&mut self, loss: u64, file: u64, bytes: &[u8]) -> Result<(), DiskFault>
        ensures plan { OnOk result ((d : Damage) × (d.loss ≡ loss) × (d.file ≡ file) × (d.bytes.items ≡ bytes.now) × (plan_of self.new ≡ damaging_too d (plan_of self.old))) }
        ensures err { OnErr result (plan_of self.new ≡ plan_of self.old) }
        ensures rests { Rests self.old self.new }
        ensures only { IfErr result (λ e. e ≡ NoMemory) }
    {
        let bytes = Vec::from_slice(self.alloc, bytes)?;
        self.damages.push(Damage { loss, file, bytes })?;
        Ok(())
    }

    /// Lets `calls` further calls through; those after them fail.
    pub(crate) fn arm(&mut self, calls: u64)
        ensures plan { plan_of self.new ≡ armed calls (plan_of self.old) }
        ensures rests { Rests self.old self.new }
    {
        self.calls.arm(calls);
    }

    /// Loses the power. Memory can run out only where a damage is listed for this loss.
    pub(crate) fn lose(&mut self, choice: u8) -> Result<(), DiskFault>
        ensures plan { OnOk result (plan_of self.new ≡ powered choice (plan_of self.old)) }
        ensures damages { self.new.damages.items ≡ self.old.damages.items }
        ensures rests { Rests self.old self.new }
        ensures left { self.old.damages.items ≡ [] → (f : ℕ) → seen_in self.new.files.entries f ≡ left_in choice self.old.files.entries f }
        ensures still { self.old.damages.items ≡ [] → (f : ℕ) → IsStill (file_at f self.new.files.entries) }
        ensures only { IfErr result (λ e. (e ≡ NoMemory) × (is_damaging (one_more self.old.losses) self.old.damages.items ≡ true)) }
    {
        lose_all(&mut self.files, choice);
        self.pending = false;
        self.calls.disarm();
        self.losses = self.losses.saturating_add(1);
        damage_all(
            &mut self.files,
            self.alloc,
            self.losses,
            self.damages.as_slice(),
        )?;
        Ok(())
    }

    /// Counts a call, and remembers the files as they stand.
    fn begin(&mut self) -> Result<(), DiskFault>
        ensures counted { Counted self.old self.new }
        ensures begins { Begins self.old self.new result }
    {
        if self.calls.next_fails() {
            return Err(DiskFault::Failed);
        }
        let was = Snapshot::of(&self.files);
        self.past.push(was)?;
        Ok(())
    }
}

impl Disk for MemDisk {
    ghost use Rattle.disk_model.specs.Memory.{disk_state, memory_sound};

    ghost state = { disk_state };

    ghost sound = { memory_sound };

    #[tactic(auto, using(crate::proofs::Moments::goes_on))]
    fn read(&mut self, file: u64, at: u64, into: &mut [u8]) -> Result<usize, DiskFault> {
        self.begin()?;
        match self.files.get(&file) {
            Some(held) => Ok(held.read(at as usize, into)),
            None => Ok(0),
        }
    }

    #[tactic(auto, using(crate::proofs::Moments::goes_on))]
    fn write_at(&mut self, file: u64, at: u64, bytes: &[u8]) -> Result<(), DiskFault> {
        self.begin()?;
        write_in(&mut self.files, self.alloc, file, at as usize, bytes)?;
        Ok(())
    }

    #[tactic(auto, using(crate::proofs::Moments::goes_on))]
    fn cut(&mut self, file: u64, size: u64) -> Result<(), DiskFault> {
        self.begin()?;
        cut_in(&mut self.files, self.alloc, file, size as usize)?;
        Ok(())
    }

    #[tactic(auto, using(crate::proofs::Moments::goes_on))]
    fn sync(&mut self, file: u64) -> Result<(), DiskFault> {
        self.begin()?;
        purge(&mut self.files, self.pending);
        self.pending = false;
        sync_in(&mut self.files, file);
        Ok(())
    }

    #[tactic(auto, using(crate::proofs::Moments::goes_on))]
    fn size(&mut self, file: u64) -> Result<u64, DiskFault> {
        self.begin()?;
        match self.files.get(&file) {
            Some(held) => Ok(held.size() as u64),
            None => Ok(0),
        }
    }

    #[tactic(auto, using(crate::proofs::Moments::goes_on))]
    fn remove(&mut self, file: u64) -> Result<(), DiskFault> {
        self.begin()?;
        self.pending = true;
        remove_in(&mut self.files, file);
        Ok(())
    }

    #[tactic(auto, using(crate::proofs::Moments::goes_on))]
    fn list(&mut self) -> Result<Vec<u64>, DiskFault> {
        self.begin()?;
        Ok(listed_in(&self.files, self.alloc)?)
    }

    fn faults(&self) -> u64 {
        self.calls.failed()
    }
}
