ghost use Rattle.std.specs.Prelude.{◌≡◌, ◌≢◌, ℕ, ◌≤◌, ◌==◌, if◌then◌else◌, Option, Some, None, IfSome, IsNone, OnErr, OnOk, IfErr, IfOk, IsOk};
ghost use Rattle.std.specs.Borrow.{sem};
ghost use Rattle.disk_model.specs.Plan.{one_more};

use crate::depot::Depot;
use crate::disk::Disk;
use crate::fault::DiskFault;
use crate::memory::MemDisk;
use std::alloc::Global;

/// Nine disks in memory, each of which tells its plan.
///
/// A disk of which no damage is listed is honest. Source: this project's own.
#[derive(Drop)]
pub struct MemDepot {
    one: Option<MemDisk>,
    two: Option<MemDisk>,
    three: Option<MemDisk>,
    four: Option<MemDisk>,
    five: Option<MemDisk>,
    six: Option<MemDisk>,
    seven: Option<MemDisk>,
    eight: Option<MemDisk>,
    nine: Option<MemDisk>,
    arms: [u64; 10],
    at_take: [u64; 10],
}

impl MemDepot {
    ghost use Rattle.std.specs.Prelude.{◌≡◌, ◌≢◌, ℕ, Some, None, IfOk, IfErr, OnOk, OnErr, IsOk, is_ok, if◌then◌else◌};
    ghost use Rattle.disk_model.specs.Plan.{Plan, empty_plan, failing_too, damaging_too};
    ghost use Rattle.disk_model.specs.declared.damage.Damage.{Damage};
    ghost use Rattle.disk_model.specs.declared.fault.DiskFault.TheVariants.{NoMemory};
    ghost use Rattle.disk_model.specs.Memory.{disk_state, plan_of};
    ghost use Rattle.disk_model.specs.Depot.{IsHost, AtHome, Replanned};
    ghost use Rattle.disk_model.specs.Shelf.{disk_at, arms_at, HasNew};

    /// Nine empty disks of which no call fails, each honest and at home. It takes no memory, and
    /// there is no error.
    pub fn new(alloc: Global) -> Result<MemDepot, DiskFault>
        ensures ok { IsOk result }
        ensures disks { IfOk result (λ depot. (host : ℕ) → IsHost host → HasNew (disk_at depot host)) }
        ensures arms { IfOk result (λ depot. (host : ℕ) → arms_at depot host ≡ 0) }
    {
        Ok(MemDepot {
            one: Some(MemDisk::new(alloc)),
            two: Some(MemDisk::new(alloc)),
            three: Some(MemDisk::new(alloc)),
            four: Some(MemDisk::new(alloc)),
            five: Some(MemDisk::new(alloc)),
            six: Some(MemDisk::new(alloc)),
            seven: Some(MemDisk::new(alloc)),
            eight: Some(MemDisk::new(alloc)),
            nine: Some(MemDisk::new(alloc)),
            arms: [0; 10],
            at_take: [0; 10],
        })
    }

    /// Lists a call of a host's disk that fails, counted from 1, where the disk is at home. The only
    /// error is `NoMemory`, which lists nothing.
    pub fn fail(&mut self, host: u8, call: u64) -> Result<(), DiskFault>
        requires { IsHost host }
        ensures listed { AtHome (disk_at self.old host) (disk_at self.new host) (λ d e. Replanned (λ p. if is_ok result then failing_too call p else p) (disk_state d) (disk_state e)) }
        ensures honest { AtHome (disk_at self.old host) (disk_at self.new host) (λ d e. (disk_state d).honest → (disk_state e).honest) }
        ensures none { disk_at self.old host ≡ None → disk_at self.new host ≡ None }
        ensures others { (h : ℕ) → h ≢ host → disk_at self.new h ≡ disk_at self.old h }
        ensures arms { (h : ℕ) → arms_at self.new h ≡ arms_at self.old h }
        ensures only { IfErr result (λ e. e ≡ NoMemory) }
    {
        match self.disk(host) {
            Some(disk) => disk.fail(call),
            None => Ok(()),
        }
    }

    /// Lists bytes that replace those of a file at a loss of power, counted from 1, where the host's
    /// disk is at home. A disk of which such damage is listed isn't honest. The only error is
    /// `NoMemory`, which lists nothing.
    pub fn damage(&mut self, host: u8, loss: u64, file: u64, bytes: &[u8]) -> Result<(), DiskFault>
        requires { IsHost host }
        ensures listed { AtHome (disk_at self.old host) (disk_at self.new host) (λ d e. OnOk result ((x : Damage) × (x.loss ≡ loss) × (x.file ≡ file) × (x.bytes.items ≡ bytes.now) × Replanned (damaging_too x) (disk_state d) (disk_state e))) }
        ensures err { AtHome (disk_at self.old host) (disk_at self.new host) (λ d e. OnErr result (Replanned (λ p. p) (disk_state d) (disk_state e))) }
        ensures none { disk_at self.old host ≡ None → disk_at self.new host ≡ None }
        ensures others { (h : ℕ) → h ≢ host → disk_at self.new h ≡ disk_at self.old h }
        ensures arms { (h : ℕ) → arms_at self.new h ≡ arms_at self.old h }
        ensures only { IfErr result (λ e. e ≡ NoMemory) }
    {
        match self.disk(host) {
            Some(disk) => disk.damage(loss, file, bytes),
            None => Ok(()),
        }
    }
}

impl Depot for MemDepot {
    ghost use Rattle.disk_model.specs.Shelf.{disk_at, arms_at, faults_at};
    ghost use Rattle.disk_model.specs.Depot.{IsHost, Placed, KeepsCounts, LendsDisk, Armed, Powered, AtHome};

    type D = MemDisk;

    ghost home = { disk_at };

    ghost arms = { arms_at };

    ghost faults_at_take = { faults_at };

    fn disk(&mut self, host: u8) -> Option<&mut MemDisk> {
        match host {
            1 => self.one.as_mut(),
            2 => self.two.as_mut(),
            3 => self.three.as_mut(),
            4 => self.four.as_mut(),
            5 => self.five.as_mut(),
            6 => self.six.as_mut(),
            7 => self.seven.as_mut(),
            8 => self.eight.as_mut(),
            9 => self.nine.as_mut(),
            _ => None,
        }
    }

    fn take(&mut self, host: u8) -> Option<MemDisk> {
        let taken = match host {
            1 => self.one.take(),
            2 => self.two.take(),
            3 => self.three.take(),
            4 => self.four.take(),
            5 => self.five.take(),
            6 => self.six.take(),
            7 => self.seven.take(),
            8 => self.eight.take(),
            9 => self.nine.take(),
            _ => None,
        };
        if let Some(disk) = &taken {
            self.at_take[host as usize] = disk.faults();
        }
        taken
    }

    fn give(&mut self, host: u8, disk: MemDisk) {
        match host {
            1 => self.one = Some(disk),
            2 => self.two = Some(disk),
            3 => self.three = Some(disk),
            4 => self.four = Some(disk),
            5 => self.five = Some(disk),
            6 => self.six = Some(disk),
            7 => self.seven = Some(disk),
            8 => self.eight = Some(disk),
            _ => self.nine = Some(disk),
        }
    }

    fn arm(&mut self, host: u8, calls: u64) {
        let place = host as usize;
        self.arms[place] = self.arms[place].saturating_add(1);
        if let Some(disk) = self.disk(host) {
            disk.arm(calls);
        }
    }

    fn power(&mut self, host: u8, choice: u8) -> Result<(), DiskFault> {
        match self.disk(host) {
            Some(disk) => disk.lose(choice),
            None => Ok(()),
        }
    }
}
