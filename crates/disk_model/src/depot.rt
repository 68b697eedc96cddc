ghost use Rattle.std.specs.Prelude.{◌≡◌, ◌≢◌, ℕ, ◌≤◌, ◌==◌, if◌then◌else◌, Option, Some, None, IfSome, IsNone};
ghost use Rattle.std.specs.Borrow.{sem};
ghost use Rattle.disk_model.specs.Plan.{one_more};
ghost use Rattle.disk_model.specs.Depot.{IsHost, Placed, KeepsCounts, LendsDisk, Armed, Powered, AtHome};

use crate::disk::Disk;
use crate::fault::DiskFault;

/// The disks of the hosts 1 to 9, which may lose power.
///
/// A disk is at home until it is taken. `arm` and `power` aren't calls of a disk, and change
/// nothing of one that is taken. Each call on one host leaves the others as they were. Source:
/// this project's own.
pub trait Depot {
    /// The kind of its disks.
    type D: Disk + Drop + Send;

    /// The disk of a host, or `None` where it is taken.
    ghost home: { Self → ℕ → Option Self.D };

    /// How often a host's disk was armed, from 0 to 2^64-1, where it stays.
    ghost arms: { Self → ℕ → ℕ };

    /// How often the disk of a host had failed when it was taken.
    ghost faults_at_take: { Self → ℕ → ℕ };

    /// Lends the disk of a host, or answers `None` exactly where it is taken.
    fn disk(&mut self, host: u8) -> Option<&mut Self::D>
        requires { IsHost host }
        ensures* lent { sem 𝓛 (LendsDisk Self.row Self.D.row home arms faults_at_take self.entry host result) }
        ensures value { IfSome result (λ d. home self.old host ≡ Some d.now) }
        ensures none { IsNone result → home self.old host ≡ None };

    /// Takes the disk of a host as it is, or answers `None` exactly where it is taken.
    fn take(&mut self, host: u8) -> Option<Self::D>
        requires { IsHost host }
        ensures is { result ≡ home self.old host }
        ensures placed { Placed home self.old host None self.new }
        ensures arms { KeepsCounts arms self.old self.new }
        ensures faults { IfSome result (λ d. faults_at_take self.new host ≡ (Self.D.state d).faults) }
        ensures kept { (h : ℕ) → h ≢ host → faults_at_take self.new h ≡ faults_at_take self.old h };

    /// Gives the disk of a host back as it is. It was taken, and its count of faults hasn't fallen
    /// since.
    fn give(&mut self, host: u8, disk: Self::D)
        requires host { IsHost host }
        requires taken { home self.old host ≡ None }
        requires faults { faults_at_take self.old host ≤ (Self.D.state disk).faults }
        ensures placed { Placed home self.old host (Some disk) self.new }
        ensures arms { KeepsCounts arms self.old self.new }
        ensures kept { KeepsCounts faults_at_take self.old self.new };

    /// Lets `calls` further calls of the host's disk through. Each call after them fails, until
    /// the next loss of its power. The disk's bytes and its count of faults stay.
    fn arm(&mut self, host: u8, calls: u64)
        requires { IsHost host }
        ensures armed { AtHome (home self.old host) (home self.new host) (λ d e. Armed calls (Self.D.state d) (Self.D.state e)) }
        ensures none { home self.old host ≡ None → home self.new host ≡ None }
        ensures others { (h : ℕ) → h ≢ host → home self.new h ≡ home self.old h }
        ensures arms { (h : ℕ) → arms self.new h ≡ (if h == host then one_more (arms self.old h) else arms self.old h) }
        ensures kept { KeepsCounts faults_at_take self.old self.new };

    /// The host's disk loses its power, and stands then, whatever the answer is, at something that
    /// a crash might have left.
    ///
    /// Where the plan is told, choice 0 leaves each file as its last sync left it, choice 1 what a
    /// read gives, and choice 2 that with 255 for each byte that was written since the last sync;
    /// then comes the listed damage of this loss. What `arm` did has ended.
    fn power(&mut self, host: u8, choice: u8) -> Result<(), DiskFault>
        requires host { IsHost host }
        requires choice { choice ≤ 2 }
        ensures powered { AtHome (home self.old host) (home self.new host) (λ d e. Powered choice result (Self.D.state d) (Self.D.state e)) }
        ensures none { home self.old host ≡ None → home self.new host ≡ None }
        ensures others { (h : ℕ) → h ≢ host → home self.new h ≡ home self.old h }
        ensures arms { KeepsCounts arms self.old self.new }
        ensures kept { KeepsCounts faults_at_take self.old self.new };
}
