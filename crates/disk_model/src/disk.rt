ghost use Rattle.std.specs.Prelude.{◌≡◌, ℕ, ◌+◌, ◌-◌, ◌^◌, ◌<◌, ◌≤◌, Bool, true, false, List, [], length, nat_eq, IfOk, OnOk, OnErr};
ghost use Rattle.std.specs.List.{list_any};
ghost use Rattle.std.specs.Ordering.{nat_cmp};
ghost use Rattle.std.specs.List.Sorted.{IsStrictlySortedBy};
ghost use Rattle.disk_model.specs.Bytes.{written, cut_to};
ghost use Rattle.disk_model.specs.Crash.{Torn, Cut, Gone};
ghost use Rattle.disk_model.specs.Files.{change, change_listed, each, wrote, resized, removed, forgotten, synced};
ghost use Rattle.disk_model.specs.Plan.{Plan, with_files};
ghost use Rattle.disk_model.specs.State.{DiskState, IsDisk};
ghost use Rattle.disk_model.specs.Calls.{HasCause, GoesOn, Keeps, Alters, Has, IsSure, Reads, Planned};

use crate::fault::DiskFault;

/// Files by number, each a list of bytes, on a device that may fail and may lose power at any
/// moment.
///
/// A file that isn't listed reads as empty and has size 0. A disk may tell what a read gives;
/// clauses on bytes hold where it does. An honest disk also keeps what is said here of crashes:
///
/// - Until a sync of the file, a crash may leave any bytes in each range that was written, any
///   bytes past the end of what the last sync left, and a cut done or undone. All other bytes
///   stay.
/// - After a sync that answered Ok a crash leaves of the file what a read gives.
/// - A removed file may come back until the next sync of any file of the disk.
///
/// `Failed` comes only where the disk's count of faults rose in the call. After `NoMemory` all
/// stands as after `Failed`. Source: this project's own.
pub trait Disk {
    /// What the disk means.
    ghost state: { Self → DiskState };

    /// Reads from a place on, as far as the file and `into` reach, and says how many bytes. The
    /// rest of `into` stays.
    ///
    /// The place and the length of `into` have a sum of at most 2^64-1.
    fn read(&mut self, file: u64, at: u64, into: &mut [u8]) -> Result<usize, DiskFault>
        requires { at + length into.old < 2 ^ 64 }
        ensures bytes { (state self.old).tells → IfOk result (λ n. Reads ((state self.old).seen file) at n into.old into.new) }
        ensures keeps { Keeps (state self.old) (state self.new) }
        ensures goes_on { GoesOn (state self.old) (state self.new) }
        ensures cause { HasCause (state self.old) (state self.new) result }
        ensures plan { Planned (state self.old) (state self.new) (λ p. p) result };

    /// Writes bytes at a place of a file, and makes a file that isn't listed. A gap between the
    /// file's end and the place is filled with zeros.
    ///
    /// The place and the number of bytes have a sum of at most 2^64-1. After an error the range
    /// may hold any bytes, and so may the file past its old end.
    fn write_at(&mut self, file: u64, at: u64, bytes: &[u8]) -> Result<(), DiskFault>
        requires { at + length bytes.now < 2 ^ 64 }
        ensures written { (state self.old).tells → OnOk result (Has file (written at bytes.now ((state self.old).seen file)) true (state self.new)) }
        ensures alters { Alters file (Torn at (length bytes.now)) (state self.old) (state self.new) }
        ensures goes_on { GoesOn (state self.old) (state self.new) }
        ensures cause { HasCause (state self.old) (state self.new) result }
        ensures plan { Planned (state self.old) (state self.new) (with_files (change file (wrote at bytes.now))) result };

    /// Makes a file as long as `size`, and makes a file that isn't listed. What is past that size
    /// goes, and zeros fill what is missing.
    ///
    /// After an error the cut may be done or not.
    fn cut(&mut self, file: u64, size: u64) -> Result<(), DiskFault>
        ensures cut { (state self.old).tells → OnOk result (Has file (cut_to size ((state self.old).seen file)) true (state self.new)) }
        ensures alters { Alters file (Cut size) (state self.old) (state self.new) }
        ensures goes_on { GoesOn (state self.old) (state self.new) }
        ensures cause { HasCause (state self.old) (state self.new) result }
        ensures plan { Planned (state self.old) (state self.new) (with_files (change file (resized size))) result };

    /// Makes sure of a file: after Ok a crash leaves of it what a read gives, and no removed file
    /// of the disk comes back. A file that isn't listed isn't made.
    fn sync(&mut self, file: u64) -> Result<(), DiskFault>
        ensures sure { (state self.old).honest → OnOk result (IsSure file (state self.new)) }
        ensures keeps { Keeps (state self.old) (state self.new) }
        ensures goes_on { GoesOn (state self.old) (state self.new) }
        ensures cause { HasCause (state self.old) (state self.new) result }
        ensures plan { Planned (state self.old) (state self.new) (with_files (λ files. change_listed file synced (each forgotten files))) result };

    /// How many bytes a file has.
    fn size(&mut self, file: u64) -> Result<u64, DiskFault>
        ensures size { (state self.old).tells → IfOk result (λ n. n ≡ length ((state self.old).seen file)) }
        ensures keeps { Keeps (state self.old) (state self.new) }
        ensures goes_on { GoesOn (state self.old) (state self.new) }
        ensures cause { HasCause (state self.old) (state self.new) result }
        ensures plan { Planned (state self.old) (state self.new) (λ p. p) result };

    /// Removes a file from the list, with its bytes. A file that isn't listed changes nothing.
    ///
    /// After an error the file may be there or not.
    fn remove(&mut self, file: u64) -> Result<(), DiskFault>
        ensures removed { (state self.old).tells → OnOk result (Has file [] false (state self.new)) }
        ensures alters { Alters file Gone (state self.old) (state self.new) }
        ensures goes_on { GoesOn (state self.old) (state self.new) }
        ensures cause { HasCause (state self.old) (state self.new) result }
        ensures plan { Planned (state self.old) (state self.new) (with_files (change_listed file removed)) result };

    /// The numbers of the listed files, in ascending order.
    fn list(&mut self) -> Result<Vec<u64>, DiskFault>
        ensures ascending { IfOk result (λ numbers. IsStrictlySortedBy nat_cmp numbers.items) }
        ensures listed { (state self.old).tells → IfOk result (λ numbers. (f : ℕ) → list_any (nat_eq f) numbers.items ≡ (state self.old).listed f) }
        ensures keeps { Keeps (state self.old) (state self.new) }
        ensures goes_on { GoesOn (state self.old) (state self.new) }
        ensures cause { HasCause (state self.old) (state self.new) result }
        ensures plan { Planned (state self.old) (state self.new) (λ p. p) result };

    /// How often the disk has failed since it was made, from 0 to 2^64-1, where it stays.
    fn faults(&self) -> u64
        ensures { result ≡ (state self.now).faults };

    /// What holds of every disk.
    ghost sound: { (d : Self) → IsDisk (state d) };
}
