ghost use Rattle.std.specs.Prelude.{◌≡◌, ◌≢◌, ℕ, [], true, OnOk};
ghost use Rattle.disk_model.specs.Crash.{Image, SameBut};
ghost use Rattle.disk_model.specs.Calls.{HasCause};
ghost use Rattle.gate_files.specs.Gates.{IsAt, header};
ghost use Rattle.gate_files.specs.Moments.{LeavesOnly, OnlyOf};

use disk_model::{Disk, DiskFault};

/// The letters `NHLOG001`, with which a file begins, and a closed gate.
const BEGINNING: [u8; 9] = [0x4e, 0x48, 0x4c, 0x4f, 0x47, 0x30, 0x30, 0x31, 0];

/// Makes a file without records by two calls: it writes the header and a closed gate, and makes sure
/// of them.
///
/// The file reads as empty before: one whose making failed is cut to 0 first. `Failed` comes only
/// where the disk's count of faults rose.
pub fn make<D: Disk>(disk: &mut D, file: u64) -> Result<(), DiskFault>
    ensures made { (D.state disk.old).honest → (D.state disk.old).seen file ≡ [] → OnOk result (IsAt (D.state disk.new) file 8 []) }
    ensures any_moment { (D.state disk.old).honest → LeavesOnly (D.state disk.old) (D.state disk.new) (OnlyOf (D.state disk.old).may_leave file (λ bytes. Unit {0})) }
    ensures others { (D.state disk.old).tells → SameBut file (D.state disk.old).seen (D.state disk.new).seen }
    ensures listed { (D.state disk.old).tells → OnOk result ((D.state disk.new).listed file ≡ true) }
    ensures others_listed { (D.state disk.old).tells → (f : ℕ) → f ≢ file → (D.state disk.new).listed f ≡ (D.state disk.old).listed f }
    ensures tells { (D.state disk.old).tells → (D.state disk.new).tells }
    ensures honest { (D.state disk.old).honest → (D.state disk.new).honest }
    ensures cause { HasCause (D.state disk.old) (D.state disk.new) result }
{
    disk.write_at(file, 0, &BEGINNING)?;
    disk.sync(file)
}
