ghost use Rattle.std.specs.Prelude.{◌≡◌, ◌≢◌, ℕ, ◌+◌, ◌^◌, ◌<◌, List, [], ◌∷◌, ◌++◌, true, length, OnOk};
ghost use Rattle.disk_model.specs.Crash.{SameBut};
ghost use Rattle.disk_model.specs.Calls.{HasCause};
ghost use Rattle.gate_files.specs.Gates.{IsAt, OldOrNew, framed};
ghost use Rattle.gate_files.specs.Moments.{LeavesOnly, OnlyOf};

use disk_model::{Disk, DiskFault};

/// Saves a record after the gate at a place by four calls: it writes the record's length, the record
/// and a closed gate, makes sure of them, opens the gate, and makes sure of that.
///
/// Those first bytes are given whole, so that no memory is needed once the disk is touched. They
/// end below 2^64. At every moment a crash leaves the records of before or those with this one, and
/// of other files what it could have left before. `Failed` comes only where the disk's count of
/// faults rose.
pub fn save<D: Disk>(disk: &mut D, file: u64, gate: u64, bytes: &[u8]) -> Result<(), DiskFault>
    requires { gate + 1 + length bytes.now < 2 ^ 64 }
    ensures saved { (rs : List (List ℕ)) (r : List ℕ) → (D.state disk.old).honest → bytes.now ≡ framed r → IsAt (D.state disk.old) file gate rs → OnOk result (IsAt (D.state disk.new) file (gate + length bytes.now) (rs ++ r ∷ [])) }
    ensures any_moment { (rs : List (List ℕ)) (r : List ℕ) → (D.state disk.old).honest → bytes.now ≡ framed r → IsAt (D.state disk.old) file gate rs → LeavesOnly (D.state disk.old) (D.state disk.new) (OnlyOf (D.state disk.old).may_leave file (OldOrNew rs r)) }
    ensures others { (D.state disk.old).tells → SameBut file (D.state disk.old).seen (D.state disk.new).seen }
    ensures others_listed { (D.state disk.old).tells → (f : ℕ) → f ≢ file → (D.state disk.new).listed f ≡ (D.state disk.old).listed f }
    ensures tells { (D.state disk.old).tells → (D.state disk.new).tells }
    ensures honest { (D.state disk.old).honest → (D.state disk.new).honest }
    ensures cause { HasCause (D.state disk.old) (D.state disk.new) result }
{
    disk.write_at(file, gate + 1, bytes)?;
    disk.sync(file)?;
    disk.write_at(file, gate, &[1])?;
    disk.sync(file)
}
