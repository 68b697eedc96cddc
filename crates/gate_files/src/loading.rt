ghost use Rattle.std.specs.Prelude.{◌≡◌, IfOk, OnOk};
ghost use Rattle.disk_model.specs.Calls.{HasCause, IsSure, Keeps};
ghost use Rattle.gate_files.specs.Moments.{LeavesOnly};

use disk_model::{Disk, DiskFault};
use std::alloc::Global;

/// How many bytes of a file are read in one call.
const PIECE: usize = 65_536;

/// Makes sure of a file and reads all of it, in pieces of 65,536 bytes.
///
/// A disk that doesn't tell what a read gives may answer fewer bytes than it said, and then the rest
/// is left out. `Failed` comes only where the disk's count of faults rose.
pub fn load<D: Disk>(alloc: Global, disk: &mut D, file: u64) -> Result<Vec<u8>, DiskFault>
    ensures bytes { (D.state disk.old).tells → IfOk result (λ b. b.items ≡ (D.state disk.old).seen file) }
    ensures sure { (D.state disk.old).honest → OnOk result (IsSure file (D.state disk.new)) }
    ensures keeps { Keeps (D.state disk.old) (D.state disk.new) }
    ensures any_moment { (D.state disk.old).honest → LeavesOnly (D.state disk.old) (D.state disk.new) (D.state disk.old).may_leave }
    ensures tells { (D.state disk.old).tells → (D.state disk.new).tells }
    ensures honest { (D.state disk.old).honest → (D.state disk.new).honest }
    ensures cause { HasCause (D.state disk.old) (D.state disk.new) result }
{
    disk.sync(file)?;
    let size = disk.size(file)? as usize;
    let mut piece = Vec::new(alloc);
    piece.resize(PIECE.min(size), 0)?;
    let mut bytes = Vec::new(alloc);
    bytes.reserve(size)?;
    while bytes.len() < size {
        let read = disk
            .read(file, bytes.len() as u64, &mut piece)?
            .min(piece.len());
        if read == 0 {
            break;
        }
        bytes.extend_from_slice(&piece[..read])?;
    }
    Ok(bytes)
}
