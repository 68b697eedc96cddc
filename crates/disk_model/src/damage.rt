ghost use Rattle.std.specs.Prelude.{◌≡◌, ◌≢◌, [], true, nat_eq, OnOk, OnErr};
ghost use Rattle.disk_model.specs.Files.{change};
ghost use Rattle.disk_model.specs.Plain.{are_plain};
ghost use Rattle.disk_model.specs.Plan.{all_damaged, damaged, damaged_by, is_damaging};

use crate::file::MemFile;
use std::alloc::{AllocError, Global};
use std::collections::BTreeMap;

/// What a loss of power puts into a file, whatever stood in it.
#[derive(Drop)]
pub(crate) struct Damage {
    pub(crate) loss: u64,
    pub(crate) file: u64,
    pub(crate) bytes: Vec<u8>,
}

/// Puts bytes into a file, and makes one of which there is nothing. An error changes nothing.
#[tactic(auto, using(crate::proofs::Entries::set_same))]
fn damage_in(
    files: &mut BTreeMap<u64, MemFile>,
    alloc: Global,
    file: u64,
    bytes: &[u8],
) -> Result<(), AllocError>
    ensures ok { OnOk result (files.new.entries ≡ change file (damaged bytes.now) files.old.entries) }
    ensures err { OnErr result (files.new.entries ≡ files.old.entries) }
{
    let bytes = Vec::from_slice(alloc, bytes)?;
    match files.get_mut(&file) {
        Some(held) => held.put(bytes),
        None => {
            let mut held = MemFile::new(alloc);
            held.put(bytes);
            files.insert(file, held)?;
        }
    }
    Ok(())
}

/// Does one damage if it is of this loss of power. Memory can run out only where it is.
fn damage_one(
    files: &mut BTreeMap<u64, MemFile>,
    alloc: Global,
    loss: u64,
    damage: &Damage,
) -> Result<(), AllocError>
    requires { are_plain files.old.entries ≡ true }
    ensures ok { OnOk result (files.new.entries ≡ damaged_by loss damage.now files.old.entries) }
    ensures err { OnErr result (nat_eq loss damage.now.loss ≡ true) }
    ensures plain { are_plain files.new.entries ≡ true }
{
    if damage.loss == loss {
        damage_in(files, alloc, damage.file, damage.bytes.as_slice())?;
    }
    Ok(())
}

/// Does the damage that is listed for this loss of power. Memory can run out only where there is
/// some.
pub(crate) fn damage_all(
    files: &mut BTreeMap<u64, MemFile>,
    alloc: Global,
    loss: u64,
    damages: &[Damage],
) -> Result<(), AllocError>
    requires { are_plain files.old.entries ≡ true }
    ensures ok { OnOk result (files.new.entries ≡ all_damaged loss damages.now files.old.entries) }
    ensures err { OnErr result (is_damaging loss damages.now ≡ true) }
    ensures plain { are_plain files.new.entries ≡ true }
{
    for damage in damages {
        damage_one(files, alloc, loss, damage)?;
    }
    Ok(())
}
