ghost use Rattle.std.specs.Prelude.{◌≡◌, IfOk, IfSome};

use crate::run::{agree, place_after};
use host_ids::{Entries, Entry, NoMemory};

/// The most runs that are kept.
const MOST_KEPT: usize = 8;

/// A run that grows no more, of whose entries Appends have parts.
#[derive(Debug, Drop)]
pub(crate) struct Frozen {
    /// The index before the first of its entries.
    pub prev: u64,
    /// Its entries, which are shared.
    pub entries: Entries,
}

impl Frozen {
    /// These entries, which come after `prev`, as a part of the run, if it has them all.
    fn part_of(&self, prev: u64, entries: &[Entry]) -> Result<Option<Entries>, NoMemory>
        ensures { IfOk result (λ found. IfSome found (λ part. part ≡ entries.now)) }
    {
        let held = self.entries.items();
        let Some(first) = place_after(self.prev, held.len(), prev) else {
            return Ok(None);
        };
        if held.len() - first < entries.len() || !agree(&held[first..], entries) {
            return Ok(None);
        }
        Ok(Some(self.entries.part(first, entries.len())?))
    }
}

/// These entries, which come after `prev`, as a part of a run that is kept, if one has them all. That run
/// is the last one then. The runs that were used last are tried first.
pub(crate) fn reuse(
    kept: &mut Vec<Frozen>,
    prev: u64,
    entries: &[Entry],
) -> Result<Option<Entries>, NoMemory>
    ensures { IfOk result (λ found. IfSome found (λ part. part ≡ entries.now)) }
{
    for place in (0..kept.len()).rev() {
        if let Some(part) = kept[place].part_of(prev, entries)? {
            kept[place..].rotate_left(1);
            return Ok(Some(part));
        }
    }
    Ok(None)
}

/// Keeps one run more, as the last one, and drops the first one where there would be too many.
pub(crate) fn keep(kept: &mut Vec<Frozen>, run: Frozen) -> Result<(), NoMemory> {
    if kept.len() >= MOST_KEPT {
        kept.remove(0);
    }
    kept.push(run)?;
    Ok(())
}
