ghost use Rattle.std.specs.Prelude.{◌≡◌, ◌++◌, [], IfOk, OnOk};
ghost use Rattle.wire_types.specs.Held.{shown, all_shown, IsShown, AreShown};

use crate::append::{AppendHead, append_of};
use crate::envelope::Envelope;
use host_ids::{Entries, NoMemory};

/// An envelope that is held.
#[derive(Debug, Drop)]
pub(crate) enum Slot {
    /// The envelope as it is.
    Whole {
        envelope: Envelope,
    },
    /// An Append of a part of the run: `count` entries from the place `first` on.
    Part {
        head: AppendHead,
        first: usize,
        count: usize,
    },
}

/// The envelope of a slot, where the run has these entries. The only error is `NoMemory`.
fn settled(slot: Slot, entries: &Entries) -> Result<Envelope, NoMemory>
    requires within { IsShown entries.now slot }
    ensures { IfOk result (λ envelope. envelope ≡ shown entries.now slot) }
{
    match slot {
        Slot::Whole { envelope } => Ok(envelope),
        Slot::Part { head, first, count } => Ok(append_of(head, entries.part(first, count)?)),
    }
}

/// Moves the envelopes of the slots to the end, where the run has these entries. After `NoMemory`, the only
/// error, some of them may be lost.
pub(crate) fn settle(
    done: &mut Vec<Envelope>,
    slots: &mut Vec<Slot>,
    entries: &Entries,
) -> Result<(), NoMemory>
    requires within { AreShown entries.now slots.old.items }
    ensures done { OnOk result (done.new.items ≡ done.old.items ++ all_shown entries.now slots.old.items) }
    ensures none { slots.new.items ≡ [] }
{
    for slot in slots.drain(..) {
        done.push(settled(slot, entries)?)?;
    }
    Ok(())
}
