ghost use Rattle.std.specs.Prelude.{◌≡◌, IfOk};
ghost use Rattle.raft_core.specs.Notes.{led_notes, idle_notes, dropped_notes};

use crate::seat::Seat;
use host_ids::{Key, NoMemory};
use raft_model::Note;

/// The note of a replica that leads a term from now on, or none.
pub(crate) fn leader_note(seat: &Seat, term: u64, led: bool) -> Result<Vec<Note>, NoMemory>
    ensures { IfOk result (λ notes. notes.items ≡ led_notes seat.now term led) }
{
    let mut notes = Vec::new(seat.alloc());
    if led {
        notes.push(Note::Leader {
            host: seat.me(),
            term,
        })?;
    }
    Ok(notes)
}

/// The note that there was nothing to do, or none.
pub(crate) fn idle_note(seat: &Seat, idle: bool) -> Result<Vec<Note>, NoMemory>
    ensures { IfOk result (λ notes. notes.items ≡ idle_notes idle) }
{
    let mut notes = Vec::new(seat.alloc());
    if idle {
        notes.push(Note::Idle)?;
    }
    Ok(notes)
}

/// The note of a request that isn't taken, or none.
pub(crate) fn dropped_note(seat: &Seat, key: Key, dropped: bool) -> Result<Vec<Note>, NoMemory>
    ensures { IfOk result (λ notes. notes.items ≡ dropped_notes key dropped) }
{
    let mut notes = Vec::new(seat.alloc());
    if dropped {
        notes.push(Note::Dropped { key })?;
    }
    Ok(notes)
}
