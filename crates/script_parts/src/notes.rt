ghost use Rattle.std.specs.Prelude.{◌≡◌, ◌++◌, OnOk};
ghost use Rattle.std.specs.List.{flat_map};
ghost use Rattle.run_model.specs.Run.{drops, is_dropped, kind_of, note_told};

use crate::cell::tell;
use host_ids::NoMemory;
use raft_model::Note;
use script_text::{EnvelopeKind, Line, Tolds};
use std::alloc::Global;
use wire_types::Body;

/// Tells the line of a note, where it has one.
fn tell_note(alloc: Global, note: Note, out: &mut Tolds) -> Result<(), NoMemory>
    ensures { OnOk result (out.new ≡ out.old ++ note_told note) }
{
    match note {
        Note::Leader { host, term } => tell(
            alloc,
            Line::Leader {
                host,
                group: 1,
                term,
            },
            out,
        ),
        Note::Idle => tell(alloc, Line::Idle, out),
        Note::Pending { .. } | Note::Dropped { .. } | Note::Confirmed { .. } => Ok(()),
    }
}

/// Tells the lines of what an event of the core noted, in order: of each leader that was made, and that
/// the event was idle. The only error is `NoMemory`, after which no clause says what was told. Source:
/// this project's own.
pub fn tell_notes(alloc: Global, notes: &[Note], out: &mut Tolds) -> Result<(), NoMemory>
    ensures { OnOk result (out.new ≡ out.old ++ flat_map note_told notes.now) }
{
    for note in notes {
        tell_note(alloc, *note, out)?;
    }
    Ok(())
}

fn drops(note: &Note) -> bool
    ensures { result ≡ drops note.now }
{
    matches!(note, Note::Dropped { .. })
}

/// Whether the core can't take a request: an event noted that it was dropped. Source: this project's
/// own.
pub fn is_dropped(notes: &[Note]) -> bool
    ensures { result ≡ is_dropped notes.now }
{
    notes.iter().any(|note| drops(note))
}

/// What an envelope says, its kind without its fields. Source: this project's own.
pub fn kind_of(body: &Body) -> EnvelopeKind
    ensures { result ≡ kind_of body.now }
{
    match body {
        Body::Vote { .. } => EnvelopeKind::Vote,
        Body::VoteReply { .. } => EnvelopeKind::VoteReply,
        Body::Append { .. } => EnvelopeKind::Append,
        Body::AppendReply { .. } => EnvelopeKind::AppendReply,
        Body::Beat { .. } => EnvelopeKind::Beat,
        Body::BeatReply { .. } => EnvelopeKind::BeatReply,
        Body::SnapChunk { .. } => EnvelopeKind::SnapChunk,
        Body::SnapReply { .. } => EnvelopeKind::SnapReply,
        Body::Propose { .. } => EnvelopeKind::Propose,
        Body::ReadAsk { .. } => EnvelopeKind::ReadAsk,
        Body::ReadAnswer { .. } => EnvelopeKind::ReadAnswer,
    }
}
