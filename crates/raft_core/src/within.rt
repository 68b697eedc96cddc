ghost use Rattle.std.specs.Prelude.{◌≡◌, ◌↔◌, IsTrue};
ghost use Rattle.raft_model.specs.Fit.{is_fit, are_fit};
ghost use Rattle.raft_core.specs.Range.{BodyWithin, IsMail, IsWithin};

use host_ids::{Entry, Proposal};
use raft_model::{Input, State};
use wire_types::{Body, Envelope, are_fit_numbers};

/// The greatest term and index.
const MOST: u64 = 1 << 62;

/// Whether the numbers of a proposal are in their ranges.
fn has_fit_numbers(proposal: &Proposal) -> bool
    ensures { result ≡ is_fit proposal.now }
{
    match proposal {
        Proposal::Blank | Proposal::Plain { .. } => true,
        Proposal::Session {
            client,
            series,
            responded,
            ..
        } => are_fit_numbers(*client, *series, *responded),
        Proposal::Register { client } | Proposal::Close { client } => *client >= 1,
    }
}

/// Whether those of the proposals of all entries are.
fn have_fit_numbers(entries: &[Entry]) -> bool
    ensures { result ≡ are_fit entries.now }
{
    entries.iter().all(|entry| has_fit_numbers(&entry.proposal))
}

/// Whether the numbers of a body that a replica takes over are in their ranges.
fn is_body_within(body: &Body) -> bool
    ensures { IsTrue result ↔ BodyWithin body.now }
{
    match body {
        Body::Append { prev, entries, .. } => {
            let items = entries.items();
            *prev <= MOST && items.len() as u64 <= MOST - *prev && have_fit_numbers(items)
        }
        Body::AppendReply { index, .. } | Body::SnapReply { index, .. } => *index <= MOST,
        Body::SnapChunk {
            index,
            number,
            count,
            ..
        } => *index <= MOST && *number < u32::MAX && *count < u32::MAX,
        Body::Propose { proposal, .. } => has_fit_numbers(proposal),
        Body::Vote { .. }
        | Body::VoteReply { .. }
        | Body::Beat { .. }
        | Body::BeatReply { .. }
        | Body::ReadAsk { .. }
        | Body::ReadAnswer { .. } => true,
    }
}

/// Whether an envelope may be given to a replica.
fn is_mail(envelope: &Envelope) -> bool
    ensures { IsTrue result ↔ IsMail envelope.now }
{
    1 <= envelope.from
        && envelope.from <= 9
        && envelope.term <= MOST
        && is_body_within(&envelope.body)
}

/// Whether an input may be given to a replica.
pub(crate) fn is_input_within(r: &State, input: &Input) -> bool
    ensures { IsTrue result ↔ IsWithin r.now input.now }
{
    match input {
        Input::Timeout | Input::Beat | Input::Ask { .. } | Input::Compact { .. } => true,
        Input::Envelope { envelope } => is_mail(envelope),
        Input::Propose { proposal, .. } => has_fit_numbers(proposal),
        Input::Chunk { chunk, .. } => {
            chunk.term <= MOST
                && chunk.index <= MOST
                && chunk.number < u32::MAX
                && chunk.count < u32::MAX
        }
        Input::Installed { index, .. } => match &r.inbox {
            None => false,
            Some(inbox) => inbox.received.index == *index,
        },
    }
}
