ghost use Rattle.std.specs.Prelude.{◌≡◌, ◌++◌, [], ◌∷◌, IfOk, OnOk, decimal};
ghost use Rattle.script_text.specs.Print.{print_line, ending_text, kind_text, limit_text, line_text, proposal_text};

use crate::buffer::Buffer;
use crate::kind::EnvelopeKind;
use crate::limit::{Limit, MOST_ENTRIES, MOST_ENVELOPES, MOST_SCRIPT};
use crate::line::Line;
use host_ids::{NoMemory, Proposal, Text};
use object_model::Ending;
use std::alloc::Global;

/// Adds a space and a proposal.
fn print_proposal(out: &mut Buffer, proposal: &Proposal) -> Result<(), NoMemory>
    ensures { OnOk result (out.new ≡ out.old ++ (32 ∷ proposal_text proposal.now)) }
{
    match proposal {
        Proposal::Blank => out.word(b"blank"),
        Proposal::Plain { command } => out.payload(command.bytes()),
        Proposal::Session {
            client,
            series,
            responded,
            command,
        } => {
            out.word(b"call")?;
            out.number(*client)?;
            out.number(*series)?;
            out.number(*responded)?;
            out.payload(command.bytes())
        }
        Proposal::Register { client } => {
            out.word(b"register")?;
            out.number(*client)
        }
        Proposal::Close { client } => {
            out.word(b"close")?;
            out.number(*client)
        }
    }
}

/// Adds a word, and numbers after it.
fn print_numbers(out: &mut Buffer, verb: &[u8], first: u64, second: u64) -> Result<(), NoMemory>
    ensures { OnOk result (out.new ≡ ((out.old ++ verb.now) ++ (32 ∷ decimal first)) ++ (32 ∷ decimal second)) }
{
    out.text(verb)?;
    out.number(first)?;
    out.number(second)
}

/// Adds a word, a context and a number.
fn print_context(out: &mut Buffer, verb: &[u8], context: &Text, number: u64) -> Result<(), NoMemory>
    ensures { OnOk result (out.new ≡ ((out.old ++ verb.now) ++ (32 ∷ context.now)) ++ (32 ∷ decimal number)) }
{
    out.text(verb)?;
    out.word(context.bytes())?;
    out.number(number)
}

/// Adds the line of a request that ends at a place.
fn print_ending(
    out: &mut Buffer,
    context: &Text,
    place: u64,
    ending: &Ending,
) -> Result<(), NoMemory>
    ensures { OnOk result (out.new ≡ out.old ++ ending_text context.now place ending.now) }
{
    match ending {
        Ending::Done { reply } => {
            print_context(out, b"done", context, place)?;
            out.payload(reply.bytes())
        }
        Ending::Rejected => print_context(out, b"rejected", context, place),
        Ending::Responded => print_context(out, b"responded", context, place),
        Ending::Registered => print_context(out, b"registered", context, place),
        Ending::Closed => print_context(out, b"closed", context, place),
    }
}

/// Adds a text, a space and a number.
fn print_named(out: &mut Buffer, text: &[u8], number: u64) -> Result<(), NoMemory>
    ensures { OnOk result (out.new ≡ out.old ++ (text.now ++ (32 ∷ decimal number))) }
{
    out.text(text)?;
    out.number(number)
}

/// Adds the line of a limit that was reached.
fn print_limit(out: &mut Buffer, limit: Limit) -> Result<(), NoMemory>
    ensures { OnOk result (out.new ≡ out.old ++ limit_text limit) }
{
    match limit {
        Limit::Entries => print_named(out, b"limit entries", MOST_ENTRIES),
        Limit::Envelopes => print_named(out, b"limit envelopes", MOST_ENVELOPES),
        Limit::Script => print_named(out, b"limit script", MOST_SCRIPT),
    }
}

/// What an envelope says.
fn kind_text(kind: EnvelopeKind) -> &'static [u8]
    ensures { result.now ≡ kind_text kind }
{
    match kind {
        EnvelopeKind::Vote => b"vote",
        EnvelopeKind::VoteReply => b"votereply",
        EnvelopeKind::Append => b"append",
        EnvelopeKind::AppendReply => b"appendreply",
        EnvelopeKind::Beat => b"beat",
        EnvelopeKind::BeatReply => b"beatreply",
        EnvelopeKind::SnapChunk => b"snapchunk",
        EnvelopeKind::SnapReply => b"snapreply",
        EnvelopeKind::Propose => b"propose",
        EnvelopeKind::ReadAsk => b"readask",
        EnvelopeKind::ReadAnswer => b"readanswer",
    }
}

/// Adds a line without its line feed.
fn print_text(out: &mut Buffer, context: &Text, line: &Line) -> Result<(), NoMemory>
    ensures { OnOk result (out.new ≡ out.old ++ line_text context.now line.now) }
{
    match line {
        Line::Started { host, start } => {
            print_numbers(out, b"started", u64::from(*host), *start)
        }
        Line::Leader { host, group, term } => {
            print_numbers(out, b"leader", u64::from(*host), u64::from(*group))?;
            out.number(*term)
        }
        Line::Idle => out.text(b"idle"),
        Line::Refused { number } => {
            out.text(b"refused")?;
            out.number(u64::from(*number))
        }
        Line::Ask {
            group,
            proposal,
            ..
        } => {
            print_context(out, b"ask", context, u64::from(*group))?;
            print_proposal(out, proposal)
        }
        Line::AskRead { group, query, .. } => {
            print_context(out, b"ask", context, u64::from(*group))?;
            out.word(b"read")?;
            out.payload(query.bytes())
        }
        Line::Ended { place, ending, .. } => print_ending(out, context, *place, ending),
        Line::Read { front, answer, .. } => {
            print_context(out, b"read", context, *front)?;
            out.payload(answer.bytes())
        }
        Line::Stale {
            host,
            group,
            front,
            answer,
            ..
        } => {
            print_numbers(out, b"stale", u64::from(*host), u64::from(*group))?;
            out.number(*front)?;
            out.payload(answer.bytes())
        }
        Line::Dropped { .. } => {
            out.text(b"dropped")?;
            out.word(context.bytes())
        }
        Line::Wire {
            group,
            number,
            from,
            to,
            kind,
            term,
        } => {
            print_numbers(out, b"wire", u64::from(*group), *number)?;
            out.number(u64::from(*from))?;
            out.number(u64::from(*to))?;
            out.word(kind_text(*kind))?;
            out.number(*term)
        }
        Line::Entry { group, entry } => {
            print_numbers(out, b"entry", u64::from(*group), entry.index)?;
            out.word(context.bytes())?;
            print_proposal(out, &entry.proposal)
        }
        Line::Reached { limit } => print_limit(out, *limit),
        Line::Usage => out.text(b"usage"),
        Line::BadLine { line } => {
            out.text(b"badline")?;
            out.number(*line)
        }
        Line::End => out.text(b"end"),
    }
}

/// Adds a line of the output, with its line feed. The context is passed over where the line shows
/// none. The only error is `NoMemory`. Source: this project's own.
#[tactic(auto, unfolding(crate::specs::Print::print_line))]
pub fn push_line(out: &mut Buffer, context: &Text, line: &Line) -> Result<(), NoMemory>
    ensures { OnOk result (out.new ≡ out.old ++ print_line context.now line.now) }
{
    print_text(out, context, line)?;
    out.text(b"\n")
}

/// The bytes of a line of the output, with its line feed. The context is passed over where the line
/// shows none. The only error is `NoMemory`. Source: this project's own.
pub fn print_line(alloc: Global, line: &Line, context: &Text) -> Result<Vec<u8>, NoMemory>
    ensures { IfOk result (λ bytes. bytes.items ≡ print_line context.now line.now) }
{
    let mut out = Buffer::new(alloc);
    push_line(&mut out, context, line)?;
    Ok(out.into_vec())
}
