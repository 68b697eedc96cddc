ghost use Rattle.std.specs.Prelude.{◌≡◌, ◌+◌, ◌-◌, ◌==◌, ◌&&◌, ◌↔◌, [], IfOk, IsTrue, bytes_eq, length, nat_le, nat_lt, slice_get};
ghost use Rattle.std.specs.List.{list_any, list_all};
ghost use Rattle.std.specs.Option.{option_copied};
ghost use Rattle.object_model.specs.Sequence.{answer_at, ending_at};
ghost use Rattle.object_model.specs.Legal.{Legal};
ghost use Rattle.object_model.specs.Mark.{asked_context, ended_context, named_place, told_number, entries};
ghost use Rattle.object_model.specs.Decision.{accounted, answered_by, any_request, asked_within, asks_for, each_good, gives_ending, good, is_blank, is_close, is_closed, is_context, is_done, is_place, is_plain, is_register, is_registered, is_rejected, is_responded, is_session, is_within, legal, not_asked, not_ended, not_named, proposes, same_ending, same_proposal, stands_there};

use crate::mark::{Ending, Mark, Placed, What};
use crate::places::{answer_at, ending_at};
use host_ids::{NoMemory, Proposal, Text};
use std::alloc::Global;

fn is_blank(proposal: &Proposal) -> bool
    ensures { result ≡ is_blank proposal.now }
{
    match proposal {
        Proposal::Blank => true,
        Proposal::Plain { .. }
        | Proposal::Session { .. }
        | Proposal::Register { .. }
        | Proposal::Close { .. } => false,
    }
}

fn is_plain(text: &Text, proposal: &Proposal) -> bool
    ensures { result ≡ is_plain text.now proposal.now }
{
    match proposal {
        Proposal::Plain { command } => text.bytes() == command.bytes(),
        Proposal::Blank
        | Proposal::Session { .. }
        | Proposal::Register { .. }
        | Proposal::Close { .. } => false,
    }
}

fn is_session(c: u64, s: u64, r: u64, text: &Text, proposal: &Proposal) -> bool
    ensures { result ≡ is_session c s r text.now proposal.now }
{
    match proposal {
        Proposal::Session {
            client,
            series,
            responded,
            command,
        } => c == *client && s == *series && r == *responded && text.bytes() == command.bytes(),
        Proposal::Blank
        | Proposal::Plain { .. }
        | Proposal::Register { .. }
        | Proposal::Close { .. } => false,
    }
}

fn is_register(c: u64, proposal: &Proposal) -> bool
    ensures { result ≡ is_register c proposal.now }
{
    match proposal {
        Proposal::Register { client } => c == *client,
        Proposal::Blank
        | Proposal::Plain { .. }
        | Proposal::Session { .. }
        | Proposal::Close { .. } => false,
    }
}

fn is_close(c: u64, proposal: &Proposal) -> bool
    ensures { result ≡ is_close c proposal.now }
{
    match proposal {
        Proposal::Close { client } => c == *client,
        Proposal::Blank
        | Proposal::Plain { .. }
        | Proposal::Session { .. }
        | Proposal::Register { .. } => false,
    }
}

/// Whether two proposals have the same contents.
fn same_proposal(one: &Proposal, other: &Proposal) -> bool
    ensures { result ≡ same_proposal one.now other.now }
{
    match one {
        Proposal::Blank => is_blank(other),
        Proposal::Plain { command } => is_plain(command, other),
        Proposal::Session {
            client,
            series,
            responded,
            command,
        } => is_session(*client, *series, *responded, command, other),
        Proposal::Register { client } => is_register(*client, other),
        Proposal::Close { client } => is_close(*client, other),
    }
}

fn proposes(proposal: &Proposal, what: &What) -> bool
    ensures { result ≡ proposes proposal.now what.now }
{
    match what {
        What::Proposes { proposal: asked } => same_proposal(proposal, asked),
        What::Queries { .. } => false,
    }
}

fn is_done(text: &Text, ending: &Ending) -> bool
    ensures { result ≡ is_done text.now ending.now }
{
    match ending {
        Ending::Done { reply } => text.bytes() == reply.bytes(),
        Ending::Rejected | Ending::Responded | Ending::Registered | Ending::Closed => false,
    }
}

/// Whether two endings have the same contents.
fn same_ending(one: &Ending, other: &Ending) -> bool
    ensures { result ≡ same_ending one.now other.now }
{
    match one {
        Ending::Done { reply } => is_done(reply, other),
        Ending::Rejected => matches!(other, Ending::Rejected),
        Ending::Responded => matches!(other, Ending::Responded),
        Ending::Registered => matches!(other, Ending::Registered),
        Ending::Closed => matches!(other, Ending::Closed),
    }
}

/// Whether a mark asks under the context.
fn asks_under(context: &Text, mark: &Mark) -> bool
    ensures { result ≡ is_context context.now (asked_context mark.now) }
{
    match mark {
        Mark::Asks { context: other, .. } => context.bytes() == other.bytes(),
        Mark::Ends { .. }
        | Mark::Leaves { .. }
        | Mark::Reads { .. }
        | Mark::Stales { .. }
        | Mark::Tells { .. }
        | Mark::Shows { .. } => false,
    }
}

/// Whether a mark ends the request under the context.
fn ends_under(context: &Text, mark: &Mark) -> bool
    ensures { result ≡ is_context context.now (ended_context mark.now) }
{
    match mark {
        Mark::Ends { context: other, .. }
        | Mark::Leaves { context: other }
        | Mark::Reads { context: other, .. } => context.bytes() == other.bytes(),
        Mark::Asks { .. } | Mark::Stales { .. } | Mark::Tells { .. } | Mark::Shows { .. } => false,
    }
}

/// Whether a mark is an ending that names the place.
fn names(place: u64, mark: &Mark) -> bool
    ensures { result ≡ is_place place (named_place mark.now) }
{
    match mark {
        Mark::Ends { place: other, .. } => place == *other,
        Mark::Asks { .. }
        | Mark::Leaves { .. }
        | Mark::Reads { .. }
        | Mark::Stales { .. }
        | Mark::Tells { .. }
        | Mark::Shows { .. } => false,
    }
}

/// Whether a mark tells no number that is greater.
fn tells_within(most: u64, mark: &Mark) -> bool
    ensures { result ≡ is_within most (told_number mark.now) }
{
    match mark {
        Mark::Ends { place, .. } => *place <= most,
        Mark::Reads { front, .. } | Mark::Stales { front, .. } => *front <= most,
        Mark::Tells { number } => *number <= most,
        Mark::Asks { .. } | Mark::Leaves { .. } | Mark::Shows { .. } => true,
    }
}

fn not_asked(context: &Text, before: &[Mark]) -> bool
    ensures { result ≡ not_asked context.now before.now }
{
    before.iter().all(|mark| !asks_under(context, mark))
}

fn not_ended(context: &Text, before: &[Mark]) -> bool
    ensures { result ≡ not_ended context.now before.now }
{
    before.iter().all(|mark| !ends_under(context, mark))
}

fn not_named(place: u64, before: &[Mark]) -> bool
    ensures { result ≡ not_named place before.now }
{
    before.iter().all(|mark| !names(place, mark))
}

/// Whether a mark asks under the context for the proposal.
fn asks_proposal(context: &Text, proposal: &Proposal, mark: &Mark) -> bool
    ensures { result ≡ asks_for context.now (proposes proposal.now) mark.now }
{
    match mark {
        Mark::Asks {
            context: other,
            what,
        } => context.bytes() == other.bytes() && proposes(proposal, what),
        Mark::Ends { .. }
        | Mark::Leaves { .. }
        | Mark::Reads { .. }
        | Mark::Stales { .. }
        | Mark::Tells { .. }
        | Mark::Shows { .. } => false,
    }
}

/// Whether a mark asks under the context for anything.
fn asks_any(context: &Text, mark: &Mark) -> bool
    ensures { result ≡ asks_for context.now any_request mark.now }
{
    match mark {
        Mark::Asks { context: other, .. } => context.bytes() == other.bytes(),
        Mark::Ends { .. }
        | Mark::Leaves { .. }
        | Mark::Reads { .. }
        | Mark::Stales { .. }
        | Mark::Tells { .. }
        | Mark::Shows { .. } => false,
    }
}

fn was_asked(context: &Text, before: &[Mark]) -> bool
    ensures { result ≡ list_any (asks_for context.now any_request) before.now }
{
    before.iter().any(|mark| asks_any(context, mark))
}

/// Whether the proposal was asked under the context, and no greater number was told before that.
fn proposal_asked_within(context: &Text, proposal: &Proposal, most: u64, before: &[Mark]) -> bool
    ensures { result ≡ asked_within (asks_for context.now (proposes proposal.now)) most before.now }
{
    for mark in before {
        if asks_proposal(context, proposal, mark) {
            return true;
        }
        if !tells_within(most, mark) {
            return false;
        }
    }
    false
}

/// Whether a mark asks under the context for a query that this answers after the front.
fn asks_answered(
    alloc: Global,
    limit: u32,
    list: &[Placed],
    context: &Text,
    front: u64,
    answer: &Text,
    mark: &Mark,
) -> Result<bool, NoMemory>
    ensures { IfOk result (λ b. b ≡ asks_for context.now (answered_by limit list.now front answer.now) mark.now) }
{
    match mark {
        Mark::Asks {
            context: other,
            what: What::Queries { query },
        } => {
            let expected = answer_at(alloc, limit, list, front, query)?;
            Ok(context.bytes() == other.bytes() && answer.bytes() == expected.bytes())
        }
        Mark::Asks {
            what: What::Proposes { .. },
            ..
        }
        | Mark::Ends { .. }
        | Mark::Leaves { .. }
        | Mark::Reads { .. }
        | Mark::Stales { .. }
        | Mark::Tells { .. }
        | Mark::Shows { .. } => Ok(false),
    }
}

/// Whether such a query was asked, and no number greater than the front was told before that.
fn query_asked_within(
    alloc: Global,
    limit: u32,
    list: &[Placed],
    context: &Text,
    front: u64,
    answer: &Text,
    before: &[Mark],
) -> Result<bool, NoMemory>
    ensures { IfOk result (λ b. b ≡ asked_within (asks_for context.now (answered_by limit list.now front answer.now)) front before.now) }
{
    for mark in before {
        if asks_answered(alloc, limit, list, context, front, answer, mark)? {
            return Ok(true);
        }
        if !tells_within(front, mark) {
            return Ok(false);
        }
    }
    Ok(false)
}

/// Whether a place that holds this, or nothing, holds the context and what was asked under it
/// before any greater number was told.
fn stands_there(before: &[Mark], context: &Text, place: u64, held: Option<&Placed>) -> bool
    ensures { result ≡ stands_there before.now context.now place (option_copied held.entry) }
{
    match held {
        None => false,
        Some(held) => {
            if context.bytes() != held.context.bytes() {
                return false;
            }
            proposal_asked_within(context, &held.proposal, place.saturating_sub(1), before)
        }
    }
}

fn gives_ending(given: Option<&Ending>, ending: &Ending) -> bool
    ensures { result ≡ gives_ending (option_copied given.entry) ending.now }
{
    match given {
        None => false,
        Some(given) => same_ending(given, ending),
    }
}

fn held_at(list: &[Placed], place: u64) -> Option<&Placed>
    ensures { option_copied result ≡ slice_get list.now (place - 1) }
{
    list.get(place.saturating_sub(1) as usize)
}

fn good_ending(
    alloc: Global,
    limit: u32,
    list: &[Placed],
    before: &[Mark],
    context: &Text,
    place: u64,
    ending: &Ending,
) -> Result<bool, NoMemory>
    ensures { IfOk result (λ b. b ≡ (nat_lt 0 place && stands_there before.now context.now place (slice_get list.now (place - 1)) && not_ended context.now before.now && not_named place before.now && gives_ending (ending_at limit list.now place) ending.now)) }
{
    if place == 0 || !stands_there(before, context, place, held_at(list, place)) {
        return Ok(false);
    }
    if !not_ended(context, before) || !not_named(place, before) {
        return Ok(false);
    }
    let given = ending_at(alloc, limit, list, place)?;
    Ok(gives_ending(given.as_ref(), ending))
}

fn good_read(
    alloc: Global,
    limit: u32,
    list: &[Placed],
    before: &[Mark],
    context: &Text,
    front: u64,
    answer: &Text,
) -> Result<bool, NoMemory>
    ensures { IfOk result (λ b. b ≡ (nat_le front (length list.now) && asked_within (asks_for context.now (answered_by limit list.now front answer.now)) front before.now && not_ended context.now before.now)) }
{
    if front > list.len() as u64 {
        return Ok(false);
    }
    if !query_asked_within(alloc, limit, list, context, front, answer, before)? {
        return Ok(false);
    }
    Ok(not_ended(context, before))
}

fn good_stale(
    alloc: Global,
    limit: u32,
    list: &[Placed],
    front: u64,
    query: &Text,
    answer: &Text,
) -> Result<bool, NoMemory>
    ensures { IfOk result (λ b. b ≡ (nat_le front (length list.now) && bytes_eq answer.now (answer_at limit list.now front query.now))) }
{
    if front > list.len() as u64 {
        return Ok(false);
    }
    let expected = answer_at(alloc, limit, list, front, query)?;
    Ok(answer.bytes() == expected.bytes())
}

/// The number of entries that are shown.
fn count_shown(marks: &[Mark]) -> u64
    ensures { result ≡ length (entries marks.now) }
{
    let mut count = 0;
    for mark in marks {
        if let Mark::Shows { .. } = mark {
            count += 1;
        }
    }
    count
}

/// Whether an entry is numbered next after those shown before it.
fn is_next(place: u64, before: &[Mark]) -> bool
    ensures { result ≡ (place == length (entries before.now) + 1) }
{
    place > 0 && place - 1 == count_shown(before)
}

/// Whether a mark is good by the list and by the marks before it.
fn good(
    alloc: Global,
    limit: u32,
    list: &[Placed],
    before: &[Mark],
    mark: &Mark,
) -> Result<bool, NoMemory>
    ensures { IfOk result (λ b. b ≡ good limit list.now before.now mark.now) }
{
    match mark {
        Mark::Asks { context, .. } => Ok(not_asked(context, before)),
        Mark::Ends {
            context,
            place,
            ending,
        } => good_ending(alloc, limit, list, before, context, *place, ending),
        Mark::Leaves { context } => {
            let asked = was_asked(context, before);
            Ok(asked && not_ended(context, before))
        }
        Mark::Reads {
            context,
            front,
            answer,
        } => good_read(alloc, limit, list, before, context, *front, answer),
        Mark::Stales {
            front,
            query,
            answer,
        } => good_stale(alloc, limit, list, *front, query, answer),
        Mark::Tells { .. } => Ok(true),
        Mark::Shows { place, .. } => Ok(is_next(*place, before)),
    }
}

#[tactic(auto, unfolding(crate::specs::Decision::each_good))]
fn each_good(alloc: Global, limit: u32, list: &[Placed], marks: &[Mark]) -> Result<bool, NoMemory>
    ensures { IfOk result (λ b. b ≡ each_good limit list.now [] marks.now) }
{
    for (at, mark) in marks.iter().enumerate() {
        if !good(alloc, limit, list, &marks[..at], mark)? {
            return Ok(false);
        }
    }
    Ok(true)
}

fn asks_for_proposal(marks: &[Mark], placed: &Placed) -> bool
    ensures { result ≡ list_any (asks_for placed.now.context (proposes placed.now.proposal)) marks.now }
{
    marks.iter().any(|mark| asks_proposal(&placed.context, &placed.proposal, mark))
}

fn accounted(marks: &[Mark], placed: &Placed) -> bool
    ensures { result ≡ accounted marks.now placed.now }
{
    is_blank(&placed.proposal) || asks_for_proposal(marks, placed)
}

fn all_accounted(list: &[Placed], marks: &[Mark]) -> bool
    ensures { result ≡ list_all (accounted marks.now) list.now }
{
    list.iter().all(|placed| accounted(marks, placed))
}

fn decide(alloc: Global, limit: u32, list: &[Placed], marks: &[Mark]) -> Result<bool, NoMemory>
    ensures { IfOk result (λ b. b ≡ legal limit list.now marks.now) }
{
    if !each_good(alloc, limit, list, marks)? {
        return Ok(false);
    }
    Ok(all_accounted(list, marks))
}

/// Whether the marks of a group's output are legal by a list of proposals with their contexts,
/// under a limit of sessions.
///
/// Slow: it is the definition computed, for small outputs. The only error is `NoMemory`.
/// Source: this project's own.
pub fn is_legal(
    alloc: Global,
    limit: u32,
    list: &[Placed],
    marks: &[Mark],
) -> Result<bool, NoMemory>
    ensures { IfOk result (λ b. IsTrue b ↔ Legal limit list.now marks.now) }
{
    decide(alloc, limit, list, marks)
}

/// The entries that marks show, in order: the list by which a whole output is judged. The only
/// error is `NoMemory`. Source: this project's own.
pub fn entries(alloc: Global, marks: &[Mark]) -> Result<Vec<Placed>, NoMemory>
    ensures { IfOk result (λ list. list.items ≡ entries marks.now) }
{
    let mut list = Vec::new(alloc);
    for mark in marks {
        if let Mark::Shows { placed, .. } = mark {
            list.push(placed.copy()?)?;
        }
    }
    Ok(list)
}
