ghost use Rattle.std.specs.Prelude.{◌≡◌, IfOk, take, reverse};
ghost use Rattle.object_model.specs.Sequence.{answer_after, answer_at, ending_at, proposals_of, reply_at, standing, verdict_at};

use crate::course::Course;
use crate::mark::{Ending, Placed};
use host_ids::{NoMemory, Proposal, Text, Verdict};
use std::alloc::Global;

/// The first of a list, or all where there are fewer.
fn first<T>(list: &[T], count: usize) -> &[T]
    ensures { result.now ≡ take count list.now }
{
    if count <= list.len() {
        return &list[..count];
    }
    list
}

/// The course of a list of proposals.
fn follow(alloc: Global, limit: u32, list: &[Proposal]) -> Result<Course, NoMemory>
    ensures limit { IfOk result (λ course. course.limit ≡ limit) }
    ensures history { IfOk result (λ course. course.history ≡ reverse list.now) }
{
    let mut course = Course::new(alloc, u64::from(limit));
    for proposal in list {
        course = course.then(proposal.copy()?)?;
    }
    Ok(course)
}

/// The course of the proposals at these places.
fn follow_places(alloc: Global, limit: u32, list: &[Placed]) -> Result<Course, NoMemory>
    ensures limit { IfOk result (λ course. course.limit ≡ limit) }
    ensures history { IfOk result (λ course. course.history ≡ reverse (proposals_of list.now)) }
{
    let mut course = Course::new(alloc, u64::from(limit));
    for placed in list {
        course = course.then(placed.proposal.copy()?)?;
    }
    Ok(course)
}

/// The clients whose session stands after a list of proposals under a limit of sessions, the one
/// touched longest ago first.
///
/// Slow: it is the definition computed, for small lists. The only error is `NoMemory`. Source:
/// dissertation section 6.3; the order of eviction is this project's own.
pub fn standing_after(alloc: Global, limit: u32, list: &[Proposal]) -> Result<Vec<u64>, NoMemory>
    ensures { IfOk result (λ clients. clients.items ≡ standing limit (reverse list.now)) }
{
    let course = follow(alloc, limit, list)?;
    let clients = Vec::from_slice(alloc, course.clients())?;
    Ok(clients)
}

/// The verdict of the proposal at a place of a list, counted from 1, after those before it. `None`
/// exactly where the list has no such place.
///
/// Slow: it is the definition computed, for small lists. The only error is `NoMemory`. Source:
/// dissertation section 6.3.
pub fn verdict_at(
    alloc: Global,
    limit: u32,
    list: &[Proposal],
    place: usize,
) -> Result<Option<Verdict>, NoMemory>
    ensures { IfOk result (λ verdict. verdict ≡ verdict_at limit list.now place) }
{
    if place == 0 {
        return Ok(None);
    }
    match list.get(place - 1) {
        None => Ok(None),
        Some(proposal) => {
            let course = follow(alloc, limit, first(list, place - 1))?;
            Ok(Some(course.verdict(proposal)?))
        }
    }
}

/// The reply of the command at a place of a list, counted from 1: the object's own where the
/// command acts, the first one where it repeats. `None` exactly where the list has no such place
/// or there is no reply there.
///
/// Slow: it is the definition computed, for small lists. The only error is `NoMemory`. Source:
/// dissertation section 6.3.
pub fn reply_at(
    alloc: Global,
    limit: u32,
    list: &[Proposal],
    place: usize,
) -> Result<Option<Text>, NoMemory>
    ensures { IfOk result (λ reply. reply ≡ reply_at limit list.now place) }
{
    if place == 0 {
        return Ok(None);
    }
    match list.get(place - 1) {
        None => Ok(None),
        Some(proposal) => follow(alloc, limit, first(list, place - 1))?.reply(proposal),
    }
}

/// What a query answers after the first `front` places of a list, or after all where there are
/// fewer.
///
/// Slow: it is the definition computed, for small lists. The only error is `NoMemory`. Source:
/// this project's own.
pub fn answer_after(
    alloc: Global,
    limit: u32,
    list: &[Proposal],
    front: usize,
    query: &Text,
) -> Result<Text, NoMemory>
    ensures { IfOk result (λ answer. answer ≡ answer_after limit list.now front query.now) }
{
    follow(alloc, limit, first(list, front))?.lookup(query)
}

/// How the request at a place of a list ends, counted from 1, if there is one that ends there.
pub fn ending_at(
    alloc: Global,
    limit: u32,
    list: &[Placed],
    place: u64,
) -> Result<Option<Ending>, NoMemory>
    ensures { IfOk result (λ ending. ending ≡ ending_at limit list.now place) }
{
    let beyond = place.saturating_sub(1) as usize;
    match list.get(beyond) {
        None => Ok(None),
        Some(placed) => {
            follow_places(alloc, limit, first(list, beyond))?.ending(&placed.proposal)
        }
    }
}

/// What a query answers after the first places of a list.
pub fn answer_at(
    alloc: Global,
    limit: u32,
    list: &[Placed],
    front: u64,
    query: &Text,
) -> Result<Text, NoMemory>
    ensures { IfOk result (λ answer. answer ≡ answer_at limit list.now front query.now) }
{
    follow_places(alloc, limit, first(list, front as usize))?.lookup(query)
}
