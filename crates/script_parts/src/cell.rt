ghost use Rattle.std.specs.Prelude.{◌≡◌, ◌++◌, ◌+◌, ◌<◌, ◌≤◌, ◌^◌, [], ◌∷◌, true, IfOk, OnOk, length};
ghost use Rattle.run_model.specs.Run.{answer_line, answer_told, answered, applied, applied_by, bare, ended, ending_of, given, shows, stale_answer, want_of, without};
ghost use Rattle.script_parts.specs.Cell.{cell_of};
ghost use Rattle.raft_model.specs.Fit.{are_fit, is_fit};
ghost use Rattle.wire_types.specs.Grammar.{are_fit_numbers};
ghost use Rattle.host_ids.specs.declared.proposal.TheConstants.{MOST_SESSIONS};

use crate::contexts::Contexts;
use crate::requests::Requests;
use host_ids::{Entry, Key, NoMemory, Proposal, Text, Verdict};
use kv_object::Kv;
use object_model::Ending;
use run_model::Want;
use script_text::{Line, Told, Tolds};
use session_lru::SessionTable;
use std::alloc::Global;

/// The sessions and the object, and how many entries they were given.
#[derive(Drop)]
pub struct Cell {
    pub applied: u64,
    pub sessions: SessionTable,
    pub machine: Kv,
}

impl Cell {
    ghost use Rattle.run_model.specs.World.{new_cell};

    /// A cell without sessions and keys, in which at most `limit`, 1 to 4,096, sessions may stand.
    pub fn new(alloc: Global, limit: u32) -> Result<Cell, NoMemory>
        requires { (1 ≤ limit) × (limit ≤ MOST_SESSIONS) }
        ensures { IfOk result (λ cell. cell_of cell ≡ new_cell limit) }
    {
        Ok(Cell {
            applied: 0,
            sessions: SessionTable::new(alloc, limit)?,
            machine: Kv::empty(alloc),
        })
    }
}

/// Adds a line that shows no context to the lines that are told. The only error is `NoMemory`, after
/// which no clause says what was told. Source: this project's own.
pub fn tell(alloc: Global, line: Line, out: &mut Tolds) -> Result<(), NoMemory>
    ensures { OnOk result (out.new ≡ out.old ++ bare line ∷ []) }
{
    let context = Text::new(alloc, b"-")?;
    out.push(Told { context, line })
}

/// Tells a line that shows the context of its request.
pub fn tell_of(contexts: &Contexts, key: Key, line: Line, out: &mut Tolds) -> Result<(), NoMemory>
    ensures { OnOk result (out.new ≡ out.old ++ shows contexts.now key line ∷ []) }
{
    let context = contexts.at(key)?;
    out.push(Told { context, line })
}

/// Ends the request of an entry, where it is open.
fn end_request(
    contexts: &Contexts,
    key: Key,
    place: u64,
    ending: Ending,
    requests: &mut Requests,
    out: &mut Tolds,
) -> Result<(), NoMemory>
    ensures requests { OnOk result (requests.new ≡ record requests.old { wants = without key requests.old.wants }) }
    ensures told { OnOk result (out.new ≡ out.old ++ ended (want_of key requests.old.wants) contexts.now key (Line.Ended key 1 place ending)) }
{
    match requests.leave(key) {
        None => Ok(()),
        Some(_) => {
            let line = Line::Ended {
                key,
                group: 1,
                place,
                ending,
            };
            tell_of(contexts, key, line, out)
        }
    }
}

/// Gives a command of a client to the sessions, and to the object where it acts. Answers how its
/// request ends.
fn command(
    cell: &mut Cell,
    client: u64,
    series: u64,
    responded: u64,
    command: &Text,
) -> Result<Option<Ending>, NoMemory>
    requires { are_fit_numbers client series responded ≡ true }
    ensures cell { OnOk result (cell_of cell.new ≡ record (given (Proposal.Session client series responded command.now) (cell_of cell.old)) { applied = cell.old.applied }) }
    ensures ending { IfOk result (λ ending. ending ≡ ending_of (Proposal.Session client series responded command.now) (cell_of cell.old)) }
{
    match cell.sessions.admit(client, series, responded)? {
        Verdict::Acts => {
            let reply = cell.machine.update(command)?;
            cell.sessions.keep(client, series, reply.copy()?)?;
            Ok(Some(Ending::Done { reply }))
        }
        Verdict::RepeatOf { reply } => Ok(Some(Ending::Done { reply })),
        Verdict::Responded => Ok(Some(Ending::Responded)),
        Verdict::NotStanding | Verdict::Taken => Ok(Some(Ending::Rejected)),
        Verdict::Nothing => Ok(None),
    }
}

/// Gives a proposal to the sessions and the object. Answers how its request ends.
fn judge(proposal: &Proposal, cell: &mut Cell) -> Result<Option<Ending>, NoMemory>
    requires { is_fit proposal.now ≡ true }
    ensures cell { OnOk result (cell_of cell.new ≡ record (given proposal.now (cell_of cell.old)) { applied = cell.old.applied }) }
    ensures ending { IfOk result (λ ending. ending ≡ ending_of proposal.now (cell_of cell.old)) }
{
    match proposal {
        Proposal::Blank => Ok(None),
        Proposal::Plain { command } => Ok(Some(Ending::Done {
            reply: cell.machine.update(command)?,
        })),
        Proposal::Session {
            client,
            series,
            responded,
            command: text,
        } => command(cell, *client, *series, *responded, text),
        Proposal::Register { client } => match cell.sessions.register(*client)? {
            Verdict::Acts => Ok(Some(Ending::Registered)),
            _ => Ok(Some(Ending::Rejected)),
        },
        Proposal::Close { client } => match cell.sessions.close(*client) {
            Verdict::Acts => Ok(Some(Ending::Closed)),
            _ => Ok(Some(Ending::Rejected)),
        },
    }
}

/// Gives an entry to the sessions and the object, and ends its request.
fn apply_one(
    contexts: &Contexts,
    entry: &Entry,
    cell: &mut Cell,
    requests: &mut Requests,
    out: &mut Tolds,
) -> Result<(), NoMemory>
    requires room { cell.old.applied + 1 < 2 ^ 64 }
    requires fit { is_fit entry.now.proposal ≡ true }
    ensures cell { OnOk result (cell_of cell.new ≡ (applied_by contexts.now entry.now.proposal entry.now.key (cell_of cell.old) requests.old.wants).cell) }
    ensures requests { OnOk result (requests.new ≡ record requests.old { wants = (applied_by contexts.now entry.now.proposal entry.now.key (cell_of cell.old) requests.old.wants).wants }) }
    ensures told { OnOk result (out.new ≡ out.old ++ (applied_by contexts.now entry.now.proposal entry.now.key (cell_of cell.old) requests.old.wants).told) }
{
    let ending = judge(&entry.proposal, cell)?;
    cell.applied += 1;
    match ending {
        None => Ok(()),
        Some(ending) => end_request(contexts, entry.key, cell.applied, ending, requests, out),
    }
}

/// Gives entries to the sessions and the object, in order.
#[tactic(auto, unfolding(run_model::specs::Run::applied))]
pub fn apply_all(
    contexts: &Contexts,
    entries: &[Entry],
    cell: &mut Cell,
    requests: &mut Requests,
    out: &mut Tolds,
) -> Result<(), NoMemory>
    requires room { cell.old.applied + length entries.now < 2 ^ 64 }
    requires fit { are_fit entries.now ≡ true }
    ensures cell { OnOk result (cell_of cell.new ≡ (applied contexts.now entries.now (cell_of cell.old) requests.old.wants).cell) }
    ensures requests { OnOk result (requests.new ≡ record requests.old { wants = (applied contexts.now entries.now (cell_of cell.old) requests.old.wants).wants }) }
    ensures told { OnOk result (out.new ≡ out.old ++ (applied contexts.now entries.now (cell_of cell.old) requests.old.wants).told) }
{
    for entry in entries {
        apply_one(contexts, entry, cell, requests, out)?;
    }
    Ok(())
}

/// The line of a read that is answered now.
fn answer_line(cell: &Cell, key: Key, query: &Text) -> Result<Line, NoMemory>
    ensures { IfOk result (λ line. line ≡ answer_line (cell_of cell.now) key query.now) }
{
    Ok(Line::Read {
        key,
        group: 1,
        front: cell.applied,
        answer: cell.machine.lookup(query)?,
    })
}

/// The line of a query that is answered from what the cell of this host was given.
pub fn stale_answer(cell: &Cell, host: u8, query: Text) -> Result<Line, NoMemory>
    ensures { IfOk result (λ line. line ≡ stale_answer host query (cell_of cell.now)) }
{
    let answer = cell.machine.lookup(&query)?;
    Ok(Line::Stale {
        host,
        group: 1,
        front: cell.applied,
        query,
        answer,
    })
}

/// Answers a read, where it is open.
fn answer_one(
    contexts: &Contexts,
    cell: &Cell,
    key: &Key,
    requests: &mut Requests,
    out: &mut Tolds,
) -> Result<(), NoMemory>
    ensures requests { OnOk result (requests.new ≡ record requests.old { wants = without key.now requests.old.wants }) }
    ensures told { OnOk result (out.new ≡ out.old ++ answer_told contexts.now (cell_of cell.now) key.now (want_of key.now requests.old.wants)) }
{
    match requests.leave(*key) {
        None | Some(Want::Proposal) => Ok(()),
        Some(Want::Read { query, .. }) => {
            let line = answer_line(cell, *key, &query)?;
            tell_of(contexts, *key, line, out)
        }
    }
}

/// Answers reads, in order.
#[tactic(auto, unfolding(run_model::specs::Run::answered))]
pub fn answer_all(
    contexts: &Contexts,
    cell: &Cell,
    keys: &[Key],
    requests: &mut Requests,
    out: &mut Tolds,
) -> Result<(), NoMemory>
    ensures requests { OnOk result (requests.new ≡ record requests.old { wants = (answered contexts.now (cell_of cell.now) keys.now requests.old.wants).wants }) }
    ensures told { OnOk result (out.new ≡ out.old ++ (answered contexts.now (cell_of cell.now) keys.now requests.old.wants).told) }
{
    for key in keys {
        answer_one(contexts, cell, key, requests, out)?;
    }
    Ok(())
}
