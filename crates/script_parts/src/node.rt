ghost use Rattle.std.specs.Prelude.{◌≡◌, ◌++◌, ◌+◌, ◌<◌, ◌≤◌, ◌^◌, true, IfOk, OnOk, Some, length};
ghost use Rattle.raft_model.specs.Fit.{are_fit};
ghost use Rattle.run_model.specs.World.{new_node};
ghost use Rattle.run_model.specs.Run.{answers_due, applied, at_rest, fed, joined, listening, stale_answer};
ghost use Rattle.host_ids.specs.declared.proposal.TheConstants.{MOST_SESSIONS};

use crate::cell::{Cell, answer_all, apply_all, stale_answer};
use crate::contexts::Contexts;
use crate::requests::Requests;
use host_ids::{Entry, Key, NoMemory, Text};
use raft_model::Note;
use run_model::Want;
use script_text::{Line, Tolds};
use std::alloc::Global;
use std::marker::Model;

/// What a host keeps beside its replica of the group: the cell that entries are given to, and the
/// requests that were asked at it and are open. Clauses see it as the node of the rules.
///
/// The only error of its calls is `NoMemory`. Where a call that changes the node answers it, no clause
/// says what the node holds and what was told, and it can only be dropped. Source: this project's own.
#[derive(Drop)]
pub struct Node {
    cell: Cell,
    requests: Requests,
}

impl Model for Node {
    ghost use Rattle.run_model.specs.World.{Node as NodeValue};
    ghost use Rattle.script_parts.specs.Cell.{cell_of};

    ghost Value = { NodeValue };

    ghost view = { λ n. record { cell = cell_of n.cell; requests = n.requests } };
}

impl Node {
    /// A node that was given no entries and was asked nothing. At most `limit`, 1 to 4,096, sessions
    /// may stand in its cell. The only error is `NoMemory`.
    pub fn new(alloc: Global, limit: u32) -> Result<Node, NoMemory>
        requires { (1 ≤ limit) × (limit ≤ MOST_SESSIONS) }
        ensures { IfOk result (λ node. node ≡ new_node limit) }
    {
        Ok(Node {
            cell: Cell::new(alloc, limit)?,
            requests: Requests::new(alloc),
        })
    }

    /// How many entries its cell was given.
    pub fn applied(&self) -> u64
        ensures { result ≡ self.now.cell.applied }
    {
        self.cell.applied
    }

    /// The line of a query that is answered from what the cell was given, as that of this host. The only
    /// error is `NoMemory`.
    pub fn stale(&self, host: u8, query: Text) -> Result<Line, NoMemory>
        ensures { IfOk result (λ line. line ≡ stale_answer host query self.now.cell) }
    {
        stale_answer(&self.cell, host, query)
    }

    /// A request joins the open ones, in place of one with its key. The only error is `NoMemory`.
    pub fn join(&mut self, key: Key, want: Want) -> Result<(), NoMemory>
        ensures { OnOk result (self.new ≡ joined key want self.old) }
    {
        self.requests.join(key, want)
    }

    /// The reads that the notes of an event confirm wait for their indices, and those whose index is
    /// reached are answered, each under its context. The only error is `NoMemory`.
    pub fn hear(
        &mut self,
        contexts: &Contexts,
        notes: &[Note],
        out: &mut Tolds,
    ) -> Result<(), NoMemory>
        ensures node { OnOk result (self.new ≡ fed contexts.now (listening notes.now self.old) (at_rest (listening notes.now self.old))) }
        ensures told { OnOk result (out.new ≡ out.old ++ (answers_due contexts.now (listening notes.now self.old) (at_rest (listening notes.now self.old))).told) }
    {
        self.requests.take_notes(notes)?;
        let keys = self.requests.due(self.cell.applied)?;
        answer_all(contexts, &self.cell, &keys, &mut self.requests, out)
    }

    /// Gives entries to the cell, ends their requests, and answers the reads whose front is reached.
    /// The entries are the next ones, with their numbers in their ranges, and their count with those before
    /// fits 64 bits. The only error is `NoMemory`.
    pub fn apply(
        &mut self,
        contexts: &Contexts,
        entries: &[Entry],
        out: &mut Tolds,
    ) -> Result<(), NoMemory>
        requires room { self.old.cell.applied + length entries.now < 2 ^ 64 }
        requires fit { are_fit entries.now ≡ true }
        ensures node { OnOk result (self.new ≡ fed contexts.now self.old (applied contexts.now entries.now self.old.cell self.old.requests.wants)) }
        ensures told { OnOk result (out.new ≡ out.old ++ ((applied contexts.now entries.now self.old.cell self.old.requests.wants).told ++ (answers_due contexts.now self.old (applied contexts.now entries.now self.old.cell self.old.requests.wants)).told)) }
    {
        apply_all(contexts, entries, &mut self.cell, &mut self.requests, out)?;
        let keys = self.requests.due(self.cell.applied)?;
        answer_all(contexts, &self.cell, &keys, &mut self.requests, out)
    }
}
