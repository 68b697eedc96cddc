ghost use Rattle.std.specs.Prelude.{◌≡◌, ◌≤◌, ◌<◌, ◌++◌, ℕ, List, true, OnOk, length as list_length};
ghost use Rattle.run_model.specs.Run.{again, asks, call, close, completed, next_key, of_nobody, proposes, read_asked, reads, register, request_refusal, stale};
ghost use Rattle.script_world.specs.Fit.{may_ask};
ghost use Rattle.script_world.specs.World.{world_of};
ghost use Rattle.script_world.specs.Took.{Took};
ghost use Rattle.host_ids.specs.declared.proposal.TheConstants.{MOST_COMMAND};

use crate::world::World;
use host_ids::{Key, MOST_COMMAND, MOST_SERIES, NoMemory, Proposal, Text};
use raft_core::LaneEvent;
use run_model::{ClientSession, Want};
use script_parts::{is_dropped, tell};
use script_text::{Line, Refusal, Told, Tolds};

impl World {
    /// The line `ask`, and `raw`: asks a command of `length` bytes as this proposal.
    #[tactic(auto, unfolding(run_model::specs::Run::asks))]
    pub(crate) fn ask(
        &mut self,
        host: u8,
        context: Text,
        length: usize,
        proposal: Proposal,
        out: &mut Tolds,
    ) -> Result<(), NoMemory>
        requires host { (1 ≤ host) × (host ≤ 9) }
        requires fit { length ≤ MOST_COMMAND → may_ask proposal ≡ true }
        ensures { (command : List ℕ) → length ≡ list_length command → OnOk result (Took (asks host context command proposal (world_of self.old)) (world_of self.new) out.old out.new) }
    {
        if let Some(refusal) = self.request_refusal(host, &context) {
            return self.refuse(refusal, out);
        }
        if length > MOST_COMMAND {
            return self.refuse(Refusal::LongCommand, out);
        }
        self.propose(host, context, proposal, out)
    }

    /// The line `register`.
    #[tactic(auto, unfolding(run_model::specs::Run::register))]
    pub(crate) fn register(
        &mut self,
        host: u8,
        context: Text,
        name: Text,
        client: u64,
        out: &mut Tolds,
    ) -> Result<(), NoMemory>
        requires host { (1 ≤ host) × (host ≤ 9) }
        requires client { 1 ≤ client }
        ensures { OnOk result (Took (register host context name client (world_of self.old)) (world_of self.new) out.old out.new) }
    {
        if let Some(refusal) = self.request_refusal(host, &context) {
            return self.refuse(refusal, out);
        }
        if self.clients.get(&name).is_some() {
            return self.refuse(Refusal::SessionName, out);
        }
        let session = ClientSession {
            group: 1,
            client,
            series: 1,
            responded: 0,
            outstanding: None,
        };
        self.clients.put(name, session)?;
        self.propose(host, context, Proposal::Register { client }, out)
    }

    /// The line `call`.
    #[tactic(auto, unfolding(run_model::specs::Run::call))]
    pub(crate) fn call(
        &mut self,
        host: u8,
        context: Text,
        name: Text,
        command: Text,
        out: &mut Tolds,
    ) -> Result<(), NoMemory>
        requires host { (1 ≤ host) × (host ≤ 9) }
        requires command { 1 ≤ list_length command }
        ensures { OnOk result (Took (call host context name command (world_of self.old)) (world_of self.new) out.old out.new) }
    {
        let Some(session) = self.clients.get(&name) else {
            return self.refuse_unknown(host, &context, out);
        };
        if let Some(refusal) = self.request_refusal(host, &context) {
            return self.refuse(refusal, out);
        }
        if session.outstanding.is_some() {
            return self.refuse(Refusal::Outstanding, out);
        }
        if command.bytes().len() > MOST_COMMAND {
            return self.refuse(Refusal::LongCommand, out);
        }
        let responded = session.responded;
        let next = ClientSession {
            group: session.group,
            client: session.client,
            series: session.series,
            responded,
            outstanding: Some(command.copy()?),
        };
        let proposal = Proposal::Session {
            client: session.client,
            series: session.series,
            responded,
            command,
        };
        self.clients.put(name, next)?;
        self.propose(host, context, proposal, out)
    }

    /// The line `again`.
    #[tactic(auto, unfolding(run_model::specs::Run::again))]
    pub(crate) fn again(
        &mut self,
        host: u8,
        context: Text,
        name: &Text,
        out: &mut Tolds,
    ) -> Result<(), NoMemory>
        requires { (1 ≤ host) × (host ≤ 9) }
        ensures { OnOk result (Took (again host context name.now (world_of self.old)) (world_of self.new) out.old out.new) }
    {
        let Some(session) = self.clients.get(name) else {
            return self.refuse_unknown(host, &context, out);
        };
        if let Some(refusal) = self.request_refusal(host, &context) {
            return self.refuse(refusal, out);
        }
        let Some(command) = &session.outstanding else {
            return self.refuse(Refusal::Outstanding, out);
        };
        let series = session.series;
        let proposal = Proposal::Session {
            client: session.client,
            series,
            responded: session.responded,
            command: command.copy()?,
        };
        self.propose(host, context, proposal, out)
    }

    /// The line `completed`.
    #[tactic(auto, unfolding(run_model::specs::Run::completed))]
    pub(crate) fn completed(&mut self, name: Text, out: &mut Tolds) -> Result<(), NoMemory>
        ensures { OnOk result (Took (completed name (world_of self.old)) (world_of self.new) out.old out.new) }
    {
        let Some(session) = self.clients.get(&name) else {
            return self.refuse(Refusal::SessionName, out);
        };
        if session.outstanding.is_none() {
            return self.refuse(Refusal::Outstanding, out);
        }
        let next = ClientSession {
            group: session.group,
            client: session.client,
            series: session.series.min(MOST_SERIES - 1) + 1,
            responded: session.series,
            outstanding: None,
        };
        self.clients.put(name, next)
    }

    /// The line `close`.
    #[tactic(auto, unfolding(run_model::specs::Run::close))]
    pub(crate) fn close(
        &mut self,
        host: u8,
        context: Text,
        name: &Text,
        out: &mut Tolds,
    ) -> Result<(), NoMemory>
        requires { (1 ≤ host) × (host ≤ 9) }
        ensures { OnOk result (Took (close host context name.now (world_of self.old)) (world_of self.new) out.old out.new) }
    {
        let Some(session) = self.clients.get(name) else {
            return self.refuse_unknown(host, &context, out);
        };
        if let Some(refusal) = self.request_refusal(host, &context) {
            return self.refuse(refusal, out);
        }
        if session.outstanding.is_some() {
            return self.refuse(Refusal::Outstanding, out);
        }
        let client = session.client;
        self.propose(host, context, Proposal::Close { client }, out)
    }

    /// Why a request under a context is refused at a host, whatever it asks.
    fn request_refusal(&self, host: u8, context: &Text) -> Option<Refusal>
        ensures { result ≡ request_refusal host context.now (world_of self.now) }
    {
        if !self.is_declared(host) {
            return Some(Refusal::NotDeclared);
        }
        if !self.is_voter(host) {
            return Some(Refusal::NoReplica);
        }
        if self.is_used(context) {
            return Some(Refusal::ContextUsed);
        }
        None
    }

    /// Tells why a request of an unknown session is refused.
    fn refuse_unknown(&self, host: u8, context: &Text, out: &mut Tolds) -> Result<(), NoMemory>
        ensures { OnOk result (out.new ≡ out.old ++ (of_nobody host context.now (world_of self.now)).told) }
    {
        if !self.is_declared(host) {
            return self.refuse(Refusal::NotDeclared, out);
        }
        if self.is_used(context) {
            return self.refuse(Refusal::ContextUsed, out);
        }
        self.refuse(Refusal::SessionName, out)
    }

    /// A proposal is asked at a host.
    #[tactic(auto, unfolding(run_model::specs::Run::proposes))]
    fn propose(
        &mut self,
        host: u8,
        context: Text,
        proposal: Proposal,
        out: &mut Tolds,
    ) -> Result<(), NoMemory>
        requires host { (1 ≤ host) × (host ≤ 9) }
        requires fit { may_ask proposal ≡ true }
        ensures { OnOk result (Took (proposes host context proposal (world_of self.old)) (world_of self.new) out.old out.new) }
    {
        let key = self.next_key(host);
        out.push(Told {
            context: context.copy()?,
            line: Line::Ask {
                key,
                group: 1,
                proposal: proposal.copy()?,
            },
        })?;
        self.contexts.push(host, context.copy()?)?;
        let event = LaneEvent::Propose {
            host,
            key,
            proposal,
        };
        let notes = self.act(host, event)?;
        if is_dropped(&notes) {
            let line = Line::Dropped { key, group: 1 };
            return out.push(Told { context, line });
        }
        self.nodes[host as usize].join(key, Want::Proposal)
    }

    /// The line `read`.
    #[tactic(auto, unfolding(run_model::specs::Run::reads))]
    pub(crate) fn read(
        &mut self,
        host: u8,
        context: Text,
        query: Text,
        out: &mut Tolds,
    ) -> Result<(), NoMemory>
        requires { (1 ≤ host) × (host ≤ 9) }
        ensures { OnOk result (Took (reads host context query (world_of self.old)) (world_of self.new) out.old out.new) }
    {
        if let Some(refusal) = self.request_refusal(host, &context) {
            return self.refuse(refusal, out);
        }
        self.ask_read(host, context, query, out)
    }

    /// A read is asked at a host.
    #[tactic(auto, unfolding(run_model::specs::Run::read_asked))]
    fn ask_read(
        &mut self,
        host: u8,
        context: Text,
        query: Text,
        out: &mut Tolds,
    ) -> Result<(), NoMemory>
        requires { (1 ≤ host) × (host ≤ 9) }
        ensures { OnOk result (Took (read_asked host (next_key (world_of self.old) host) context query (world_of self.old)) (world_of self.new) out.old out.new) }
    {
        let key = self.next_key(host);
        out.push(Told {
            context: context.copy()?,
            line: Line::AskRead {
                key,
                group: 1,
                query: query.copy()?,
            },
        })?;
        self.contexts.push(host, context.copy()?)?;
        let notes = self.act(host, LaneEvent::Ask { host, key })?;
        if is_dropped(&notes) {
            let line = Line::Dropped { key, group: 1 };
            return out.push(Told { context, line });
        }
        let want = Want::Read { query, front: None };
        self.nodes[host as usize].join(key, want)?;
        self.hear(host, &notes, out)
    }

    /// The line `stale`: answers a query from what a host has applied.
    #[tactic(auto, unfolding(run_model::specs::Run::stale))]
    pub(crate) fn stale(&self, host: u8, query: Text, out: &mut Tolds) -> Result<(), NoMemory>
        requires { (1 ≤ host) × (host ≤ 9) }
        ensures { OnOk result (Took (stale host query (world_of self.now)) (world_of self.now) out.old out.new) }
    {
        if !self.is_declared(host) {
            return self.refuse(Refusal::NotDeclared, out);
        }
        if !self.is_voter(host) {
            return self.refuse(Refusal::NoReplica, out);
        }
        let line = self.nodes[host as usize].stale(host, query)?;
        tell(self.alloc, line, out)
    }
}
