ghost use Rattle.std.specs.Prelude.{◌≡◌, ◌≤◌, ◌<◌, ◌++◌, true, length, replicate, OnOk, IfOk};
ghost use Rattle.std.specs.List.{list_all};
ghost use Rattle.run_model.specs.World.{is_declared, new_node, start};
ghost use Rattle.run_model.specs.Run.{asks, at_replica, declare, event_step, group, grouped, turn};
ghost use Rattle.script_world.specs.Fit.{is_ask};
ghost use Rattle.script_text.specs.Fit.{is_fit_limit, is_fit_line, is_fit_roster};
ghost use Rattle.wire_types.specs.Grammar.{is_host};
ghost use Rattle.raft_model.specs.Group.{fresh_group};
ghost use Rattle.raft_model.specs.Saving.{payload};
ghost use Rattle.script_world.specs.World.{world_of};
ghost use Rattle.script_world.specs.Took.{Took, Turned};
ghost use Rattle.host_ids.specs.declared.proposal.TheConstants.{MOST_SESSIONS};

use crate::world::World;
use group_world::Lane;
use host_ids::{MOST_SESSIONS, NoMemory, Proposal, Text};
use script_parts::{Clients, Contexts, Node, tell};
use script_text::{HostEvent, Limit, Line, Refusal, ScriptLine, Tolds};
use std::alloc::Global;

/// The table of nodes that were given no entries and were asked nothing.
fn new_nodes(alloc: Global, limit: u32) -> Result<Vec<Node>, NoMemory>
    requires { (1 ≤ limit) × (limit ≤ MOST_SESSIONS) }
    ensures { IfOk result (λ nodes. nodes.items ≡ replicate 10 (new_node limit)) }
{
    let mut nodes = Vec::new(alloc);
    for host in 0u64..10 {
        let _ = host;
        nodes.push(Node::new(alloc, limit)?)?;
    }
    Ok(nodes)
}

/// How many bytes the command of a proposal has.
fn payload_len(proposal: &Proposal) -> usize
    ensures { result ≡ length (payload proposal.now) }
{
    match proposal {
        Proposal::Blank | Proposal::Register { .. } | Proposal::Close { .. } => 0,
        Proposal::Plain { command } | Proposal::Session { command, .. } => command.bytes().len(),
    }
}

/// A group that has just begun, of these voters.
fn new_lane(alloc: Global, roster: &[u8]) -> Result<Lane, NoMemory>
    requires { is_fit_roster roster.now ≡ true }
    ensures lane { IfOk result (λ lane. lane.group ≡ fresh_group 1 roster.now) }
    ensures hosts { IfOk result (λ lane. list_all is_host lane.group.voters ≡ true) }
{
    Lane::new(alloc, 1, roster)
}

impl World {
    /// The world at the beginning of a run: no host is declared and no group. The only error is
    /// `NoMemory`.
    pub fn new(alloc: Global) -> Result<World, NoMemory>
        ensures { IfOk result (λ world. world_of world ≡ start) }
    {
        Ok(World {
            alloc,
            declared: [false; 10],
            lane: Lane::new(alloc, 1, &[])?,
            limit: MOST_SESSIONS,
            nodes: new_nodes(alloc, MOST_SESSIONS)?,
            contexts: Contexts::new(alloc)?,
            clients: Clients::new(alloc),
            settled: 0,
            appended: 0,
            broken: false,
        })
    }

    /// The line `host`.
    #[tactic(auto, unfolding(run_model::specs::Run::declare))]
    fn declare(&mut self, host: u8, out: &mut Tolds) -> Result<(), NoMemory>
        requires { host < 10 }
        ensures { OnOk result (Took (declare host (world_of self.old)) (world_of self.new) out.old out.new) }
    {
        if self.is_declared(host) {
            return self.refuse(Refusal::Declared, out);
        }
        self.declared[host as usize] = true;
        tell(self.alloc, Line::Started { host, start: 1 }, out)
    }

    /// Whether all of these hosts were declared.
    fn are_declared(&self, hosts: &[u8]) -> bool
        ensures { result ≡ list_all (is_declared (world_of self.now)) hosts.now }
    {
        hosts.iter().all(|host| self.is_declared(*host))
    }

    /// The group becomes another one.
    fn put_lane(&mut self, lane: Lane)
        requires { list_all is_host lane.group.voters ≡ true }
        ensures { world_of self.new ≡ record (world_of self.old) { group = lane.group } }
    {
        self.lane = lane;
    }

    /// The nodes and their limit of sessions become others.
    fn put_nodes(&mut self, nodes: Vec<Node>, limit: u32)
        requires { length nodes.items ≡ 10 }
        ensures { world_of self.new ≡ record (world_of self.old) { nodes = nodes.items; limit = limit } }
    {
        self.nodes = nodes;
        self.limit = limit;
    }

    /// The group is made of these voters, with its limit of sessions.
    #[tactic(auto, unfolding(run_model::specs::Run::grouped))]
    fn make(&mut self, roster: &[u8], limit: u32) -> Result<(), NoMemory>
        requires roster { is_fit_roster roster.now ≡ true }
        requires limit { (1 ≤ limit) × (limit ≤ MOST_SESSIONS) }
        ensures { OnOk result (world_of self.new ≡ grouped roster.now limit (world_of self.old)) }
    {
        let lane = new_lane(self.alloc, roster)?;
        let nodes = new_nodes(self.alloc, limit)?;
        self.put_lane(lane);
        self.put_nodes(nodes, limit);
        Ok(())
    }

    /// The line `group`.
    #[tactic(auto, unfolding(run_model::specs::Run::group))]
    fn group(&mut self, roster: &[u8], limit: Option<u32>, out: &mut Tolds) -> Result<(), NoMemory>
        requires roster { is_fit_roster roster.now ≡ true }
        requires limit { is_fit_limit limit ≡ true }
        ensures { OnOk result (Took (group roster.now limit (world_of self.old)) (world_of self.new) out.old out.new) }
    {
        if !self.are_declared(roster) {
            return self.refuse(Refusal::NotDeclared, out);
        }
        if self.has_group() {
            return self.refuse(Refusal::Declared, out);
        }
        self.make(roster, limit.unwrap_or(MOST_SESSIONS))
    }

    /// A line that names an event at a host's replica.
    fn event_line(&mut self, host: u8, event: HostEvent, out: &mut Tolds) -> Result<(), NoMemory>
        requires { host < 10 }
        ensures { OnOk result (Took (at_replica host (world_of self.old) (event_step host event (world_of self.old))) (world_of self.new) out.old out.new) }
    {
        if !self.is_declared(host) {
            return self.refuse(Refusal::NotDeclared, out);
        }
        if !self.is_voter(host) {
            return self.refuse(Refusal::NoReplica, out);
        }
        self.event(host, event, out)
    }

    /// The lines `ask` and `raw`, of a command that is asked as this proposal.
    #[tactic(auto, using(crate::proofs::Fits::short_ask))]
    fn ask_line(
        &mut self,
        host: u8,
        context: Text,
        proposal: Proposal,
        out: &mut Tolds,
    ) -> Result<(), NoMemory>
        requires host { (1 ≤ host) × (host ≤ 9) }
        requires fit { is_ask proposal ≡ true }
        ensures { OnOk result (Took (asks host context (payload proposal) proposal (world_of self.old)) (world_of self.new) out.old out.new) }
    {
        let length = payload_len(&proposal);
        self.ask(host, context, length, proposal, out)
    }

    /// Does what a line of the script says, where the lines that were read have `size` bytes with
    /// it, and tells its lines after those that `out` has. Answers the limit that was reached before one
    /// of its events, which only a `settle` can meet.
    ///
    /// The numbers of the line are in their ranges, as the grammar gives them. A line that is refused
    /// changes nothing but what is told. The only error is `NoMemory`, after which no clause says what the
    /// world is and what was told, and the world can only be dropped.
    #[tactic(auto, unfolding(run_model::specs::Run::turn))]
    pub fn turn(
        &mut self,
        line: ScriptLine,
        size: usize,
        out: &mut Tolds,
    ) -> Result<Option<Limit>, NoMemory>
        requires { is_fit_line line ≡ true }
        ensures { IfOk result (λ full. Turned (turn line size (world_of self.old)) (world_of self.new) out.old out.new full) }
    {
        match line {
            ScriptLine::Skipped | ScriptLine::End => Ok(None),
            ScriptLine::Host { host } => {
                self.declare(host, out)?;
                Ok(None)
            }
            ScriptLine::Group { roster, limit, .. } => {
                self.group(roster.bytes(), limit, out)?;
                Ok(None)
            }
            ScriptLine::Event { host, event } => {
                self.event_line(host, event, out)?;
                Ok(None)
            }
            ScriptLine::Deliver { number, .. } => {
                self.deliver(number, out)?;
                Ok(None)
            }
            ScriptLine::Ask {
                host,
                context,
                command,
                ..
            } => {
                self.ask_line(host, context, Proposal::Plain { command }, out)?;
                Ok(None)
            }
            ScriptLine::Stale { host, query, .. } => {
                self.stale(host, query, out)?;
                Ok(None)
            }
            ScriptLine::Read {
                host,
                context,
                query,
                ..
            } => {
                self.read(host, context, query, out)?;
                Ok(None)
            }
            ScriptLine::Register {
                host,
                context,
                session,
                client,
                ..
            } => {
                self.register(host, context, session, client, out)?;
                Ok(None)
            }
            ScriptLine::Call {
                host,
                context,
                session,
                command,
            } => {
                self.call(host, context, session, command, out)?;
                Ok(None)
            }
            ScriptLine::Again {
                host,
                context,
                session,
            } => {
                self.again(host, context, &session, out)?;
                Ok(None)
            }
            ScriptLine::Completed { session } => {
                self.completed(session, out)?;
                Ok(None)
            }
            ScriptLine::Close {
                host,
                context,
                session,
            } => {
                self.close(host, context, &session, out)?;
                Ok(None)
            }
            ScriptLine::Raw {
                host,
                context,
                client,
                series,
                responded,
                command,
                ..
            } => {
                let proposal = Proposal::Session {
                    client,
                    series,
                    responded,
                    command,
                };
                self.ask_line(host, context, proposal, out)?;
                Ok(None)
            }
            ScriptLine::Settle { .. } => self.settle(size, out),
            ScriptLine::Lose { .. } => {
                self.lose(out)?;
                Ok(None)
            }
            ScriptLine::Wire { number, .. } => {
                self.show(number, out)?;
                Ok(None)
            }
        }
    }
}
