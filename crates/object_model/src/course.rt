ghost use Rattle.std.specs.Prelude.{◌≡◌, ℕ, List, [], ◌∷◌, Some, None, IfOk, OnOk, true, max, if◌then◌else◌};
ghost use Rattle.std.specs.Option.{option_copied};
ghost use Rattle.object_model.specs.Sequence.{acting_ending, acting_reply, client_of, ending_by, command_verdict, does_act, effect_of, found_by, has, raised, raised_by, stands, standing, state, touched, verdict, without, with_room, after_all, reply_by};
ghost use Rattle.object_model.specs.Object.{answer};

use crate::mark::Ending;
use crate::pairs::Pairs;
use host_ids::{NoMemory, Proposal, Text, Verdict};
use std::alloc::Global;
use std::marker::Model;

/// A proposal of a course, and what came of it.
#[derive(Drop)]
pub struct CourseStep {
    pub proposal: Proposal,
    pub stood: bool,
    pub acts: bool,
    pub reply: Text,
}

/// A list of proposals that is followed step by step: the plain program beside the definitions.
#[derive(Drop)]
pub struct Course {
    alloc: Global,
    limit: u64,
    steps: Vec<CourseStep>,
    clients: Vec<u64>,
    pairs: Pairs,
}

impl Model for Course {
    ghost use Rattle.std.specs.Prelude.{ℕ};
    ghost use Rattle.object_model.specs.Course as course;

    ghost Value = { course.Course };

    ghost view = { λ c. record { limit = c.limit; history = course.history_of c.steps.items } };

    ghost invariant = { λ c. course.Follows c.limit c.steps.items c.clients.items c.pairs };
}

/// The client that a proposal names, 0 where it names none.
fn client_of(proposal: &Proposal) -> u64
    ensures { result ≡ client_of proposal.now }
{
    match proposal {
        Proposal::Blank | Proposal::Plain { .. } => 0,
        Proposal::Session { client, .. }
        | Proposal::Register { client }
        | Proposal::Close { client } => *client,
    }
}

fn has(client: u64, clients: &[u64]) -> bool
    ensures { result ≡ has client clients.now }
{
    clients.iter().any(|c| *c == client)
}

fn without(alloc: Global, client: u64, clients: &[u64]) -> Result<Vec<u64>, NoMemory>
    ensures { IfOk result (λ v. v.items ≡ without client clients.now) }
{
    let others = clients
        .iter()
        .copied()
        .filter(|c| *c != client)
        .collect(alloc)?;
    Ok(others)
}

fn with_room(alloc: Global, limit: u64, clients: &[u64]) -> Result<Vec<u64>, NoMemory>
    ensures { IfOk result (λ v. v.items ≡ with_room limit clients.now) }
{
    if limit <= clients.len() as u64 {
        let others = clients.iter().copied().skip(1).collect(alloc)?;
        return Ok(others);
    }
    let all = Vec::from_slice(alloc, clients)?;
    Ok(all)
}

/// The standing clients after a proposal.
fn touched(
    alloc: Global,
    limit: u64,
    proposal: &Proposal,
    clients: &[u64],
) -> Result<Vec<u64>, NoMemory>
    ensures { IfOk result (λ v. v.items ≡ touched limit proposal.now clients.now) }
{
    match proposal {
        Proposal::Session { client, .. } => {
            if !has(*client, clients) {
                return Ok(Vec::from_slice(alloc, clients)?);
            }
            let mut moved = without(alloc, *client, clients)?;
            moved.push(*client)?;
            Ok(moved)
        }
        Proposal::Register { client } => {
            if has(*client, clients) {
                return Ok(Vec::from_slice(alloc, clients)?);
            }
            let mut more = with_room(alloc, limit, clients)?;
            more.push(*client)?;
            Ok(more)
        }
        Proposal::Close { client } => without(alloc, *client, clients),
        Proposal::Blank | Proposal::Plain { .. } => Ok(Vec::from_slice(alloc, clients)?),
    }
}

fn does_act(verdict: &Verdict) -> bool
    ensures { result ≡ does_act verdict.now }
{
    match verdict {
        Verdict::Acts => true,
        Verdict::Nothing
        | Verdict::NotStanding
        | Verdict::Taken
        | Verdict::Responded
        | Verdict::RepeatOf { .. } => false,
    }
}

/// Gives the object a proposal that acts, and answers the reply of a command.
fn effect(alloc: Global, pairs: &mut Pairs, proposal: &Proposal) -> Result<Text, NoMemory>
    ensures pairs { OnOk result (pairs.new ≡ (effect_of proposal.now pairs.old).pairs) }
    ensures reply { IfOk result (λ reply. reply ≡ (effect_of proposal.now pairs.old).reply) }
{
    match proposal {
        Proposal::Plain { command } | Proposal::Session { command, .. } => pairs.update(command),
        Proposal::Blank | Proposal::Register { .. } | Proposal::Close { .. } => {
            Text::new(alloc, b"")
        }
    }
}

/// Gives the object a proposal where that acts.
fn effect_if(
    alloc: Global,
    acts: bool,
    pairs: &mut Pairs,
    proposal: &Proposal,
) -> Result<Text, NoMemory>
    ensures pairs { OnOk result (pairs.new ≡ (if acts then (effect_of proposal.now pairs.old).pairs else pairs.old)) }
    ensures reply { acts ≡ true → IfOk result (λ reply. reply ≡ (effect_of proposal.now pairs.old).reply) }
{
    if acts {
        return effect(alloc, pairs, proposal);
    }
    Text::new(alloc, b"")
}

/// The responded value of a client after a step.
fn raised_step(client: u64, step: &CourseStep, value: u64) -> u64
    ensures { result ≡ raised_by client step.now.proposal step.now.stood value }
{
    match &step.proposal {
        Proposal::Session {
            client: other,
            responded,
            ..
        } => {
            if *other == client && step.stood {
                value.max(*responded)
            } else {
                value
            }
        }
        Proposal::Register { client: other } => {
            if *other == client && !step.stood {
                0
            } else {
                value
            }
        }
        Proposal::Blank | Proposal::Plain { .. } | Proposal::Close { .. } => value,
    }
}

/// What a client's series was replied after a step.
fn found_step<'a>(
    client: u64,
    series: u64,
    step: &'a CourseStep,
    found: Option<&'a Text>,
) -> Option<&'a Text>
    ensures { option_copied result ≡ found_by client series step.now.proposal step.now.acts step.now.reply (option_copied found.entry) }
{
    match &step.proposal {
        Proposal::Session {
            client: other,
            series: number,
            ..
        } => {
            if *other == client && *number == series && step.acts {
                Some(&step.reply)
            } else {
                found
            }
        }
        Proposal::Register { client: other } => {
            if *other == client && step.acts {
                None
            } else {
                found
            }
        }
        Proposal::Blank | Proposal::Plain { .. } | Proposal::Close { .. } => found,
    }
}

/// The reply of a proposal that acts on this object, if it is a command.
fn acting_reply(mut pairs: Pairs, proposal: &Proposal) -> Result<Option<Text>, NoMemory>
    ensures { IfOk result (λ reply. reply ≡ acting_reply proposal.now pairs) }
{
    match proposal {
        Proposal::Plain { command } | Proposal::Session { command, .. } => {
            Ok(Some(pairs.update(command)?))
        }
        Proposal::Blank | Proposal::Register { .. } | Proposal::Close { .. } => Ok(None),
    }
}

/// How the request of a proposal ends that acts on this object.
fn acting_ending(mut pairs: Pairs, proposal: &Proposal) -> Result<Option<Ending>, NoMemory>
    ensures { IfOk result (λ ending. ending ≡ acting_ending proposal.now pairs) }
{
    match proposal {
        Proposal::Blank => Ok(None),
        Proposal::Plain { command } | Proposal::Session { command, .. } => {
            Ok(Some(Ending::Done {
                reply: pairs.update(command)?,
            }))
        }
        Proposal::Register { .. } => Ok(Some(Ending::Registered)),
        Proposal::Close { .. } => Ok(Some(Ending::Closed)),
    }
}

impl Course {
    ghost use Rattle.object_model.specs.Course.{raised_on, found_on};

    /// No proposals yet, under a limit of sessions.
    pub fn new(alloc: Global, limit: u64) -> Course
        ensures limit { result.limit ≡ limit }
        ensures history { result.history ≡ [] }
    {
        Course {
            alloc,
            limit,
            steps: Vec::new(alloc),
            clients: Vec::new(alloc),
            pairs: Pairs::new(alloc),
        }
    }

    /// Whether a client's session stands.
    fn stands(&self, client: u64) -> bool
        ensures { result ≡ stands self.now.limit client self.now.history }
    {
        has(client, &self.clients)
    }

    /// The responded value of a client.
    fn raised(&self, client: u64) -> u64
        ensures { result ≡ raised self.now.limit client self.now.history }
    {
        let mut value = 0;
        for step in &self.steps {
            value = raised_step(client, step, value);
        }
        value
    }

    /// What a client's series was replied in its session.
    fn found(&self, client: u64, series: u64) -> Option<&Text>
        ensures { option_copied result ≡ (after_all self.now.limit self.now.history).found client series }
    {
        let mut found = None;
        for step in &self.steps {
            found = found_step(client, series, step, found);
        }
        found
    }

    /// The verdict of a command as the next proposal.
    fn command_verdict(&self, client: u64, series: u64, responded: u64) -> Result<Verdict, NoMemory>
        ensures { IfOk result (λ v. v ≡ command_verdict (stands self.now.limit client self.now.history) (max (raised self.now.limit client self.now.history) responded) series ((after_all self.now.limit self.now.history).found client series)) }
    {
        if !self.stands(client) {
            return Ok(Verdict::NotStanding);
        }
        if series <= self.raised(client).max(responded) {
            return Ok(Verdict::Responded);
        }
        match self.found(client, series) {
            Some(reply) => Ok(Verdict::RepeatOf {
                reply: reply.copy()?,
            }),
            None => Ok(Verdict::Acts),
        }
    }

    /// The verdict of a proposal as the next one.
    pub fn verdict(&self, proposal: &Proposal) -> Result<Verdict, NoMemory>
        ensures { IfOk result (λ v. v ≡ verdict self.now.limit self.now.history proposal.now) }
    {
        match proposal {
            Proposal::Blank => Ok(Verdict::Nothing),
            Proposal::Plain { .. } => Ok(Verdict::Acts),
            Proposal::Session {
                client,
                series,
                responded,
                ..
            } => self.command_verdict(*client, *series, *responded),
            Proposal::Register { client } => {
                if self.stands(*client) {
                    Ok(Verdict::Taken)
                } else {
                    Ok(Verdict::Acts)
                }
            }
            Proposal::Close { client } => {
                if self.stands(*client) {
                    Ok(Verdict::Acts)
                } else {
                    Ok(Verdict::NotStanding)
                }
            }
        }
    }

    /// The course with one proposal more.
    pub fn then(self, proposal: Proposal) -> Result<Course, NoMemory>
        ensures limit { IfOk result (λ course. course.limit ≡ self.limit) }
        ensures history { IfOk result (λ course. course.history ≡ proposal ∷ self.history) }
    {
        let stood = self.stands(client_of(&proposal));
        let acts = does_act(&self.verdict(&proposal)?);
        let Course {
            alloc,
            limit,
            mut steps,
            clients,
            mut pairs,
        } = self;
        let clients = touched(alloc, limit, &proposal, &clients)?;
        let reply = effect_if(alloc, acts, &mut pairs, &proposal)?;
        steps.push(CourseStep {
            proposal,
            stood,
            acts,
            reply,
        })?;
        Ok(Course {
            alloc,
            limit,
            steps,
            clients,
            pairs,
        })
    }

    /// The reply of a proposal as the next one, if it has one.
    pub fn reply(self, proposal: &Proposal) -> Result<Option<Text>, NoMemory>
        ensures { IfOk result (λ reply. reply ≡ reply_by (verdict self.limit self.history proposal.now) proposal.now (state self.limit self.history)) }
    {
        match self.verdict(proposal)? {
            Verdict::RepeatOf { reply } => Ok(Some(reply)),
            Verdict::Acts => acting_reply(self.pairs, proposal),
            Verdict::Nothing | Verdict::NotStanding | Verdict::Taken | Verdict::Responded => {
                Ok(None)
            }
        }
    }

    /// How the request of a proposal ends that is the next one, if it ends there.
    pub fn ending(self, proposal: &Proposal) -> Result<Option<Ending>, NoMemory>
        ensures { IfOk result (λ ending. ending ≡ ending_by (verdict self.limit self.history proposal.now) proposal.now (state self.limit self.history)) }
    {
        match self.verdict(proposal)? {
            Verdict::Nothing => Ok(None),
            Verdict::NotStanding | Verdict::Taken => Ok(Some(Ending::Rejected)),
            Verdict::Responded => Ok(Some(Ending::Responded)),
            Verdict::RepeatOf { reply } => Ok(Some(Ending::Done { reply })),
            Verdict::Acts => acting_ending(self.pairs, proposal),
        }
    }

    /// The standing clients, the one touched longest ago first.
    pub fn clients(&self) -> &[u64]
        ensures { result.now ≡ standing self.now.limit self.now.history }
    {
        &self.clients
    }

    /// What a text asks of the object.
    pub fn lookup(&self, query: &Text) -> Result<Text, NoMemory>
        ensures { IfOk result (λ found. found ≡ answer (state self.now.limit self.now.history) query.now) }
    {
        self.pairs.lookup(query)
    }
}
