ghost use Rattle.std.specs.Prelude.{◌≡◌, ◌≤◌, ◌<◌, length};
ghost use Rattle.std.specs.List.{All};

mod logs;

use group_world::Lane;
use host_ids::{Key, Proposal};
use raft_core::{Input, LaneEvent, LaneFault, Note, Replica, Role};
use rand_core::utils::NextWord;
use rand_pcg::Pcg32;
use std::alloc::Global;
use std::process::Abort;
use std::test::Fail;
use wire_types::{Envelope, is_key, is_request};

/// An event, with the numbers that it takes.
#[derive(Clone, Copy)]
enum LaneStep {
    Timeout(u8),
    Beat(u8),
    Deliver(u64),
    Ready(u8),
    Saved(u8, u64),
    Propose(u8, u64),
    Ask(u8, u64),
}

/// A group as a lane, and as replicas of hosts 1 to 9 by themselves with what these sent.
#[derive(Drop)]
struct Both {
    lane: Lane,
    replicas: Vec<Replica>,
    wire: Vec<Envelope>,
}

fn key(host: u8, serial: u64) -> Key {
    Key {
        host,
        start: 1,
        serial,
    }
}

// ---- at the lane

/// Registers client 1, if the key has a spelling.
fn propose(lane: &mut Lane, host: u8, key: Key) -> Result<Vec<Note>, LaneFault> {
    let proposal = Proposal::Register { client: 1 };
    if !is_request(&key, &proposal) {
        return Err(LaneFault::NoMemory);
    }
    lane.act(LaneEvent::Propose {
        host,
        key,
        proposal,
    })
}

/// Asks a read, if the key has a spelling.
fn ask(lane: &mut Lane, host: u8, key: Key) -> Result<Vec<Note>, LaneFault> {
    if !is_key(&key) {
        return Err(LaneFault::NoMemory);
    }
    lane.act(LaneEvent::Ask { host, key })
}

fn at_lane(lane: &mut Lane, step: LaneStep) -> Result<Vec<Note>, LaneFault> {
    match step {
        LaneStep::Timeout(host) => lane.act(LaneEvent::Timeout { host }),
        LaneStep::Beat(host) => lane.act(LaneEvent::Beat { host }),
        LaneStep::Deliver(number) => lane.act(LaneEvent::Deliver { number }),
        LaneStep::Ready(host) => lane.act(LaneEvent::Ready { host }),
        LaneStep::Saved(host, id) => lane.act(LaneEvent::Saved { host, id }),
        LaneStep::Propose(host, serial) => propose(lane, host, key(host, serial)),
        LaneStep::Ask(host, serial) => ask(lane, host, key(host, serial)),
    }
}

// ---- at the replicas

/// The envelope of a number, from 1 in the order of sending.
fn letter(wire: &[Envelope], number: u64) -> Result<&Envelope, Fail> {
    let place = number.saturating_sub(1) as usize;
    Ok(wire.get(place).ok_or("no envelope has this number")?)
}

/// The host that a step is at.
fn host_of(step: LaneStep, wire: &[Envelope]) -> Result<u8, Fail> {
    match step {
        LaneStep::Timeout(host)
        | LaneStep::Beat(host)
        | LaneStep::Ready(host)
        | LaneStep::Saved(host, _)
        | LaneStep::Propose(host, _)
        | LaneStep::Ask(host, _) => Ok(host),
        LaneStep::Deliver(number) => Ok(letter(wire, number)?.to),
    }
}

/// What a step gives a replica, but for the taking and the saving of a batch.
fn input_of(step: LaneStep, wire: &[Envelope]) -> Result<Option<Input>, Fail> {
    match step {
        LaneStep::Timeout(_) => Ok(Some(Input::Timeout)),
        LaneStep::Beat(_) => Ok(Some(Input::Beat)),
        LaneStep::Deliver(number) => Ok(Some(Input::Envelope {
            envelope: letter(wire, number)?.copy()?,
        })),
        LaneStep::Propose(host, serial) => Ok(Some(Input::Propose {
            key: key(host, serial),
            proposal: Proposal::Register { client: 1 },
        })),
        LaneStep::Ask(host, serial) => Ok(Some(Input::Ask {
            key: key(host, serial),
        })),
        LaneStep::Ready(_) | LaneStep::Saved(..) => Ok(None),
    }
}

/// Gives a replica an input that it may be given.
fn give(replica: &mut Replica, input: Input) -> Result<Vec<Note>, Fail> {
    if !replica.is_within(&input) {
        return Err(Fail::from("an input that may not be given"));
    }
    Ok(replica.step(input)?)
}

/// The next batch of a replica is taken.
fn take(replica: &mut Replica, alloc: Global, host: u8) -> Result<Vec<Note>, Fail> {
    let note = match replica.ready()? {
        None => Note::Idle,
        Some(batch) => Note::Pending { host, id: batch.id },
    };
    Ok([note].to_vec(alloc)?)
}

/// The pending batch of a replica was saved.
fn hand_back(replica: &mut Replica, id: u64) -> Result<Vec<Note>, Fail> {
    Ok(replica.saved(id)?)
}

/// A step at a replica, by what it is given.
fn at_replica(
    replica: &mut Replica,
    alloc: Global,
    step: LaneStep,
    input: Option<Input>,
) -> Result<Vec<Note>, Fail> {
    match input {
        Some(input) => give(replica, input),
        None => match step {
            LaneStep::Ready(host) => take(replica, alloc, host),
            LaneStep::Saved(_, id) => hand_back(replica, id),
            _ => Err(Fail::from("a step that gives no input")),
        },
    }
}

/// What a replica has sent is added to what is on the wire.
fn post(replica: &mut Replica, wire: &mut Vec<Envelope>) -> Result<(), Fail> {
    for _ in 0..1000 {
        match replica.sent() {
            Some(envelope) => wire.push(envelope)?,
            None => return Ok(()),
        }
    }
    Ok(())
}

/// A step at the replica of a host, and what it sends then.
fn at_host(both: &mut Both, alloc: Global, host: u8, step: LaneStep) -> Result<Vec<Note>, Fail> {
    let input = input_of(step, &both.wire)?;
    let place = (host as usize).saturating_sub(1);
    let replica = both.replicas.get_mut(place).ok_or("no such host")?;
    let notes = at_replica(replica, alloc, step, input)?;
    post(replica, &mut both.wire)?;
    Ok(notes)
}

// ---- both

/// Role, term, commit index and ripe index of a host at the lane.
fn of_lane(lane: &Lane, host: u8) -> (Role, u64, u64, u64) {
    (
        lane.role(host),
        lane.term(host),
        lane.commit(host),
        lane.ripe(host),
    )
}

/// The same of a replica.
fn of_replica(replica: &Replica) -> (Role, u64, u64, u64) {
    (
        replica.role(),
        replica.term(),
        replica.commit(),
        replica.ripe(),
    )
}

/// A host is the same at the lane and by itself, and as many envelopes are on the wire.
fn compare(rt: &impl Abort, both: &Both, host: u8) -> Result<(), Fail> {
    let place = (host as usize).saturating_sub(1);
    let replica = both.replicas.get(place).ok_or("no such host")?;
    assert!(rt;
        of_lane(&both.lane, host) == of_replica(replica),
        "another state"
    );
    assert_eq!(rt; both.lane.newest(), both.wire.len() as u64);
    Ok(())
}

/// A step at the lane and at the replica of its host: both note the same, and are the same then.
fn turn(rt: &impl Abort, alloc: Global, both: &mut Both, step: LaneStep) -> Result<(), Fail> {
    let host = host_of(step, &both.wire)?;
    let wanted = at_host(both, alloc, host, step)?;
    match at_lane(&mut both.lane, step) {
        Ok(notes) => assert!(rt; notes == wanted, "other notes"),
        Err(_) => assert!(rt; false, "a refused event"),
    }
    compare(rt, both, host)
}

// ---- what is drawn

fn draw(random: &mut Pcg32, count: u64) -> u64
    requires { 1 ≤ count }
    ensures { result < count }
{
    u64::from(random.next_word()) % count
}

/// One of the last twelve envelopes, where there is one.
fn delivery(random: &mut Pcg32, newest: u64, host: u8) -> LaneStep {
    let back = draw(random, 12);
    if newest == 0 {
        LaneStep::Ready(host)
    } else {
        LaneStep::Deliver(newest.saturating_sub(back).max(1))
    }
}

/// The pending batch of a host was saved, or its next one is taken.
fn saving(lane: &Lane, host: u8) -> LaneStep {
    match lane.batch(host) {
        Some(batch) => LaneStep::Saved(host, batch.id),
        None => LaneStep::Ready(host),
    }
}

fn drawn(random: &mut Pcg32, lane: &Lane, host: u8, serial: u64) -> LaneStep {
    match draw(random, 200) {
        0 => LaneStep::Timeout(host),
        1..=4 => LaneStep::Beat(host),
        5..=10 => LaneStep::Propose(host, serial),
        11..=14 => LaneStep::Ask(host, serial),
        15..=90 => saving(lane, host),
        _ => delivery(random, lane.newest(), host),
    }
}

fn begin(alloc: Global, voters: &[u8]) -> Result<Both, Fail>
    requires { (length voters.now ≤ 7) × All (λ v. (1 ≤ v) × (v ≤ 9)) voters.now }
{
    let mut replicas = Vec::new(alloc);
    for host in 1..10 {
        replicas.push(Replica::new(alloc, 1, host, voters)?)?;
    }
    Ok(Both {
        lane: Lane::new(alloc, 1, voters)?,
        replicas,
        wire: Vec::new(alloc),
    })
}

/// How many entries a group of these voters has decided after 1,999 drawn steps.
fn schedule(rt: &impl Abort, alloc: Global, seed: u64, voters: &[u8]) -> Result<usize, Fail>
    requires { (1 ≤ length voters.now) × (length voters.now ≤ 7) × All (λ v. (1 ≤ v) × (v ≤ 9)) voters.now }
{
    let mut random = Pcg32::new(seed, 54);
    let mut both = begin(alloc, voters)?;
    for serial in 1..2000 {
        let host = voters[draw(&mut random, voters.len() as u64) as usize];
        let step = drawn(&mut random, &both.lane, host, serial);
        turn(rt, alloc, &mut both, step)?;
    }
    Ok(both.lane.decided().len())
}

#[test]
fn lanes_do_what_replicas_do(rt: HostRuntime) -> Result<(), Fail> {
    let alloc = rt.alloc();
    assert!(rt; schedule(&rt, alloc, 1, &[5])? > 10);
    assert!(rt; schedule(&rt, alloc, 2, &[1, 9])? > 10);
    assert!(rt; schedule(&rt, alloc, 3, &[1, 2, 3])? > 10);
    assert!(rt; schedule(&rt, alloc, 4, &[2, 3, 5, 7, 8])? > 3);
    assert!(rt; schedule(&rt, alloc, 5, &[1, 2, 3, 4, 5, 6, 7])? > 1);
    Ok(())
}
