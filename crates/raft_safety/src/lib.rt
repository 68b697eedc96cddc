//! The safety of a group, over every list of events: one leader a term, one decided list, and reads
//! that cover all that was decided when they were asked.
//!
//! Each law is the contract of a call that does nothing. The laws speak of the definitions of a group
//! alone (`raft_model`), and of every event: timeouts, deliveries in any order and any number, saves,
//! proposals, reads, crashes, starts from what a crash may leave, compaction, and snapshots in pieces.
#![tactic(auto)]

ghost use Rattle.raft_safety.specs.OneList.{OneList};
ghost use Rattle.raft_safety.specs.ReadFront.{ReadFront, FirstAsk};
ghost use Rattle.raft_safety.specs.Runs.{BeginsToRun, GoesOnToRun, RunsAsOne, ActsAsOne, ActsFronted};
ghost use Rattle.raft_safety.specs.Agreed.{BeginsKept, StaysKept, PlainKept, AgreesWhereKept};
ghost use Rattle.raft_safety.specs.Rounds.{BeginsReads, StaysReads, NotesFronts};

/// One leader a term and one list, over every list of allowed events, crashes, starts and snapshots among
/// them, from a group that has just begun.
///
/// Between any two moments: no two hosts lead a term, one before and one now either; the decided list
/// goes on; and what any replica had committed before or has committed now, and so all that it may
/// apply, is of the list of now. Source: dissertation section 3.6, its election safety, its leader
/// completeness and its state machine safety.
pub fn one_list()
    ensures { OneList }
{}

/// A confirmed read is answered from all that was decided when it was asked, over every list of allowed
/// events from a group that has just begun.
///
/// Where a read is confirmed with an index, that index is at least the length that the decided list had
/// when a read with its key was first asked. Source: dissertation section 6.4.
pub fn read_front()
    ensures fronts { ReadFront }
    ensures first { FirstAsk }
{}

/// A list of allowed events leads from a group that has just begun to itself, and goes on with each
/// event that is allowed where it comes.
pub fn runs_go_on()
    ensures begins { BeginsToRun }
    ensures goes_on { GoesOnToRun }
{}

/// The same for whoever keeps a group, and knows only that such a list of events led to it; and what its
/// next event notes of a read has its front.
pub fn runs_as_one()
    ensures runs { RunsAsOne }
    ensures acts { ActsAsOne }
    ensures fronts { ActsFronted }
{}

/// A group begins with the invariant, each allowed event keeps it, and where it holds the group has
/// agreed: up to its commit index each replica holds the decided list, and no two hosts lead a term.
/// Source: dissertation section 3.6.
pub fn groups_agree()
    ensures begins { BeginsKept }
    ensures stays { StaysKept }
    ensures plain { PlainKept }
    ensures agrees { AgreesWhereKept }
{}

/// What holds of a group's reads, for one who keeps it of a group event by event: a group begins with it,
/// each allowed event keeps it, and such an event notes a read as confirmed only with its front. Source:
/// dissertation section 6.4.
pub fn reads_stay()
    ensures begins { BeginsReads }
    ensures stays { StaysReads }
    ensures fronts { NotesFronts }
{}
