ghost use Rattle.std.specs.Prelude.{◌≡◌, ◌≤◌, ◌<◌, ◌+◌, ◌^◌, ◌==◌, ◌||◌, ◌∷◌, nat_le, length, true, false, None, IfSome, OnOk, OnErr, IfOk};
ghost use Rattle.std.specs.List.{All};
ghost use Rattle.roster.specs.Roster.{at, is_majority};
ghost use Rattle.read_index.specs.Reads.{no_reads, closed, next_round, opened, answers_round, is_answered};

use host_ids::{Key, NoMemory};
use roster::has_reached;
use std::alloc::Global;
use std::collections::VecDeque;
use std::marker::Model;

/// A read that waits until a majority has answered its round of beats. Source: dissertation section
/// 6.4.
#[derive(Clone, Copy, Debug, PartialEq, Eq)]
pub struct OpenRead {
    /// The request that it came from.
    pub key: Key,
    /// The host that it was asked at.
    pub origin: u8,
    /// The leader's commit index when it opened.
    pub index: u64,
    /// The round of beats that began with it.
    pub round: u64,
}

/// What a leader keeps of reads: the last round of beats, the greatest round that each voter answered,
/// and the open reads in the order of opening.
///
/// It is a fact of this type that the rounds of the open reads don't fall and are at most the last one. So
/// the reads that a majority has answered come before those that wait on, and a confirmation costs what
/// it confirms, and one look more.
/// Source: dissertation section 6.4; rounds are this project's own.
#[derive(Debug, Drop)]
pub struct Reads {
    round: u64,
    answered: [u64; 10],
    waiting: VecDeque<OpenRead>,
}

impl Model for Reads {
    ghost use Rattle.read_index.specs.Reads.{Reads, AscendTo};

    ghost Value = { Reads };

    ghost view = { λ a. record { round = a.round; answered = a.answered; waiting = a.waiting.items } };

    ghost invariant = { λ a. AscendTo a.round a.waiting.items };
}

impl Reads {
    /// No round yet, no answer and no read, which takes no memory.
    pub fn new(alloc: Global) -> Reads
        ensures { result ≡ no_reads }
    {
        Reads {
            round: 0,
            answered: [0; 10],
            waiting: VecDeque::new(alloc),
        }
    }

    /// The last round, 0 where none has begun.
    pub fn round(&self) -> u64
        ensures { result ≡ self.now.round }
    {
        self.round
    }

    /// A round begins, and a read opens for it at the index `commit`. It answers the round. The last round
    /// is below 2^64-1. The only error is `NoMemory`; then all is as before.
    pub fn ask(&mut self, key: Key, origin: u8, commit: u64) -> Result<u64, NoMemory>
        requires room { self.old.round + 1 < 2 ^ 64 }
        ensures reads { OnOk result (self.new ≡ opened key origin commit (next_round self.old)) }
        ensures round { IfOk result (λ round. round ≡ self.old.round + 1) }
        ensures err { OnErr result (self.new ≡ self.old) }
    {
        let round = self.round + 1;
        self.waiting.push_back(OpenRead {
            key,
            origin,
            index: commit,
            round,
        })?;
        self.round = round;
        Ok(round)
    }

    /// A round begins without a read. It answers the round. The last round is below 2^64-1.
    pub fn beat(&mut self) -> u64
        requires room { self.old.round + 1 < 2 ^ 64 }
        ensures reads { self.new ≡ next_round self.old }
        ensures round { result ≡ self.new.round }
    {
        self.round += 1;
        self.round
    }

    /// All open reads go, unconfirmed; all else stays.
    pub fn close(&mut self)
        ensures { self.new ≡ closed self.old }
    {
        self.waiting.clear();
    }

    /// A voter, at most 9, has answered a round: the greatest one that it answered is kept.
    pub fn on_beat_reply(&mut self, from: u8, round: u64)
        requires host { from ≤ 9 }
        ensures { self.new ≡ answers_round from round self.old }
    {
        let answered = &mut self.answered[from as usize];
        *answered = round.max(*answered);
    }

    /// Removes and answers the first open read whose round a majority of the voters, `me` among it, has
    /// answered; `None` exactly where there is none, and then all is as before. `voters` are hosts, each
    /// at most 9, and at most 7 of them; `me` is at most 9 too.
    ///
    /// Such a read is the first of all open reads, and each call costs one look at that one.
    pub fn confirmed(&mut self, voters: &[u8], me: u8) -> Option<OpenRead>
        requires few { length voters.now ≤ 7 }
        requires hosts { All (λ v. v ≤ 9) voters.now }
        requires me { me ≤ 9 }
        ensures some { IfSome result (λ read. is_answered voters.now me self.old read ≡ true) }
        ensures first { IfSome result (λ read. self.old.waiting ≡ read ∷ self.new.waiting) }
        ensures stays { self.new ≡ record self.old { waiting = self.new.waiting } }
        ensures none { result ≡ None → All (λ read. is_answered voters.now me self.old read ≡ false) self.old.waiting }
        ensures kept { result ≡ None → self.new ≡ self.old }
    {
        match self.waiting.front() {
            None => return None,
            Some(first) => {
                if !has_answers(&self.answered, first.round, voters, me) {
                    return None;
                }
            }
        }
        self.waiting.pop_front()
    }
}

/// Whether a majority of the voters, `me` among it, has answered a round.
fn has_answers(answered: &[u64; 10], round: u64, voters: &[u8], me: u8) -> bool
    requires few { length voters.now ≤ 7 }
    requires hosts { All (λ v. v ≤ 9) voters.now }
    requires me { me ≤ 9 }
    ensures { result ≡ is_majority voters.now (λ v. (v == me) || nat_le round (at answered.now v)) }
{
    let mut reached = *answered;
    reached[me as usize] = round;
    has_reached(voters, &reached, round)
}
