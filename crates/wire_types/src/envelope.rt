ghost use Rattle.std.specs.Prelude.{◌≡◌, IfOk};

use host_ids::{Entries, Key, NoMemory, Proposal, Text};

/// A message from one replica of a group to another.
///
/// Hosts are 1 to 9 and differ; a group is 1 to 64. Source: dissertation chapters 3 to 6; that
/// proposals and reads go from host to host by envelopes of the term 0 is this project's own.
#[derive(Debug, Drop)]
pub struct Envelope {
    /// The host that sent it.
    pub from: u8,
    /// The host that it is for.
    pub to: u8,
    /// The group of both replicas.
    pub group: u8,
    /// The term of its sender, from 1; the term in which its stream was opened for a piece of a
    /// snapshot; 0 for a proposal that is handed on, a read and its answer.
    pub term: u64,
    /// What it says.
    pub body: Body,
}

/// What an envelope says: one of eleven kinds.
///
/// Source: dissertation sections 3.4, 3.5, 5.1, 6.2 and 6.4; hints of where logs part, rounds of
/// beats and pieces of snapshots are this project's own.
#[derive(Debug, Drop)]
pub enum Body {
    /// A candidate asks for a vote.
    Vote {
        /// The last index of its log.
        last: u64,
        /// The term of that entry, 0 where there is none.
        last_term: u64,
    },
    /// The answer to a candidate.
    VoteReply {
        /// Whether it has the vote.
        granted: bool,
    },
    /// A leader sends entries, at most 64, or none.
    Append {
        /// The index before the first of them.
        prev: u64,
        /// The term at that index, 0 where the index is 0.
        prev_term: u64,
        /// The leader's commit index.
        commit: u64,
        /// The entries from `prev` + 1 on.
        entries: Entries,
    },
    /// The answer to a leader that sent entries.
    AppendReply {
        /// Whether the log holds them now.
        ok: bool,
        /// Up to where the log agrees with the leader's; after a refusal, up to where it may agree.
        index: u64,
    },
    /// A leader shows that it leads.
    Beat {
        /// The least of its commit index and what the receiver has matched.
        commit: u64,
        /// Its round of beats, from 1.
        round: u64,
    },
    /// The answer to a beat.
    BeatReply {
        /// The round that is answered, 0 where the beat was of an older term.
        round: u64,
    },
    /// A piece of a snapshot.
    SnapChunk {
        /// The index up to which the snapshot goes.
        index: u64,
        /// The term of that entry, 0 exactly where the index is 0.
        last_term: u64,
        /// Which piece this is, from 1.
        number: u32,
        /// How many there are.
        count: u32,
        /// The size in bytes by which the snapshot was cut, 1 to 65,536.
        size: u32,
        /// The bytes of this piece, at most 65,536.
        bytes: Text,
    },
    /// The answer to a piece of a snapshot.
    SnapReply {
        /// The index up to which the snapshot goes.
        index: u64,
        /// The number of the piece that is wanted next, 0 where the piece was of an older term.
        want: u32,
        /// Whether all that the snapshot covers is there.
        whole: bool,
    },
    /// A proposal that is handed on to the leader.
    Propose {
        /// The request that it came from.
        key: Key,
        /// What is proposed, no blank.
        proposal: Proposal,
    },
    /// A read that is handed on to the leader.
    ReadAsk {
        /// The request that it came from.
        key: Key,
    },
    /// The leader's answer to a read that was handed on.
    ReadAnswer {
        /// The request that it came from.
        key: Key,
        /// The index from which on the read may be answered.
        index: u64,
    },
}

impl Envelope {
    /// Another envelope of the same contents. The only error is `NoMemory`.
    pub fn copy(&self) -> Result<Envelope, NoMemory>
        ensures { IfOk result (λ copy. copy ≡ self.now) }
    {
        Ok(Envelope {
            from: self.from,
            to: self.to,
            group: self.group,
            term: self.term,
            body: self.body.copy()?,
        })
    }
}

impl Body {
    /// Another body of the same contents. The only error is `NoMemory`.
    pub fn copy(&self) -> Result<Body, NoMemory>
        ensures { IfOk result (λ copy. copy ≡ self.now) }
    {
        match self {
            Body::Vote { last, last_term } => Ok(Body::Vote {
                last: *last,
                last_term: *last_term,
            }),
            Body::VoteReply { granted } => Ok(Body::VoteReply { granted: *granted }),
            Body::Append {
                prev,
                prev_term,
                commit,
                entries,
            } => Ok(Body::Append {
                prev: *prev,
                prev_term: *prev_term,
                commit: *commit,
                entries: entries.copy()?,
            }),
            Body::AppendReply { ok, index } => Ok(Body::AppendReply {
                ok: *ok,
                index: *index,
            }),
            Body::Beat { commit, round } => Ok(Body::Beat {
                commit: *commit,
                round: *round,
            }),
            Body::BeatReply { round } => Ok(Body::BeatReply { round: *round }),
            Body::SnapChunk {
                index,
                last_term,
                number,
                count,
                size,
                bytes,
            } => Ok(Body::SnapChunk {
                index: *index,
                last_term: *last_term,
                number: *number,
                count: *count,
                size: *size,
                bytes: bytes.copy()?,
            }),
            Body::SnapReply { index, want, whole } => Ok(Body::SnapReply {
                index: *index,
                want: *want,
                whole: *whole,
            }),
            Body::Propose { key, proposal } => Ok(Body::Propose {
                key: *key,
                proposal: proposal.copy()?,
            }),
            Body::ReadAsk { key } => Ok(Body::ReadAsk { key: *key }),
            Body::ReadAnswer { key, index } => Ok(Body::ReadAnswer {
                key: *key,
                index: *index,
            }),
        }
    }
}
