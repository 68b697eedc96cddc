/// What an envelope says, as a line of the output shows it: its kind without its fields. Source: this
/// project's own.
#[derive(Clone, Copy, Debug, PartialEq, Eq)]
pub enum EnvelopeKind {
    /// A candidate asks for a vote.
    Vote,
    /// The answer to a candidate.
    VoteReply,
    /// A leader sends entries.
    Append,
    /// The answer to a leader that sent entries.
    AppendReply,
    /// A leader shows that it leads.
    Beat,
    /// The answer to a beat.
    BeatReply,
    /// A piece of a snapshot.
    SnapChunk,
    /// The answer to a piece of a snapshot.
    SnapReply,
    /// A proposal that is handed on to the leader.
    Propose,
    /// A read that is handed on to the leader.
    ReadAsk,
    /// The leader's answer to a read that was handed on.
    ReadAnswer,
}
