/// What a replica is in its term. Source: dissertation section 3.3.
#[derive(Clone, Copy, Debug, PartialEq, Eq)]
pub enum Role {
    /// It follows a leader, or knows of none.
    Follower,
    /// It asks for votes.
    Candidate,
    /// It leads the term.
    Leader,
}
