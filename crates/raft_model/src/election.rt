/// What of a replica its votes depend on. Source: dissertation sections 3.4 and 3.6.
#[derive(Clone, Copy, Debug, PartialEq, Eq)]
pub struct Election {
    /// The replica's term.
    pub term: u64,
    /// The host that has its vote in this term, 0 for none.
    pub vote: u8,
    /// The last index of its log.
    pub last: u64,
    /// The term of that entry, 0 where there is none.
    pub last_term: u64,
    /// Which hosts gave it their vote, by their numbers 1 to 9.
    pub granted: [bool; 10],
    /// Whether it asks for votes in this term.
    pub candidate: bool,
}
