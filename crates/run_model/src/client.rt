use host_ids::Text;

/// A client's side of a session: what it asks next, and what it has had. Source: dissertation
/// section 6.3; the responded value is this project's own.
#[derive(Debug, Drop)]
pub struct ClientSession {
    /// The group that the session is in.
    pub group: u8,
    /// The client, 1 to 2^64-1.
    pub client: u64,
    /// The series of the next command, 1 to 2^64-3.
    pub series: u64,
    /// The client has had the replies of all series up to this one, 0 to 2^64-3.
    pub responded: u64,
    /// The command of the series, while it is outstanding.
    pub outstanding: Option<Text>,
}
