use host_ids::Text;

/// A piece of a snapshot.
///
/// Pieces belong together where all but number and bytes agree. Source: dissertation section 5.1;
/// the fields are this project's own.
#[derive(Debug, Drop)]
pub struct Chunk {
    /// The term in which the stream was opened.
    pub term: u64,
    /// The index up to which the snapshot goes.
    pub index: u64,
    /// The term of that entry, 0 exactly where the index is 0.
    pub last_term: u64,
    /// Which piece this is, from 1.
    pub number: u32,
    /// How many there are, at most 2^32-2.
    pub count: u32,
    /// The size in bytes by which the snapshot was cut, 1 to 65,536.
    pub size: u32,
    /// The bytes of this piece, at most 65,536.
    pub bytes: Text,
}
