ghost use Rattle.std.specs.Prelude.{◌≡◌, IfOk};

use crate::entries::Entries;
use crate::memory::NoMemory;

/// What a replica saves in one step, or all that it has saved.
///
/// Source: dissertation section 3.8 for what is saved; the saved commit index and the front are this
/// project's own.
#[derive(Debug, Drop)]
pub struct Batch {
    /// The number of the batch, from 1, by which it is handed back.
    pub id: u64,
    /// The term.
    pub term: u64,
    /// The host that has the vote in this term, 0 for none.
    pub vote: u8,
    /// The commit index.
    pub commit: u64,
    /// The index before the first entry that is kept, 0 where all are.
    pub front: u64,
    /// The term of the entry at the front, 0 where the front is 0.
    pub front_term: u64,
    /// The index of the first entry of the batch.
    pub first: u64,
    /// The entries from there on.
    pub entries: Entries,
}

impl Batch {
    /// The same batch once more. Where its entries are shared it takes no memory, and the only error is
    /// that there are too many copies to count them; else the entries are copied, and memory may run out.
    pub fn copy(&self) -> Result<Batch, NoMemory>
        ensures { IfOk result (λ copy. copy ≡ self.now) }
    {
        Ok(Batch {
            id: self.id,
            term: self.term,
            vote: self.vote,
            commit: self.commit,
            front: self.front,
            front_term: self.front_term,
            first: self.first,
            entries: self.entries.copy()?,
        })
    }
}
