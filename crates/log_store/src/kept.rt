ghost use Rattle.std.specs.Prelude.{◌≡◌, ◌≤◌, ◌<◌, ◌^◌, ◌+◌, ◌++◌, IfOk, OnOk, IsOk, vec_capacity, vec_len};
ghost use Rattle.log_record.specs.Durable.{between, durable_of, nothing_kept, with_batch, with_record};
ghost use Rattle.log_store.specs.Kept.{batch_of, with_entries};

use host_ids::{Batch, Entries, Entry, NoMemory};
use log_record::Record;
use std::alloc::Global;

/// What the batches that were saved keep: the last one's numbers, and the entries after its front.
#[derive(Drop)]
pub(crate) struct Kept {
    /// The term.
    pub(crate) term: u64,
    /// The host that has the vote in this term, 0 for none.
    pub(crate) vote: u8,
    /// The commit index.
    pub(crate) commit: u64,
    /// The index before the first entry.
    pub(crate) front: u64,
    /// The term of the entry at the front, 0 where the front is 0.
    pub(crate) front_term: u64,
    /// The entries after the front.
    pub(crate) entries: Vec<Entry>,
}

impl Kept {
    /// What is kept before the first batch, which takes no memory.
    fn new(alloc: Global) -> Kept
        ensures { batch_of result ≡ nothing_kept }
    {
        Kept {
            term: 0,
            vote: 0,
            commit: 0,
            front: 0,
            front_term: 0,
            entries: Vec::new(alloc),
        }
    }

    /// The entries of a batch take the place of those from its first index on, and those up to its
    /// front go. There is room for them.
    fn lay(&mut self, front: u64, first: u64, mut more: Vec<Entry>) -> Result<(), NoMemory>
        ensures entries { OnOk result (self.new.entries.items ≡ between (batch_of self.old) front first ++ more.items) }
        ensures room { vec_len self.old.entries + vec_len more ≤ vec_capacity self.old.entries → IsOk result }
        ensures fits { first < 2 ^ 64 }
        ensures others { (self.new.term ≡ self.old.term) × (self.new.vote ≡ self.old.vote) × (self.new.commit ≡ self.old.commit) × (self.new.front ≡ self.old.front) × (self.new.front_term ≡ self.old.front_term) }
    {
        let stay = first.saturating_sub(1).saturating_sub(self.front) as usize;
        self.entries.truncate(stay);
        let gone = (front.saturating_sub(self.front) as usize).min(self.entries.len());
        self.entries.append(&mut more)?;
        self.entries.drain(..gone);
        Ok(())
    }

    /// What is kept with a batch, whose entries are given apart, where there is room for them.
    pub(crate) fn take(&mut self, batch: &Batch, more: Vec<Entry>) -> Result<(), NoMemory>
        ensures kept { OnOk result (batch_of self.new ≡ with_batch (batch_of self.old) (with_entries batch.now more.items)) }
        ensures fits { OnOk result (batch.now.first < 2 ^ 64) }
        ensures room { vec_len self.old.entries + vec_len more ≤ vec_capacity self.old.entries → IsOk result }
    {
        self.lay(batch.front, batch.first, more)?;
        self.term = batch.term;
        self.vote = batch.vote;
        self.commit = batch.commit;
        self.front = batch.front;
        self.front_term = batch.front_term;
        Ok(())
    }

    /// What is kept with a record.
    fn take_record(&mut self, alloc: Global, next: Record) -> Result<(), NoMemory>
        ensures { OnOk result (batch_of self.new ≡ with_record (batch_of self.old) next) }
    {
        match next {
            Record::Batch {
                term,
                vote,
                commit,
                front,
                front_term,
                first,
                entries,
            } => {
                let more = entries.into_vec()?;
                self.entries.reserve(more.len())?;
                let batch = Batch {
                    id: 0,
                    term,
                    vote,
                    commit,
                    front,
                    front_term,
                    first,
                    entries: Entries::new(alloc),
                };
                self.take(&batch, more)
            }
            Record::Start { number: _ } => Ok(()),
        }
    }
}

/// What records keep, the first one first.
pub(crate) fn keep(alloc: Global, records: Vec<Record>) -> Result<Kept, NoMemory>
    ensures { IfOk result (λ k. batch_of k ≡ durable_of records.items) }
{
    let mut kept = Kept::new(alloc);
    for record in records {
        kept.take_record(alloc, record)?;
    }
    Ok(kept)
}
