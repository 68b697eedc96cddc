ghost use Rattle.std.specs.Prelude.{◌≡◌, ◌+◌, ◌<◌, ◌^◌, ◌&&◌, true};
ghost use Rattle.log_record.specs.Record.{is_record};
ghost use Rattle.wire_types.specs.Grammar.{is_end};
ghost use Rattle.log_record.specs.Store.{after, batch_follows, follows, is_log, no_gap, nothing_yet};

use crate::record::Record;

/// What the records of a file reach, by which the next one is judged.
///
/// In the file of starts that is the last start's number. In a group's log it is the last batch's
/// term, commit index and front, and the index of the last entry.
#[derive(Clone, Copy, Debug, PartialEq, Eq)]
pub struct Reached {
    /// The number of the last start, 0 before the first.
    pub number: u64,
    /// The term.
    pub term: u64,
    /// The commit index.
    pub commit: u64,
    /// The index before the first entry that is kept.
    pub front: u64,
    /// The index of the last entry, or the front where there is none.
    pub last: u64,
}

impl Reached {
    /// What a file without records reaches.
    pub fn new() -> Reached
        ensures { result ≡ nothing_yet }
    {
        Reached {
            number: 0,
            term: 0,
            commit: 0,
            front: 0,
            last: 0,
        }
    }

    /// Whether a well-formed record may follow in this file.
    ///
    /// File 0 holds starts, with the numbers 1, 2, 3 and so on. File 1000 G holds the batches of
    /// group G: a batch's entries begin after its front and leave no gap after the old log or the
    /// front, its commit index lies from the front to the last entry, its front's term is 0 exactly
    /// where the front is 0, and term, commit index and front don't fall. Other files hold nothing
    /// yet.
    pub fn follows(&self, file: u64, record: &Record) -> bool
        requires { is_record record.now ≡ true }
        ensures { result ≡ follows file self.now record.now }
    {
        match record {
            Record::Batch {
                term,
                vote: _,
                commit,
                front,
                front_term,
                first,
                entries,
            } => {
                let count = entries.items().len() as u64;
                self.is_followed_by(file, *term, *commit, *front, *front_term, *first, count)
            }
            Record::Start { number } => { file == 0 && 1 <= *number && *number - 1 == self.number }
        }
    }

    /// Whether a batch with these numbers may follow in this file.
    pub(crate) fn is_followed_by(
        &self,
        file: u64,
        term: u64,
        commit: u64,
        front: u64,
        front_term: u64,
        first: u64,
        count: u64,
    ) -> bool
        requires { first + count < 2 ^ 64 }
        ensures { result ≡ (is_log file && batch_follows self.now term commit front front_term first count) }
    {
        let is_log = file != 0 && file % 1000 == 0;
        is_log
            && self.leaves_no_gap(front, first)
            && front <= commit
            && commit < first + count
            && is_end(front, front_term)
            && self.term <= term
            && self.commit <= commit
            && self.front <= front
    }

    /// Whether entries from `first` on begin after the front and leave no gap.
    fn leaves_no_gap(&self, front: u64, first: u64) -> bool
        ensures { result ≡ no_gap self.now front first }
    {
        front < first && (first - 1 <= self.last || first - 1 == front)
    }

    /// What is reached with a record that follows.
    pub fn take(&mut self, file: u64, record: &Record)
        requires formed { is_record record.now ≡ true }
        requires follows { follows file self.old record.now ≡ true }
        ensures { self.new ≡ after self.old record.now }
    {
        match record {
            Record::Batch {
                term,
                vote: _,
                commit,
                front,
                front_term: _,
                first,
                entries,
            } => {
                self.term = *term;
                self.commit = *commit;
                self.front = *front;
                self.last = *first - 1 + entries.items().len() as u64;
            }
            Record::Start { number } => self.number = *number,
        }
    }
}

/// Whether the term of the entry at an index is 0 exactly where the index is 0.
fn is_end(index: u64, term: u64) -> bool
    ensures { result ≡ is_end index term }
{
    (index == 0) == (term == 0)
}
