ghost use Rattle.std.specs.Prelude.{◌≡◌};
ghost use Rattle.log_view.specs.Tallies.{command_length, tally_of_none, tally_with, tally_with_all};

use host_ids::{Entry, Proposal};

/// What a log keeps of its entries beside them, so that nobody has to go over them.
///
/// If `rises` is true, no term falls below one before it; no command is longer than `longest`. Source:
/// this project's own.
#[derive(Clone, Copy, Debug)]
pub(crate) struct Tally {
    pub(crate) rises: bool,
    pub(crate) longest: usize,
}

impl Tally {
    /// The tally of no entries.
    pub(crate) fn new() -> Tally
        ensures { result ≡ tally_of_none }
    {
        Tally {
            rises: true,
            longest: 0,
        }
    }

    /// The tally with one entry more, which comes after an entry of the term `before`.
    pub(crate) fn with(self, before: u64, entry: &Entry) -> Tally
        ensures { result ≡ tally_with self before entry.now }
    {
        Tally {
            rises: self.rises && before <= entry.term,
            longest: self.longest.max(command_length(&entry.proposal)),
        }
    }

    /// The tally with these entries more, which come after an entry of the term `before`. It takes a
    /// step for each of them.
    pub(crate) fn with_all(self, mut before: u64, entries: &[Entry]) -> Tally
        ensures { result ≡ tally_with_all self before entries.now }
    {
        let mut tally = self;
        for entry in entries {
            tally = tally.with(before, entry);
            before = entry.term;
        }
        tally
    }
}

/// The length of a proposal's command, 0 where it has none.
fn command_length(proposal: &Proposal) -> usize
    ensures { result ≡ command_length proposal.now }
{
    match proposal {
        Proposal::Plain { command } | Proposal::Session { command, .. } => command.bytes().len(),
        Proposal::Blank | Proposal::Register { .. } | Proposal::Close { .. } => 0,
    }
}
