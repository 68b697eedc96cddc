//! What all entries and proposals of a group have stays with them, whatever it is; and entries are
//! numbered.
//!
//! Each law is the contract of a call that does nothing. The laws speak of the definitions of a group
//! alone (`raft_model`), and of every event, a crash and a start among them, in any order. They need
//! nothing of elections or of agreement, and say nothing of either: that is `raft_safety`.
#![tactic(auto)]

ghost use Rattle.raft_entries.specs.Kept.{Stays};
ghost use Rattle.raft_entries.specs.Has.{TestsKeep, ListsKeep};
ghost use Rattle.raft_entries.specs.Numbers.{Numbering};

/// Whatever test all entries and proposals of a group pass, each with its key, they pass after every
/// event; and of whatever list of pairs they are, they are of it after every event.
///
/// It is for whoever knows what is proposed, and wants to know it of all that is decided: that its
/// numbers are in their ranges, say, or that a host asked for it. A replica makes no proposal of its own
/// but the blank of a new leader, so that has to pass too. The entries are those of logs, of what is
/// saved, of pending batches, of envelopes wherever they are, and of the decided list. A start has to come
/// with entries that pass, and what a crash may leave does. The same is said of a replica alone, for
/// whoever keeps one: with each input, and when a batch is taken and saved.
///
/// Not claimed: that a proposal is decided, or once only, or anything of its entry's index and term, nor
/// of the bytes of a snapshot. Source: this project's own.
pub fn entries_keep()
    ensures tests { TestsKeep }
    ensures lists { ListsKeep }
{}

/// From a fresh group on each log, each batch, the entries of each envelope and the decided list are
/// numbered without a gap, and no entry's term is 0 or above that of its replica, batch or envelope.
///
/// It is for whoever counts places by the entries' indexes: the n-th entry of the decided list has the
/// index n, and one in a log comes as far after the front as its index says. To get there it also says
/// where things lie: the commit index from front to last, of logs and of batches; what counts as saved
/// within what is saved or at the front; and a batch no later than right after what is saved, unless its
/// front covers the gap, so that the two make one log again. A start has to come with a batch that is
/// numbered so, and what a crash may leave is one.
///
/// Not claimed: that two replicas agree, that terms ascend in a log, how high those of the decided list
/// are, or anything of a front's term, of an Append's previous term and of a snapshot's place. Source:
/// this project's own.
pub fn entries_numbered()
    ensures { Stays Numbering }
{}
