ghost use Rattle.std.specs.Prelude.{◌≡◌, ◌≤◌, ◌<◌, ◌+◌, ◌^◌, length, IfOk, OnErr};
ghost use Rattle.log_view.specs.Log.{last};
ghost use Rattle.raft_model.specs.Appending.{lacks, takes};

use crate::laying::lay;
use host_ids::{Entries, NoMemory};
use log_view::Log;
use raft_model::Appended;

/// A leader of the replica's term sends the entries after `prev`, where its log has `prev_term`.
///
/// `commit` is the replica's commit index, from front to last; the entries are numbered from `prev` + 1
/// on, and their last index is below 2^64; the previous term is 0 where `prev` is 0. It answers
/// `Refused` exactly where the log ends before `prev`, or holds another term there; an index below
/// the front is decided, and isn't compared. Else entries up to the commit index are passed over, and
/// those that the log has with their term; from the first other one on the log's rest goes, and the
/// entries come in its place. After `NoMemory`, the only error, the log is as before. It takes
/// as long as what it moves. Source: dissertation section 3.5.
pub fn on_append(
    log: &mut Log,
    commit: u64,
    prev: u64,
    prev_term: u64,
    entries: Entries,
) -> Result<Appended, NoMemory>
    requires front { log.old.front ≤ commit }
    requires committed { commit ≤ last log.old }
    requires fits { prev + length entries < 2 ^ 64 }
    ensures ok { IfOk result (λ outcome. takes log.old commit prev prev_term entries ≡ record { log = log.new; outcome = outcome }) }
    ensures err { OnErr result (log.new ≡ log.old) }
{
    if is_lacking(log, prev, prev_term) {
        let hint = log.last().min(prev.saturating_sub(1));
        return Ok(Appended::Refused { hint });
    }
    let index = log.front().max(prev + entries.items().len() as u64);
    let changed_from = lay(log, commit, prev, entries)?;
    Ok(Appended::Stored {
        index,
        changed_from,
    })
}

/// Whether the log lacks what an append builds on.
fn is_lacking(log: &Log, prev: u64, prev_term: u64) -> bool
    ensures { result ≡ lacks log.now prev prev_term }
{
    prev > log.last() || (prev >= log.front() && log.term_at(prev) != Some(prev_term))
}
