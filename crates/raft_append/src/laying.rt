ghost use Rattle.std.specs.Prelude.{◌≡◌, ◌≤◌, ◌<◌, ◌+◌, ◌^◌, length, drop, IfOk, OnErr, IfSome};
ghost use Rattle.log_view.specs.Log.{last, laid, is_kept};
ghost use Rattle.raft_append.specs.Laying.{laid_from};

use host_ids::{Entries, Entry, NoMemory};
use log_view::Log;

/// Whether an entry of this index and term is passed over: it is committed, or the log has it.
fn is_there(log: &Log, commit: u64, index: u64, term: u64) -> bool
    requires committed { log.now.front ≤ commit }
    ensures { result ≡ is_kept log.now commit index term }
{
    index <= commit || log.term_at(index) == Some(term)
}

/// The first place whose entry isn't in the log.
fn first_new(log: &Log, commit: u64, prev: u64, entries: &[Entry]) -> Option<usize>
    requires front { log.now.front ≤ commit }
    requires committed { commit ≤ last log.now }
    requires reached { prev ≤ last log.now }
    requires fits { prev + length entries.now < 2 ^ 64 }
    ensures laid { laid log.now commit prev entries.now ≡ laid_from log.now prev entries.now result }
    ensures within { IfSome result (λ place. place < length entries.now) }
    ensures beyond { IfSome result (λ place. log.now.front ≤ prev + place) }
    ensures reached { IfSome result (λ place. prev + place ≤ last log.now) }
{
    let mut place = 0;
    for entry in entries {
        if !is_there(log, commit, prev + place as u64 + 1, entry.term) {
            return Some(place);
        }
        place += 1;
    }
    None
}

/// The entries without the first `place` ones. It takes no memory where they are shared, or where none
/// of them goes. The only error is `NoMemory`.
fn from_place(entries: Entries, place: usize) -> Result<Entries, NoMemory>
    requires { place ≤ length entries }
    ensures { IfOk result (λ rest. rest ≡ drop place entries) }
{
    if place == 0 {
        return Ok(entries);
    }
    entries.part(place, entries.items().len() - place)
}

/// The entries are laid into the log, after `prev`; it answers the least index that changed. After
/// `NoMemory`, the only error, the log is as before.
pub(crate) fn lay(
    log: &mut Log,
    commit: u64,
    prev: u64,
    entries: Entries,
) -> Result<Option<u64>, NoMemory>
    requires front { log.old.front ≤ commit }
    requires committed { commit ≤ last log.old }
    requires reached { prev ≤ last log.old }
    requires fits { prev + length entries < 2 ^ 64 }
    ensures ok { IfOk result (λ changed. laid log.old commit prev entries ≡ record { log = log.new; changed_from = changed }) }
    ensures err { OnErr result (log.new ≡ log.old) }
{
    match first_new(log, commit, prev, entries.items()) {
        None => Ok(None),
        Some(place) => {
            let index = prev + place as u64;
            log.append_after(index, from_place(entries, place)?)?;
            Ok(Some(index + 1))
        }
    }
}
