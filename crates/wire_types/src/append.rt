ghost use Rattle.std.specs.Prelude.{◌≡◌};
ghost use Rattle.wire_types.specs.Held.{append_of};

use crate::envelope::{Body, Envelope};
use host_ids::Entries;

/// An Append but for its entries. Source: dissertation section 3.5.
#[derive(Clone, Copy, Debug)]
pub struct AppendHead {
    /// The host that sends it.
    pub from: u8,
    /// The host that it is for.
    pub to: u8,
    /// The group of both replicas.
    pub group: u8,
    /// The term of its sender, from 1.
    pub term: u64,
    /// The index before the first of its entries.
    pub prev: u64,
    /// The term at that index, 0 where the index is 0.
    pub prev_term: u64,
    /// The leader's commit index.
    pub commit: u64,
}

/// The Append of these entries.
pub(crate) fn append_of(head: AppendHead, entries: Entries) -> Envelope
    ensures { result ≡ append_of head entries }
{
    Envelope {
        from: head.from,
        to: head.to,
        group: head.group,
        term: head.term,
        body: Body::Append {
            prev: head.prev,
            prev_term: head.prev_term,
            commit: head.commit,
            entries,
        },
    }
}
