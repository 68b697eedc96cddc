ghost use Rattle.std.specs.Prelude.{◌≡◌, ◌+◌, ◌^◌, ◌<◌, IfOk, OnOk, OnErr, true, length, max};
ghost use Rattle.object_model.specs.Sequence.{command_verdict};
ghost use Rattle.session_lru.specs.Calls.{kept_reply, raised_to, with_reply};

use crate::replies::Replies;
use host_ids::{NoMemory, Text, Verdict};

/// As many replies are kept at most: their number has four bytes in an image.
const MOST_REPLIES: usize = 4_294_967_295;

/// What a client's session holds. Source: dissertation section 6.3; the responded value is this
/// project's own.
#[derive(Drop)]
pub struct Session {
    /// The client has had the replies of all series up to this one, 0 to 2^64-3.
    pub responded: u64,
    /// The replies of series above that, by their series.
    pub replies: Replies,
}

impl Session {
    /// The verdict of a command of the session's client, with a copy of the reply that a repeat
    /// gets. The only error is `NoMemory`.
    pub(crate) fn verdict(&self, series: u64, responded: u64) -> Result<Verdict, NoMemory>
        ensures { IfOk result (λ v. v ≡ command_verdict true (max self.now.responded responded) series (kept_reply series self.now)) }
    {
        if series <= self.responded.max(responded) {
            return Ok(Verdict::Responded);
        }
        match self.replies.find(series) {
            Some(reply) => Ok(Verdict::RepeatOf {
                reply: reply.copy()?,
            }),
            None => Ok(Verdict::Acts),
        }
    }

    /// Keeps the reply of a series. After `NoMemory`, the only error, all is as before; it also
    /// comes where 2^32-1 replies are kept.
    pub(crate) fn keep(&mut self, series: u64, reply: Text) -> Result<(), NoMemory>
        ensures ok { OnOk result (self.new ≡ with_reply series reply self.old) }
        ensures few { OnOk result (length self.old.replies + 1 < 2 ^ 32) }
        ensures err { OnErr result (self.new ≡ self.old) }
    {
        if self.replies.len() >= MOST_REPLIES {
            return Err(NoMemory);
        }
        self.replies.keep(series, reply)
    }

    /// Raises the responded value to at least this one, and drops the replies up to it.
    pub(crate) fn raise(&mut self, responded: u64)
        ensures { self.new ≡ raised_to responded self.old }
    {
        self.responded = self.responded.max(responded);
        self.replies.drop_to(self.responded);
    }
}
