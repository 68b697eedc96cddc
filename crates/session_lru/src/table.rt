ghost use Rattle.std.specs.Prelude.{◌≡◌, ◌≢◌, ◌≤◌, ◌<◌, ◌-◌, ◌^◌, ℕ, List, [], ◌∷◌, length, true, false, IfOk, OnOk, OnErr};
ghost use Rattle.host_ids.specs.declared.proposal.Proposal.{Proposal};
ghost use Rattle.object_model.specs.Object.{after};
ghost use Rattle.object_model.specs.Sequence.{state, verdict};
ghost use Rattle.session_lru.specs.Calls.{session_of, register_verdict, registered, close_verdict, closed, admit_verdict, admitted, kept_by, MayKeep};
ghost use Rattle.session_lru.specs.Section.{has_client, is_session};
ghost use Rattle.session_lru.specs.Law.{StandsFor, Awaits, HasActed, IsGone};
ghost use Rattle.host_ids.specs.declared.proposal.TheConstants.{MOST_COMMAND, MOST_SERIES, MOST_SESSIONS};

use crate::replies::Replies;
use crate::session::Session;
use host_ids::{NoMemory, Text, Verdict};
use lru::LruCache;
use object_model::{acts_once, stays_gone};
use std::alloc::Global;
use std::marker::Model;
use std::num::NonZeroUsize;

/// The sessions of a group's clients, at most as many as the limit, in order of their last touch.
///
/// Clauses see it as the record of its limit and of its sessions, the one touched last first. Each
/// call takes a time that doesn't grow with the number of sessions, but for `fits`, `image` and
/// `from_image`, whose time grows with the image. Source: dissertation section 6.3; eviction by the
/// last touch is this project's own.
#[derive(Drop)]
pub struct SessionTable {
    pub(crate) alloc: Global,
    pub(crate) cache: LruCache<u64, Session>,
}

impl Model for SessionTable {
    ghost use Rattle.std.specs.Prelude.{◌≡◌, true};
    ghost use Rattle.session_lru.specs.Table.{Table};
    ghost use Rattle.session_lru.specs.Section.{is_table};

    ghost Value = { Table };

    ghost view = { λ t. record { limit = t.cache.cap; sessions = t.cache.entries } };

    ghost invariant = { λ t. is_table (record { limit = t.cache.cap; sessions = t.cache.entries }) ≡ true };
}

impl SessionTable {
    /// Puts a session first that stands after those that are there. After `NoMemory`, the only
    /// error, all is as before.
    pub(crate) fn adopt(&mut self, client: u64, state: Session) -> Result<(), NoMemory>
        requires new { has_client client self.old.sessions ≡ false }
        requires room { length self.old.sessions < self.old.limit }
        requires state { is_session (client, state) ≡ true }
        ensures ok { OnOk result (self.new ≡ record self.old { sessions = (client, state) ∷ self.old.sessions }) }
    {
        self.cache.put(client, state)?;
        Ok(())
    }

    /// A table without sessions, in which at most `limit`, 1 to 4,096, may stand. The only error is
    /// `NoMemory`.
    pub fn new(alloc: Global, limit: u32) -> Result<SessionTable, NoMemory>
        requires { (1 ≤ limit) × (limit ≤ MOST_SESSIONS) }
        ensures table { IfOk result (λ t. t ≡ record { limit = limit; sessions = [] }) }
        ensures stands { IfOk result (λ t. StandsFor [] t) }
    {
        let capacity = NonZeroUsize::new(limit as usize).unwrap();
        let cache = LruCache::new(alloc, capacity)?;
        Ok(SessionTable { alloc, cache })
    }

    /// Begins a session of a client, 1 to 2^64-1: it answers `Acts`, or `Taken` where the client has
    /// one already, which isn't touched. Where as many sessions stand as may, the one touched longest
    /// ago is evicted. After `NoMemory`, the only error, all is as before, the order too.
    pub fn register(&mut self, client: u64) -> Result<Verdict, NoMemory>
        requires { 1 ≤ client }
        ensures verdict { IfOk result (λ v. v ≡ register_verdict (session_of client self.old)) }
        ensures table { OnOk result (self.new ≡ registered client (session_of client self.old) self.old) }
        ensures err { OnErr result (self.new ≡ self.old) }
        ensures judges { (history : List Proposal) → StandsFor history self.old → IfOk result (λ v. v ≡ verdict self.old.limit history (Proposal.Register client)) }
        ensures stands { (history : List Proposal) → StandsFor history self.old → OnOk result (StandsFor (Proposal.Register client ∷ history) self.new) }
    {
        if self.cache.contains(&client) {
            return Ok(Verdict::Taken);
        }
        let session = Session {
            responded: 0,
            replies: Replies::new(self.alloc),
        };
        self.cache.put(client, session)?;
        Ok(Verdict::Acts)
    }

    /// Ends the session of a client, 1 to 2^64-1: it answers `Acts`, or `NotStanding` where the
    /// client has none. It takes no memory.
    pub fn close(&mut self, client: u64) -> Verdict
        requires { 1 ≤ client }
        ensures verdict { result ≡ close_verdict (session_of client self.old) }
        ensures table { self.new ≡ closed client self.old }
        ensures judges { (history : List Proposal) → StandsFor history self.old → result ≡ verdict self.old.limit history (Proposal.Close client) }
        ensures stands { (history : List Proposal) → StandsFor history self.old → StandsFor (Proposal.Close client ∷ history) self.new }
    {
        match self.cache.pop(&client) {
            Some(_) => Verdict::Acts,
            None => Verdict::NotStanding,
        }
    }

    /// Judges a command of a client, 1 to 2^64-1, by its series, 1 to 2^64-3, where the client has
    /// had the replies up to `responded`, 0 to 2^64-3.
    ///
    /// It answers `NotStanding` where the client has no session; else the session is touched and its
    /// responded value rises, and the answer is `Responded` for a series up to that value, `RepeatOf`
    /// where a reply of the series is kept, and `Acts` else: then the command is to be given to the
    /// object, and its reply to `keep`. After `NoMemory`, the only error, all is as before, the
    /// order too.
    pub fn admit(&mut self, client: u64, series: u64, responded: u64) -> Result<Verdict, NoMemory>
        requires client_in { 1 ≤ client }
        requires series_in { (1 ≤ series) × (series ≤ MOST_SERIES) }
        requires responded_in { responded ≤ MOST_SERIES }
        ensures verdict { IfOk result (λ v. v ≡ admit_verdict (session_of client self.old) series responded) }
        ensures table { OnOk result (self.new ≡ admitted client responded (session_of client self.old) self.old) }
        ensures err { OnErr result (self.new ≡ self.old) }
        ensures judges { (history : List Proposal) (command : List ℕ) → StandsFor history self.old → IfOk result (λ v. v ≡ verdict self.old.limit history (Proposal.Session client series responded command)) }
        ensures stands { (history : List Proposal) (command : List ℕ) → StandsFor history self.old → IfOk result (λ v. v ≢ Verdict.Acts → StandsFor (Proposal.Session client series responded command ∷ history) self.new) }
        ensures awaits { (history : List Proposal) (command : List ℕ) → StandsFor history self.old → IfOk result (λ v. v ≡ Verdict.Acts → Awaits history client series responded command self.new) }
        ensures may_keep { (reply : List ℕ) → length reply ≤ MOST_COMMAND → IfOk result (λ v. v ≡ Verdict.Acts → MayKeep client series reply self.new) }
        ensures once { HasActed client series self.old → IfOk result (λ v. v ≢ Verdict.Acts) }
        ensures gone { IsGone client self.old → IfOk result (λ v. v ≡ Verdict.NotStanding) }
    {
        acts_once();
        stays_gone();
        let verdict = match self.cache.peek(&client) {
            Some(session) => session.verdict(series, responded)?,
            None => return Ok(Verdict::NotStanding),
        };
        if let Some(session) = self.cache.get_mut(&client) {
            session.raise(responded);
        }
        Ok(verdict)
    }

    /// Keeps the reply, of at most 512 bytes, of a command that acted: its client stands, its series
    /// is above the responded value and has no kept reply. The session isn't touched. After
    /// `NoMemory`, the only error, all is as before; it also comes where the session keeps 2^32-1
    /// replies.
    pub fn keep(&mut self, client: u64, series: u64, reply: Text) -> Result<(), NoMemory>
        requires client_in { 1 ≤ client }
        requires series_in { (1 ≤ series) × (series ≤ MOST_SERIES) }
        requires may { MayKeep client series reply self.old }
        ensures table { OnOk result (self.new ≡ kept_by client series reply (session_of client self.old) self.old) }
        ensures err { OnErr result (self.new ≡ self.old) }
        ensures stands { (history : List Proposal) (responded : ℕ) (command : List ℕ) → Awaits history client series responded command self.old → reply ≡ (after (state self.old.limit history) command).reply → OnOk result (StandsFor (Proposal.Session client series responded command ∷ history) self.new) }
    {
        match self.cache.peek_mut(&client) {
            Some(session) => session.keep(series, reply),
            None => Ok(()),
        }
    }
}
