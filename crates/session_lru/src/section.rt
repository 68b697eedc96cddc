ghost use Rattle.std.specs.Prelude.{◌≡◌, ◌+◌, ◌-◌, ◌^◌, ◌<◌, ◌≤◌, ◌++◌, ℕ, suc, Ok, Err, Some, true, IfOk, OnOk, IfSome, IsNone, IsErrOf, length, min, nat_lt, take, drop};
ghost use Rattle.std.specs.List.{list_all, flat_map};
ghost use Rattle.std.specs.Int.{from_be_bytes, to_be_bytes, w16, w32, w64};
ghost use Rattle.session_lru.specs.Section.{session_bytes, section, is_session, are_replies, with_first, reply_bytes, is_short, read_replies, read_sessions, read_section};
ghost use Rattle.session_lru.specs.declared.section.TableFault.TheVariants.{NoMemory as OutOfMemory};
ghost use Rattle.host_ids.specs.declared.proposal.TheConstants.{MOST_SERIES};

use crate::replies::Replies;
use crate::session::Session;
use crate::table::SessionTable;
use byteorder::{BigEndian, ByteOrder};
use host_ids::{MOST_SERIES, MOST_SESSIONS, NoMemory, Text};
use std::alloc::{AllocError, Global};
use thiserror::Error;

/// Why bytes gave no table. Source: this project's own.
#[derive(Clone, Copy, Debug, PartialEq, Eq, Error)]
pub enum TableFault {
    /// The bytes are no table's image.
    #[error("no table of sessions: byte {at}")]
    NotTable {
        /// The place, from 0, of the first field that is refused or cut short, or of the first byte
        /// after the last field.
        at: usize,
    },
    /// An allocation was refused. It may come at any call that says so, and no clause ties it to a
    /// cause.
    #[error("memory ran out")]
    NoMemory,
}

impl From<AllocError> for TableFault {
    ghost from_gives = { λ _ e. e ≡ OutOfMemory };

    fn from(_: AllocError) -> TableFault {
        TableFault::NoMemory
    }
}

impl From<NoMemory> for TableFault {
    ghost from_gives = { λ _ e. e ≡ OutOfMemory };

    fn from(_: NoMemory) -> TableFault {
        TableFault::NoMemory
    }
}

/// Adds a number in two bytes.
fn put_16(out: &mut Vec<u8>, number: u16) -> Result<(), NoMemory>
    ensures { OnOk result (out.new.items ≡ out.old.items ++ to_be_bytes w16 number) }
{
    let mut field = [0; 2];
    BigEndian::write_u16(&mut field, number);
    out.extend_from_slice(&field)?;
    Ok(())
}

/// Adds a number in four bytes.
fn put_32(out: &mut Vec<u8>, number: u32) -> Result<(), NoMemory>
    ensures { OnOk result (out.new.items ≡ out.old.items ++ to_be_bytes w32 number) }
{
    let mut field = [0; 4];
    BigEndian::write_u32(&mut field, number);
    out.extend_from_slice(&field)?;
    Ok(())
}

/// Adds a number in eight bytes.
fn put_64(out: &mut Vec<u8>, number: u64) -> Result<(), NoMemory>
    ensures { OnOk result (out.new.items ≡ out.old.items ++ to_be_bytes w64 number) }
{
    let mut field = [0; 8];
    BigEndian::write_u64(&mut field, number);
    out.extend_from_slice(&field)?;
    Ok(())
}

/// The next `count` bytes from a place on, if there are that many.
fn part(bytes: &[u8], at: usize, count: usize) -> Option<&[u8]>
    requires { at ≤ length bytes.now }
    ensures there { IfSome result (λ p. at + count ≤ length bytes.now) }
    ensures part { IfSome result (λ p. p.now ≡ take count (drop at bytes.now)) }
    ensures cut { IsNone result → length bytes.now < at + count }
{
    if bytes.len() - at < count {
        return None;
    }
    Some(&bytes[at..at + count])
}

/// The number in two bytes at a place.
fn number_16(bytes: &[u8], at: usize) -> Option<u16>
    requires { at ≤ length bytes.now }
    ensures there { IfSome result (λ n. at + 2 ≤ length bytes.now) }
    ensures number { IfSome result (λ n. n ≡ from_be_bytes w16 (take 2 (drop at bytes.now))) }
    ensures cut { IsNone result → length bytes.now < at + 2 }
{
    Some(BigEndian::read_u16(part(bytes, at, 2)?))
}

/// The number in four bytes at a place.
fn number_32(bytes: &[u8], at: usize) -> Option<u32>
    requires { at ≤ length bytes.now }
    ensures there { IfSome result (λ n. at + 4 ≤ length bytes.now) }
    ensures number { IfSome result (λ n. n ≡ from_be_bytes w32 (take 4 (drop at bytes.now))) }
    ensures cut { IsNone result → length bytes.now < at + 4 }
{
    Some(BigEndian::read_u32(part(bytes, at, 4)?))
}

/// The number in eight bytes at a place.
fn number_64(bytes: &[u8], at: usize) -> Option<u64>
    requires { at ≤ length bytes.now }
    ensures there { IfSome result (λ n. at + 8 ≤ length bytes.now) }
    ensures number { IfSome result (λ n. n ≡ from_be_bytes w64 (take 8 (drop at bytes.now))) }
    ensures cut { IsNone result → length bytes.now < at + 8 }
{
    Some(BigEndian::read_u64(part(bytes, at, 8)?))
}

/// A reply as bytes hold it, and the place after it.
#[derive(Drop)]
struct Spelt {
    series: u64,
    reply: Text,
    next: usize,
}

/// The reply at a place, whose series is above `before`.
fn read_reply(alloc: Global, bytes: &[u8], at: usize, before: u64) -> Result<Spelt, TableFault>
    requires { at ≤ length bytes.now }
    ensures reads { (n : ℕ) → IfOk result (λ r. read_replies (suc n) before at (drop at bytes.now) ≡ with_first (r.series, r.reply) (read_replies n r.series r.next (drop r.next bytes.now))) }
    ensures within { IfOk result (λ r. r.next ≤ length bytes.now) }
    ensures good { IfOk result (λ r. (before < r.series) × (r.series ≤ MOST_SERIES) × (length r.reply < 2 ^ 16)) }
    ensures not_table { (n place : ℕ) → IsErrOf result (TableFault.NotTable place) → read_replies (suc n) before at (drop at bytes.now) ≡ Err place }
{
    let series = match number_64(bytes, at) {
        Some(series) => series,
        None => return Err(TableFault::NotTable { at }),
    };
    if series <= before || MOST_SERIES < series {
        return Err(TableFault::NotTable { at });
    }
    let size = match number_16(bytes, at + 8) {
        Some(size) => usize::from(size),
        None => return Err(TableFault::NotTable { at: at + 8 }),
    };
    match part(bytes, at + 10, size) {
        Some(text) => Ok(Spelt {
            series,
            reply: Text::new(alloc, text)?,
            next: at + 10 + size,
        }),
        None => Err(TableFault::NotTable { at: at + 10 }),
    }
}

impl Replies {
    /// Adds the replies to a text, by ascending series: what they are in an image.
    fn spell(&self, out: &mut Vec<u8>) -> Result<(), NoMemory>
        requires { list_all is_short self.now ≡ true }
        ensures { OnOk result (out.new.items ≡ out.old.items ++ flat_map reply_bytes self.now) }
    {
        for (series, reply) in self.held.iter() {
            put_64(out, *series)?;
            put_16(out, reply.bytes().len() as u16)?;
            out.extend_from_slice(reply.bytes())?;
        }
        Ok(())
    }

    /// How many bytes they have in an image, at most 2^64-1.
    fn size(&self) -> u64
        ensures { result ≡ min (length (flat_map reply_bytes self.now)) (2 ^ 64 - 1) }
    {
        let mut size: u64 = 0;
        for (_, reply) in self.held.iter() {
            size = size
                .saturating_add(10)
                .saturating_add(reply.bytes().len() as u64);
        }
        size
    }

    /// The next `count` replies from a place on, of series above `responded`, and the place after them.
    fn read(
        alloc: Global,
        bytes: &[u8],
        at: usize,
        responded: u64,
        count: u32,
    ) -> Result<(Replies, usize), TableFault>
        requires { at ≤ length bytes.now }
        ensures reads { IfOk result (λ r. read_replies count responded at (drop at bytes.now) ≡ Ok (record { value = r.0; at = r.1; bytes = drop r.1 bytes.now })) }
        ensures within { IfOk result (λ r. r.1 ≤ length bytes.now) }
        ensures good { IfOk result (λ r. are_replies responded r.0 ≡ true) }
        ensures counted { IfOk result (λ r. length r.0 ≡ count) }
        ensures not_table { (place : ℕ) → IsErrOf result (TableFault.NotTable place) → read_replies count responded at (drop at bytes.now) ≡ Err place }
    {
        let mut replies = Replies::new(alloc);
        let mut before = responded;
        let mut next = at;
        for read in 0..count {
            let spelt = read_reply(alloc, bytes, next, before)?;
            replies.keep(spelt.series, spelt.reply)?;
            before = spelt.series;
            next = spelt.next;
        }
        Ok((replies, next))
    }
}

impl Session {
    /// Adds a client and its session to a text: what they are in an image.
    fn spell(&self, client: u64, out: &mut Vec<u8>) -> Result<(), NoMemory>
        requires { is_session (client, self.now) ≡ true }
        ensures { OnOk result (out.new.items ≡ out.old.items ++ session_bytes (client, self.now)) }
    {
        put_64(out, client)?;
        put_64(out, self.responded)?;
        put_32(out, self.replies.len() as u32)?;
        self.replies.spell(out)
    }
}

impl SessionTable {
    /// Whether the table's image has fewer than 2^31 bytes, as `image` asks for. Source: this
    /// project's own.
    pub fn fits(&self) -> bool
        ensures { result ≡ nat_lt (length (section self.now)) (2 ^ 31) }
    {
        let mut size: u64 = 8;
        let mut rest = self.cache.iter();
        while let Some((_, session)) = rest.next_back() {
            size = size
                .saturating_add(20)
                .saturating_add(session.replies.size());
        }
        size < 2_147_483_648
    }

    /// The table as bytes, fewer than 2^31, of which `fits` tells: equal tables have the same. The
    /// only error is `NoMemory`. Source: this project's own.
    pub fn image(&self) -> Result<Vec<u8>, NoMemory>
        requires { length (section self.now) < 2 ^ 31 }
        ensures bytes { IfOk result (λ b. b.items ≡ section self.now) }
        ensures reads_back { read_section (section self.now) ≡ Ok self.now }
    {
        let mut out = Vec::new(self.alloc);
        put_32(&mut out, self.cache.cap().get() as u32)?;
        put_32(&mut out, self.cache.len() as u32)?;
        let mut rest = self.cache.iter();
        while let Some((client, session)) = rest.next_back() {
            session.spell(*client, &mut out)?;
        }
        Ok(out)
    }

    /// Reads the session at a place into the table, which has room, and gives the place after it.
    fn read_session(&mut self, bytes: &[u8], at: usize) -> Result<usize, TableFault>
        requires at_in { at ≤ length bytes.now }
        requires room { length self.old.sessions < self.old.limit }
        ensures reads { (n : ℕ) → IfOk result (λ next. read_sessions (suc n) self.old.sessions at (drop at bytes.now) ≡ read_sessions n self.new.sessions next (drop next bytes.now)) }
        ensures within { IfOk result (λ next. next ≤ length bytes.now) }
        ensures limit { IfOk result (λ next. self.new.limit ≡ self.old.limit) }
        ensures longer { IfOk result (λ next. length self.new.sessions ≡ length self.old.sessions + 1) }
        ensures not_table { (n place : ℕ) → IsErrOf result (TableFault.NotTable place) → read_sessions (suc n) self.old.sessions at (drop at bytes.now) ≡ Err place }
    {
        let client = match number_64(bytes, at) {
            Some(client) => client,
            None => return Err(TableFault::NotTable { at }),
        };
        if client == 0 || self.cache.contains(&client) {
            return Err(TableFault::NotTable { at });
        }
        let responded = match number_64(bytes, at + 8) {
            Some(responded) => responded,
            None => return Err(TableFault::NotTable { at: at + 8 }),
        };
        if MOST_SERIES < responded {
            return Err(TableFault::NotTable { at: at + 8 });
        }
        let count = match number_32(bytes, at + 16) {
            Some(count) => count,
            None => return Err(TableFault::NotTable { at: at + 16 }),
        };
        let (replies, next) = Replies::read(self.alloc, bytes, at + 20, responded, count)?;
        self.adopt(client, Session { responded, replies })?;
        Ok(next)
    }

    /// The table that bytes are the image of.
    ///
    /// `NotTable` comes exactly for bytes that are no table's image, with the place of the first field
    /// that is refused or cut short, or of the first byte after the last field: every table has one
    /// image, and every image one table. Source: this project's own.
    pub fn from_image(alloc: Global, bytes: &[u8]) -> Result<SessionTable, TableFault>
        ensures table { IfOk result (λ t. read_section bytes.now ≡ Ok t) }
        ensures image { IfOk result (λ t. section t ≡ bytes.now) }
        ensures not_table { (at : ℕ) → IsErrOf result (TableFault.NotTable at) → read_section bytes.now ≡ Err at }
    {
        let limit = match number_32(bytes, 0) {
            Some(limit) => limit,
            None => return Err(TableFault::NotTable { at: 0 }),
        };
        if limit == 0 || MOST_SESSIONS < limit {
            return Err(TableFault::NotTable { at: 0 });
        }
        let count = match number_32(bytes, 4) {
            Some(count) => count,
            None => return Err(TableFault::NotTable { at: 4 }),
        };
        if limit < count {
            return Err(TableFault::NotTable { at: 4 });
        }
        let mut table = SessionTable::new(alloc, limit)?;
        let mut at = 8;
        for read in 0..count {
            at = table.read_session(bytes, at)?;
        }
        if at < bytes.len() {
            return Err(TableFault::NotTable { at });
        }
        Ok(table)
    }
}
