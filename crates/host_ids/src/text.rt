ghost use Rattle.std.specs.Prelude.{◌≡◌, ◌≤◌, ℕ, List, length, IfOk, Option, Some, None, nat_eq};
ghost use Rattle.std.proofs.Common.{rules};
ghost use Rattle.std.specs.Cmp.{partial_order_from_own_ties};
ghost use Rattle.std.specs.Cmp.Rules.{comparing};
ghost use Rattle.std.specs.Cmp.Lexicographic.{slice_cmp, pointwise, lists_per, lists_equiv, lists_po, lists_total, lists_agrees, lists_ties};
ghost use Rattle.std.specs.Ordering.{nat_cmp, as_partial_cmp};

use crate::memory::NoMemory;
use std::alloc::Global;
use std::cmp::Ordering;
use std::marker::Model;
use std::sync::ArcSlice;

/// The most bytes of a text that is held in place.
const MOST_SHORT: usize = 22;

/// Some bytes that are kept as they are: a command, a query, a reply, a key, a value, a context.
///
/// Clauses see it as its list of bytes. A copy takes no memory: a text of at most 22 bytes is held in
/// place, and copies of a longer one have their bytes in common, which live as long as one of them. It is
/// ordered byte by byte, a front before what it begins, so it can be a map's key. Source: this project's
/// own.
#[derive(Debug, Drop)]
pub struct Text {
    held: Bytes,
}

/// Where the bytes of a text are: in place, of which the first `length` count, or shared.
#[derive(Debug, Drop)]
pub(crate) enum Bytes {
    Short { length: u8, bytes: [u8; 22] },
    Long { bytes: ArcSlice<u8, Global> },
}

impl Model for Text {
    ghost use Rattle.std.specs.Prelude.{ℕ, List};
    ghost use Rattle.host_ids.specs.Bytes.{bytes_of, IsShort};

    ghost Value = { List ℕ };

    ghost view = { λ t. bytes_of t.held };

    ghost invariant = { λ t. IsShort t.held };
}

impl Text {
    /// A text of these bytes. The only error is `NoMemory`; at most 22 bytes take none.
    pub fn new(alloc: Global, bytes: &[u8]) -> Result<Text, NoMemory>
        ensures { IfOk result (λ text. text ≡ bytes.now) }
    {
        if bytes.len() <= MOST_SHORT {
            return Ok(short(bytes));
        }
        let bytes = ArcSlice::from_slice(alloc, bytes)?;
        Ok(Text {
            held: Bytes::Long { bytes },
        })
    }

    /// The text of a `Vec`, of which more than 22 bytes aren't copied. The only error is `NoMemory`.
    pub fn from_vec(bytes: Vec<u8>) -> Result<Text, NoMemory>
        ensures { IfOk result (λ text. text ≡ bytes.items) }
    {
        if bytes.len() <= MOST_SHORT {
            return Ok(short(&bytes));
        }
        let bytes = ArcSlice::from_vec(bytes)?;
        Ok(Text {
            held: Bytes::Long { bytes },
        })
    }

    /// Its bytes.
    pub fn bytes(&self) -> &[u8]
        ensures { result.now ≡ self.now }
    {
        match &self.held {
            Bytes::Short { length, bytes } => bytes.split_at(*length as usize).0,
            Bytes::Long { bytes } => bytes.as_slice(),
        }
    }

    /// The same text once more, which takes no memory. The only error is that there are too many copies to
    /// count them.
    pub fn copy(&self) -> Result<Text, NoMemory>
        ensures { IfOk result (λ text. text ≡ self.now) }
    {
        let held = match &self.held {
            Bytes::Short { length, bytes } => Bytes::Short {
                length: *length,
                bytes: *bytes,
            },
            Bytes::Long { bytes } => Bytes::Long {
                bytes: bytes.clone()?,
            },
        };
        Ok(Text { held })
    }
}

/// A text that is held in place.
fn short(bytes: &[u8]) -> Text
    requires { length bytes.now ≤ 22 }
    ensures { result ≡ bytes.now }
{
    let mut held = [0; MOST_SHORT];
    held[..bytes.len()].copy_from_slice(bytes);
    Text {
        held: Bytes::Short {
            length: bytes.len() as u8,
            bytes: held,
        },
    }
}

impl PartialEq for Text {
    ghost eq = { λ x y. pointwise nat_eq x y };

    ghost laws = { Prim.search (comparing, rules) };

    fn eq(&self, other: &Text) -> bool {
        self.bytes() == other.bytes()
    }
}

impl Eq for Text {
    ghost laws = { Prim.search (comparing, rules) };
}

impl PartialOrd for Text {
    ghost partial_cmp = { as_partial_cmp (slice_cmp nat_cmp) };

    ghost laws = { Prim.search (comparing, rules) };

    fn partial_cmp(&self, other: &Text) -> Option<Ordering> {
        Some(self.cmp(other))
    }
}

impl Ord for Text {
    ghost cmp = { slice_cmp nat_cmp };

    ghost total = { Prim.search (comparing, rules) };

    ghost matches_partial_cmp = { Prim.search (comparing, rules) };

    ghost matches_eq = { Prim.search (comparing, rules) };

    fn cmp(&self, other: &Text) -> Ordering {
        self.bytes().cmp(other.bytes())
    }
}
