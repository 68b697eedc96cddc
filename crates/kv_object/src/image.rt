ghost use Rattle.std.specs.Prelude.{◌≡◌, ◌≤◌, ◌<◌, ◌^◌, ◌+◌, ◌++◌, ℕ, suc, List, length, Option, Some, None, IfOk, IfSome, OnOk, Ok, Err, IsErrOf, true};
ghost use Rattle.std.specs.Option.{option_copied, option_map};
ghost use Rattle.std.specs.Map.Iter.{deref_pair};
ghost use Rattle.std.specs.BTreeMap.{insert_entry};
ghost use Rattle.object_model.specs.Object.{Pairs, key_order};
ghost use Rattle.object_model.specs.Image.{spelt, image, part_of, text_in, is_next, is_stored, with_first, read_pairs, read_image};
ghost use Rattle.kv_object.specs.declared.image.ImageFault.TheVariants.{NoMemory as OutOfMemory};

use crate::kv::Kv;
use byteorder::{BigEndian, ByteOrder};
use host_ids::{MOST_COMMAND, NoMemory, Text};
use object_model::{MOST_KEYS, images_are_read, is_key, is_value};
use std::alloc::{AllocError, AllocFailed, Global};
use std::collections::BTreeMap;
use thiserror::Error;

/// Why bytes are no image of an object. Source: this project's own.
#[derive(Debug, PartialEq, Eq, Drop, Error)]
pub enum ImageFault {
    /// The length or the count at this place is refused: a key or a value that is refused or cut
    /// short counts at its length, and bytes after the last pair count at their first.
    #[error("no image of an object: what stands at {at} is refused")]
    NotImage {
        /// The place, from 0.
        at: usize,
    },
    /// Memory ran out.
    #[error("memory ran out")]
    NoMemory,
}

impl From<AllocError> for ImageFault {
    ghost from_gives = { λ _ e. e ≡ OutOfMemory };

    fn from(_: AllocError) -> ImageFault {
        ImageFault::NoMemory
    }
}

impl<T: Drop> From<AllocFailed<T>> for ImageFault {
    ghost from_gives = { λ _ e. e ≡ OutOfMemory };

    fn from(_: AllocFailed<T>) -> ImageFault {
        ImageFault::NoMemory
    }
}

impl From<NoMemory> for ImageFault {
    ghost from_gives = { λ _ e. e ≡ OutOfMemory };

    fn from(_: NoMemory) -> ImageFault {
        ImageFault::NoMemory
    }
}

// ---- writing

/// Writes a length of two bytes, and the bytes.
fn spell(out: &mut Vec<u8>, text: &[u8]) -> Result<(), NoMemory>
    requires { length text.now < 2 ^ 16 }
    ensures { OnOk result (out.new.items ≡ out.old.items ++ spelt text.now) }
{
    let mut length = [0; 2];
    BigEndian::write_u16(&mut length, text.len() as u16);
    out.extend_from_slice(&length)?;
    out.extend_from_slice(text)?;
    Ok(())
}

// ---- reading

/// The first `count` bytes, and what stands after them, where there are that many.
fn part_of(count: usize, bytes: &[u8]) -> Option<(&[u8], &[u8])>
    ensures { option_map deref_pair result ≡ part_of count bytes.now }
{
    if bytes.len() < count {
        return None;
    }
    Some(bytes.split_at(count))
}

/// A text after its length, and what stands after it, where neither is cut short.
fn text_in(bytes: &[u8]) -> Option<(&[u8], &[u8])>
    ensures text { option_map deref_pair result ≡ text_in bytes.now }
    ensures room { IfSome result (λ p. 2 + length p.0.now + length p.1.now ≡ length bytes.now) }
{
    let (count, rest) = part_of(2, bytes)?;
    part_of(usize::from(BigEndian::read_u16(count)), rest)
}

/// A key may come next.
fn is_next(before: Option<&[u8]>, key: &[u8]) -> bool
    ensures { result ≡ is_next (option_copied before.entry) key.now }
{
    match before {
        None => is_key(key),
        Some(before) => is_key(key) && before.cmp(key).is_lt(),
    }
}

/// A value may be stored.
fn is_stored(value: &[u8]) -> bool
    ensures { result ≡ is_stored value.now }
{
    is_value(value) && value.len() <= MOST_COMMAND
}

/// A key and its value, and what stands after them.
#[derive(Drop)]
struct Found<'a> {
    key: &'a [u8],
    value: &'a [u8],
    rest: &'a [u8],
}

/// The pair that bytes at a place begin with, which stands after a key.
#[tactic(auto, unfolding(object_model::specs::Image::read_pairs))]
fn pair_in<'a>(before: Option<&[u8]>, at: usize, bytes: &'a [u8]) -> Result<Found<'a>, ImageFault>
    requires { at + length bytes.now < 2 ^ 64 }
    ensures pair { IfOk result (λ f. (n : ℕ) → read_pairs (suc n) (option_copied before.entry) at bytes.now ≡ with_first (f.key.now, f.value.now) (read_pairs n (Some f.key.now) (at + 4 + length f.key.now + length f.value.now) f.rest.now)) }
    ensures next { IfOk result (λ f. is_next (option_copied before.entry) f.key.now ≡ true) }
    ensures room { IfOk result (λ f. 4 + length f.key.now + length f.value.now + length f.rest.now ≡ length bytes.now) }
    ensures not_image { (place n : ℕ) → IsErrOf result (ImageFault.NotImage place) → read_pairs (suc n) (option_copied before.entry) at bytes.now ≡ Err place }
{
    let Some((key, more)) = text_in(bytes) else {
        return Err(ImageFault::NotImage { at });
    };
    if !is_next(before, key) {
        return Err(ImageFault::NotImage { at });
    }
    let at = at + 2 + key.len();
    let Some((value, rest)) = text_in(more) else {
        return Err(ImageFault::NotImage { at });
    };
    if !is_stored(value) {
        return Err(ImageFault::NotImage { at });
    }
    Ok(Found { key, value, rest })
}

/// A key has this value.
fn put_pair(
    alloc: Global,
    held: &mut BTreeMap<Text, Text>,
    key: &[u8],
    value: &[u8],
) -> Result<(), NoMemory>
    ensures { OnOk result (held.new.entries ≡ insert_entry key_order held.old.entries key.now value.now) }
{
    held.insert(Text::new(alloc, key)?, Text::new(alloc, value)?)?;
    Ok(())
}

/// The next `count` pairs, where nothing stands after them.
fn pairs_in(alloc: Global, count: usize, bytes: &[u8]) -> Result<BTreeMap<Text, Text>, ImageFault>
    requires { 4 + length bytes.now < 2 ^ 64 }
    ensures pairs { IfOk result (λ held. read_pairs count None 4 bytes.now ≡ Ok held.entries) }
    ensures not_image { (at : ℕ) → IsErrOf result (ImageFault.NotImage at) → read_pairs count None 4 bytes.now ≡ Err at }
{
    let mut held = BTreeMap::new(alloc);
    let mut before = None;
    let mut at = 4;
    let mut rest = bytes;
    for _ in 0..count {
        let found = pair_in(before, at, rest)?;
        put_pair(alloc, &mut held, found.key, found.value)?;
        before = Some(found.key);
        at += 4 + found.key.len() + found.value.len();
        rest = found.rest;
    }
    if !rest.is_empty() {
        return Err(ImageFault::NotImage { at });
    }
    Ok(held)
}

/// The number of pairs, and what stands after it.
#[tactic(auto, unfolding(object_model::specs::Image::read_image))]
fn count_in(bytes: &[u8]) -> Result<(usize, &[u8]), ImageFault>
    ensures count { IfOk result (λ p. read_image bytes.now ≡ read_pairs p.0 None 4 p.1.now) }
    ensures room { IfOk result (λ p. 4 + length p.1.now ≡ length bytes.now) }
    ensures not_image { (at : ℕ) → IsErrOf result (ImageFault.NotImage at) → read_image bytes.now ≡ Err at }
{
    let Some((count, rest)) = part_of(4, bytes) else {
        return Err(ImageFault::NotImage { at: 0 });
    };
    let count = BigEndian::read_u32(count) as usize;
    if count > MOST_KEYS {
        return Err(ImageFault::NotImage { at: 0 });
    }
    Ok((count, rest))
}

impl Kv {
    /// The image of the object: its pairs as bytes, in their one spelling.
    ///
    /// The number of pairs in four bytes, and for each pair, by ascending keys, the length of its
    /// key in two bytes, the key, the length of its value in two bytes, the value; numbers are
    /// big-endian. The only error is `NoMemory`. Source: this project's own.
    pub fn image(&self) -> Result<Vec<u8>, NoMemory>
        ensures bytes { IfOk result (λ bytes. bytes.items ≡ image self.now) }
        ensures reads_back { read_image (image self.now) ≡ Ok self.now }
    {
        images_are_read();
        let mut out = Vec::new(self.alloc);
        let mut count = [0; 4];
        BigEndian::write_u32(&mut count, self.held.len() as u32);
        out.extend_from_slice(&count)?;
        for (key, value) in &self.held {
            spell(&mut out, key.bytes())?;
            spell(&mut out, value.bytes())?;
        }
        Ok(out)
    }

    /// The object that bytes are the image of.
    ///
    /// `NotImage` comes exactly where no object has these bytes, with the place of the first length
    /// or count that is refused. The other error is `NoMemory`.
    pub fn from_image(alloc: Global, bytes: &[u8]) -> Result<Kv, ImageFault>
        ensures object { IfOk result (λ object. read_image bytes.now ≡ Ok object) }
        ensures image { IfOk result (λ object. image object ≡ bytes.now) }
        ensures not_image { (at : ℕ) → IsErrOf result (ImageFault.NotImage at) → read_image bytes.now ≡ Err at }
    {
        images_are_read();
        let (count, rest) = count_in(bytes)?;
        let held = pairs_in(alloc, count, rest)?;
        Ok(Kv { alloc, held })
    }
}
