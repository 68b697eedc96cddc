ghost use Rattle.std.specs.Prelude.{◌≡◌, ◌≤◌, IfOk, IfSome, length, bytes_eq, Some};
ghost use Rattle.std.specs.List.{list_all};
ghost use Rattle.object_model.specs.Words.{words_of, word, begins, is_name, is_name_byte, is_key, is_value, is_value_byte, number_of, number_on, with_digit};

use host_ids::NoMemory;
use std::alloc::Global;
use std::marker::Model;

/// The parts of a text between its spaces. Clauses see it as their list. Source: this project's
/// own.
#[derive(Drop)]
pub struct Words<'a> {
    held: Vec<&'a [u8]>,
}

impl<'a> Model for Words<'a> {
    ghost use Rattle.std.specs.Prelude.{List, ℕ, map};

    ghost Value = { List (List ℕ) };

    ghost view = { λ w. map (λ x. x.now) w.held.items };
}

impl<'a> Words<'a> {
    /// The parts of this text, at least one. The only error is `NoMemory`.
    pub fn of(alloc: Global, text: &'a [u8]) -> Result<Words<'a>, NoMemory>
        ensures { IfOk result (λ words. words ≡ words_of text.now) }
    {
        let held = text.split(|b| *b == b' ').collect(alloc)?;
        Ok(Words { held })
    }

    /// How many there are.
    pub fn len(&self) -> usize
        ensures { result ≡ length self.now }
    {
        self.held.len()
    }

    /// The word at a place, from 0, or an empty one past the end.
    pub fn word(&self, place: usize) -> &'a [u8]
        ensures { result.now ≡ word self.now place }
    {
        match self.held.get(place) {
            Some(word) => word,
            None => b"",
        }
    }

    /// Whether the word at a place is this one.
    pub fn is(&self, place: usize, text: &[u8]) -> bool
        ensures { result ≡ bytes_eq (word self.now place) text.now }
    {
        self.word(place) == text
    }

    /// Whether there are `count` words, and the first is `verb`.
    pub fn begins(&self, count: usize, verb: &[u8]) -> bool
        ensures { result ≡ begins self.now count verb.now }
    {
        self.len() == count && self.is(0, verb)
    }
}

fn is_name_byte(b: u8) -> bool
    ensures { result ≡ is_name_byte b }
{
    matches!(b, b'a'..=b'z' | b'0'..=b'9')
}

fn is_value_byte(b: u8) -> bool
    ensures { result ≡ is_value_byte b }
{
    is_name_byte(b) || b == b'.' || b == b'_'
}

fn are_name_bytes(text: &[u8]) -> bool
    ensures { result ≡ list_all is_name_byte text.now }
{
    text.iter().all(|b| is_name_byte(*b))
}

fn are_value_bytes(text: &[u8]) -> bool
    ensures { result ≡ list_all is_value_byte text.now }
{
    text.iter().all(|b| is_value_byte(*b))
}

/// Whether a text has 1 to `most` bytes, all of a to z and 0 to 9. Source: this project's own.
pub fn is_name(text: &[u8], most: usize) -> bool
    ensures { result ≡ is_name text.now most }
{
    if !are_name_bytes(text) {
        return false;
    }
    0 < text.len() && text.len() <= most
}

/// Whether a text is a key: a name of 1 to 64 bytes. Source: this project's own.
pub fn is_key(text: &[u8]) -> bool
    ensures { result ≡ is_key text.now }
{
    is_name(text, 64)
}

/// Whether a text is a value: one or more bytes of a to z, 0 to 9, `.` and `_`. Source: this
/// project's own.
pub fn is_value(text: &[u8]) -> bool
    ensures { result ≡ is_value text.now }
{
    if !are_value_bytes(text) {
        return false;
    }
    0 < text.len()
}

/// A number with one more digit after it.
fn with_digit(most: u64, number: u64, digit: u8) -> Option<u64>
    ensures value { result ≡ with_digit most number digit }
    ensures bound { IfSome result (λ n. n ≤ most) }
{
    if digit < b'0' || b'9' < digit {
        return None;
    }
    let next = 10 * u128::from(number) + u128::from(digit - b'0');
    if u128::from(most) < next {
        return None;
    }
    Some(next as u64)
}

/// The number that digits make after others.
#[tactic(auto, unfolding(crate::specs::Words::number_on))]
fn number_on(most: u64, start: u64, digits: &[u8]) -> Option<u64>
    requires { start ≤ most }
    ensures value { result ≡ number_on most (Some start) digits.now }
    ensures bound { IfSome result (λ n. n ≤ most) }
{
    let mut number = start;
    for digit in digits {
        number = match with_digit(most, number, *digit) {
            Some(next) => next,
            None => return None,
        };
    }
    Some(number)
}

/// The number of at most `most` that a text spells in decimal digits without leading zeros, if it
/// spells one. Source: this project's own.
pub fn number_of(most: u64, text: &[u8]) -> Option<u64>
    ensures value { result ≡ number_of most text.now }
    ensures bound { IfSome result (λ n. n ≤ most) }
{
    match text {
        [] => None,
        [_] => number_on(most, 0, text),
        [first, _, ..] => {
            if *first == b'0' {
                None
            } else {
                number_on(most, 0, text)
            }
        }
    }
}
