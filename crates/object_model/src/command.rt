ghost use Rattle.std.specs.Prelude.{◌≡◌, ℕ, IfOk, IfSome, ◌≤◌, Some, None, decimal};
ghost use Rattle.std.specs.Option.{option_copied};
ghost use Rattle.object_model.specs.Command.{command_of, command_in, put_of, del_of, add_of, query_of, query_in};
ghost use Rattle.object_model.specs.Object.{key_of, change_of, shown, stores, sum_of};

use crate::words::{Words, is_key, is_value, number_of};
use host_ids::{NoMemory, Text};
use std::alloc::Global;

/// As many keys may stand in one object.
pub const MOST_KEYS: usize = 1_000_000;

/// A command of the key-value object. Source: this project's own.
#[derive(Debug, PartialEq, Eq, Drop)]
pub enum Command {
    /// Stores a value.
    Put {
        /// The key, 1 to 64 bytes of a to z and 0 to 9.
        key: Text,
        /// The value, one or more bytes of a to z, 0 to 9, `.` and `_`.
        value: Text,
    },
    /// Removes a key.
    Del {
        /// The key.
        key: Text,
    },
    /// Adds to a value that is a number.
    Add {
        /// The key.
        key: Text,
        /// What is added.
        number: u64,
    },
}

/// What a command does at its key. Source: this project's own.
#[derive(Debug, PartialEq, Eq, Drop)]
pub enum Change {
    /// All stays as it is.
    Keeps {
        /// The command's reply.
        reply: Text,
    },
    /// The key has this value from now on.
    Stores {
        /// The value.
        value: Text,
        /// The command's reply.
        reply: Text,
    },
    /// The key has no value any more.
    Removes {
        /// The command's reply.
        reply: Text,
    },
}

/// A query of the key-value object. Source: this project's own.
#[derive(Debug, PartialEq, Eq, Drop)]
pub enum Query {
    /// The value of a key.
    Get {
        /// The key.
        key: Text,
    },
    /// The number of keys.
    Count,
}

/// A value as it is shown: its own bytes, or `-` where there is none. The only error is
/// `NoMemory`. Source: this project's own.
pub fn shown(alloc: Global, found: Option<&Text>) -> Result<Text, NoMemory>
    ensures { IfOk result (λ text. text ≡ shown (option_copied found.entry)) }
{
    match found {
        Some(value) => value.copy(),
        None => Text::new(alloc, b"-"),
    }
}

/// The decimal digits of a number. The only error is `NoMemory`. Source: this project's own.
pub fn decimal(alloc: Global, number: u64) -> Result<Text, NoMemory>
    ensures { IfOk result (λ text. text ≡ decimal number) }
{
    let digits = number.to_string(alloc)?;
    Text::new(alloc, digits.as_bytes())
}

/// The sum of a value, read as a number, and another number, where all are numbers of 64 bits.
fn sum_of(found: Option<&Text>, number: u64) -> Option<u64>
    ensures { result ≡ sum_of (option_copied found.entry) number }
{
    match found {
        None => Some(number),
        Some(value) => number_of(u64::MAX, value.bytes())?.checked_add(number),
    }
}

/// Stores a value where there is room for its key.
fn stores(
    alloc: Global,
    found: Option<&Text>,
    count: usize,
    value: Text,
    reply: Text,
) -> Result<Change, NoMemory>
    ensures { IfOk result (λ change. change ≡ stores (option_copied found.entry) count value reply) }
{
    if found.is_some() || count < MOST_KEYS {
        return Ok(Change::Stores { value, reply });
    }
    Ok(Change::Keeps {
        reply: Text::new(alloc, b"!")?,
    })
}

impl Command {
    /// The key that it is about.
    pub fn key(&self) -> &Text
        ensures { result.now ≡ key_of self.now }
    {
        match self {
            Command::Put { key, .. } | Command::Del { key } | Command::Add { key, .. } => key,
        }
    }

    /// What it does at its key, where the key has this value or none and this number of keys stand. The
    /// only error is `NoMemory`.
    pub fn change(
        &self,
        alloc: Global,
        found: Option<&Text>,
        count: usize,
    ) -> Result<Change, NoMemory>
        ensures { IfOk result (λ change. change ≡ change_of self.now (option_copied found.entry) count) }
    {
        match self {
            Command::Put { value, .. } => {
                let reply = shown(alloc, found)?;
                stores(alloc, found, count, value.copy()?, reply)
            }
            Command::Del { .. } => Ok(Change::Removes {
                reply: shown(alloc, found)?,
            }),
            Command::Add { number, .. } => match sum_of(found, *number) {
                None => Ok(Change::Keeps {
                    reply: Text::new(alloc, b"!")?,
                }),
                Some(sum) => {
                    let value = decimal(alloc, sum)?;
                    let reply = value.copy()?;
                    stores(alloc, found, count, value, reply)
                }
            },
        }
    }
}

fn put_of(alloc: Global, words: &Words<'_>) -> Result<Option<Command>, NoMemory>
    ensures { IfOk result (λ found. found ≡ put_of words.now) }
{
    if !is_key(words.word(1)) {
        return Ok(None);
    }
    if !is_value(words.word(2)) {
        return Ok(None);
    }
    Ok(Some(Command::Put {
        key: Text::new(alloc, words.word(1))?,
        value: Text::new(alloc, words.word(2))?,
    }))
}

fn del_of(alloc: Global, words: &Words<'_>) -> Result<Option<Command>, NoMemory>
    ensures { IfOk result (λ found. found ≡ del_of words.now) }
{
    if !is_key(words.word(1)) {
        return Ok(None);
    }
    Ok(Some(Command::Del {
        key: Text::new(alloc, words.word(1))?,
    }))
}

fn add_of(alloc: Global, words: &Words<'_>) -> Result<Option<Command>, NoMemory>
    ensures { IfOk result (λ found. found ≡ add_of words.now) }
{
    if !is_key(words.word(1)) {
        return Ok(None);
    }
    match number_of(u64::MAX, words.word(2)) {
        None => Ok(None),
        Some(number) => Ok(Some(Command::Add {
            key: Text::new(alloc, words.word(1))?,
            number,
        })),
    }
}

fn command_in(alloc: Global, words: &Words<'_>) -> Result<Option<Command>, NoMemory>
    ensures { IfOk result (λ found. found ≡ command_in words.now) }
{
    if words.begins(3, b"put") {
        return put_of(alloc, words);
    }
    if words.begins(2, b"del") {
        return del_of(alloc, words);
    }
    if words.begins(3, b"add") {
        return add_of(alloc, words);
    }
    Ok(None)
}

/// The command that a text is, if it is one: `put K V`, `del K` or `add K N`, with one space
/// between two words. The only error is `NoMemory`. Source: this project's own.
#[tactic(auto, unfolding(crate::specs::Command::command_of))]
pub fn command_of(alloc: Global, text: &[u8]) -> Result<Option<Command>, NoMemory>
    ensures { IfOk result (λ found. found ≡ command_of text.now) }
{
    let words = Words::of(alloc, text)?;
    command_in(alloc, &words)
}

fn query_in(alloc: Global, words: &Words<'_>) -> Result<Option<Query>, NoMemory>
    ensures { IfOk result (λ found. found ≡ query_in words.now) }
{
    if words.begins(2, b"get") {
        if !is_key(words.word(1)) {
            return Ok(None);
        }
        return Ok(Some(Query::Get {
            key: Text::new(alloc, words.word(1))?,
        }));
    }
    if words.begins(1, b"count") {
        return Ok(Some(Query::Count));
    }
    Ok(None)
}

/// The query that a text is, if it is one: `get K` or `count`. The only error is `NoMemory`.
/// Source: this project's own.
#[tactic(auto, unfolding(crate::specs::Command::query_of))]
pub fn query_of(alloc: Global, text: &[u8]) -> Result<Option<Query>, NoMemory>
    ensures { IfOk result (λ found. found ≡ query_of text.now) }
{
    let words = Words::of(alloc, text)?;
    query_in(alloc, &words)
}
