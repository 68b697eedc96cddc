use crate::flaw::Flaw;
use host_ids::Key;

/// The words of a line, from left to right.
#[derive(Drop)]
pub struct Words<'a> {
    rest: &'a str,
}

impl<'a> Words<'a> {
    /// All words of a line, with one space between them.
    pub fn new(line: &'a str) -> Words<'a> {
        Words { rest: line }
    }

    /// The next word, which is empty where there is none.
    pub fn word(&mut self) -> &'a str {
        let (word, rest) = self.rest.split_once(' ').unwrap_or((self.rest, ""));
        self.rest = rest;
        word
    }

    /// Whether no word is left.
    pub fn is_done(&self) -> bool {
        self.rest.is_empty()
    }

    /// No word is left.
    pub fn end(&self) -> Result<(), Flaw> {
        if self.rest.is_empty() {
            Ok(())
        } else {
            Err(Flaw::More)
        }
    }

    /// The next word is this one.
    pub fn key(&mut self, name: &str) -> Result<(), Flaw> {
        if self.word() == name {
            Ok(())
        } else {
            Err(Flaw::Word)
        }
    }

    /// The next word as a host.
    pub fn host(&mut self) -> Result<u8, Flaw> {
        match self.word().parse::<u8>() {
            Ok(number) => Ok(number),
            Err(_) => Err(Flaw::Number),
        }
    }

    /// The next word as a number.
    pub fn number(&mut self) -> Result<u64, Flaw> {
        match self.word().parse::<u64>() {
            Ok(number) => Ok(number),
            Err(_) => Err(Flaw::Number),
        }
    }

    /// The next word as the key of a request: its host, a dot and its number, as in `2.1`.
    pub fn request(&mut self) -> Result<Key, Flaw> {
        let (host, serial) = self.word().split_once('.').ok_or(Flaw::Word)?;
        match (host.parse::<u8>(), serial.parse::<u64>()) {
            (Ok(host), Ok(serial)) => Ok(Key {
                host,
                start: 1,
                serial,
            }),
            _ => Err(Flaw::Number),
        }
    }

    /// A word and a number.
    pub fn named(&mut self, name: &str) -> Result<u64, Flaw> {
        self.key(name)?;
        self.number()
    }

    /// A word and a number below 2^32.
    pub fn named_count(&mut self, name: &str) -> Result<u32, Flaw> {
        self.key(name)?;
        match self.word().parse::<u32>() {
            Ok(number) => Ok(number),
            Err(_) => Err(Flaw::Number),
        }
    }

    /// A word, and `true` or `false`.
    pub fn named_flag(&mut self, name: &str) -> Result<bool, Flaw> {
        self.key(name)?;
        match self.word() {
            "true" => Ok(true),
            "false" => Ok(false),
            _ => Err(Flaw::Word),
        }
    }
}
