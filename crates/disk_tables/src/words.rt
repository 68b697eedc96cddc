ghost use Rattle.std.specs.Prelude.{◌≤◌, IfOk};
ghost use Rattle.disk_model.specs.Depot.{IsHost};

use crate::flaw::Flaw;

/// The words of a line, from left to right.
#[derive(Drop)]
pub struct Words<'a> {
    rest: &'a str,
}

impl<'a> Words<'a> {
    /// All words of a line, with one space between them.
    pub fn new(line: &'a str) -> Words<'a> {
        Words { rest: line }
    }

    /// The next word, which is empty where there is none.
    pub fn word(&mut self) -> &'a str {
        let (word, rest) = self.rest.split_once(' ').unwrap_or((self.rest, ""));
        self.rest = rest;
        word
    }

    /// The next word as a number.
    pub fn number(&mut self) -> Result<u64, Flaw> {
        match self.word().parse::<u64>() {
            Ok(number) => Ok(number),
            Err(_) => Err(Flaw::Number),
        }
    }

    /// The next word as a host.
    pub fn host(&mut self) -> Result<u8, Flaw>
        ensures { IfOk result (λ host. IsHost host) }
    {
        match self.word().parse::<u8>() {
            Ok(host) if 1 <= host && host <= 9 => Ok(host),
            _ => Err(Flaw::Number),
        }
    }

    /// The next word as a choice of what a loss of power leaves.
    pub fn choice(&mut self) -> Result<u8, Flaw>
        ensures { IfOk result (λ choice. choice ≤ 2) }
    {
        match self.word().parse::<u8>() {
            Ok(choice) if choice <= 2 => Ok(choice),
            _ => Err(Flaw::Number),
        }
    }
}
