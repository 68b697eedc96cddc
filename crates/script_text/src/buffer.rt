ghost use Rattle.std.specs.Prelude.{◌≡◌, ◌++◌, [], ◌∷◌, map, OnOk, decimal};
ghost use Rattle.script_text.specs.Print.{shown_byte, shown_text};

use host_ids::NoMemory;
use std::alloc::Global;
use std::marker::Model;

/// Bytes that are written one piece after another. Clauses see it as its list of bytes. `NoMemory` is
/// the only error of its calls. Source: this project's own.
#[derive(Drop)]
pub struct Buffer {
    alloc: Global,
    held: Vec<u8>,
}

impl Model for Buffer {
    ghost use Rattle.std.specs.Prelude.{List, ℕ};

    ghost Value = { List ℕ };

    ghost view = { λ b. b.held.items };
}

fn shown_byte(byte: u8) -> u8
    ensures { result ≡ shown_byte byte }
{
    if byte >= 32 && byte <= 126 {
        byte
    } else {
        b'?'
    }
}

fn push_shown(held: &mut Vec<u8>, bytes: &[u8]) -> Result<(), NoMemory>
    ensures { OnOk result (held.new.items ≡ held.old.items ++ shown_text bytes.now) }
{
    for byte in bytes {
        held.push(shown_byte(*byte))?;
    }
    Ok(())
}

impl Buffer {
    /// No bytes, which takes no memory.
    pub fn new(alloc: Global) -> Buffer
        ensures { result ≡ [] }
    {
        Buffer {
            alloc,
            held: Vec::new(alloc),
        }
    }

    /// Its bytes.
    pub fn bytes(&self) -> &[u8]
        ensures { result.now ≡ self.now }
    {
        &self.held
    }

    /// Its bytes, as a vector.
    pub fn into_vec(self) -> Vec<u8>
        ensures { result.items ≡ self }
    {
        self.held
    }

    /// Adds bytes as they are.
    pub fn text(&mut self, bytes: &[u8]) -> Result<(), NoMemory>
        ensures { OnOk result (self.new ≡ self.old ++ bytes.now) }
    {
        self.held.extend_from_slice(bytes)?;
        Ok(())
    }

    /// Adds a space and a word.
    pub fn word(&mut self, bytes: &[u8]) -> Result<(), NoMemory>
        ensures { OnOk result (self.new ≡ self.old ++ (32 ∷ bytes.now)) }
    {
        self.held.push(b' ')?;
        self.held.extend_from_slice(bytes)?;
        Ok(())
    }

    /// Adds a space and a payload or a reply, with `?` for each byte that doesn't show.
    pub fn payload(&mut self, bytes: &[u8]) -> Result<(), NoMemory>
        ensures { OnOk result (self.new ≡ self.old ++ (32 ∷ shown_text bytes.now)) }
    {
        self.held.push(b' ')?;
        push_shown(&mut self.held, bytes)
    }

    /// Adds a space and a number.
    pub fn number(&mut self, number: u64) -> Result<(), NoMemory>
        ensures { OnOk result (self.new ≡ self.old ++ (32 ∷ decimal number)) }
    {
        let digits = number.to_string(self.alloc)?;
        self.word(digits.as_bytes())
    }
}
