ghost use Rattle.std.specs.Prelude.{◌≡◌, ◌++◌, [], ◌∷◌, OnOk, OnErr};

use crate::chunk::Chunk;
use host_ids::NoMemory;
use std::alloc::Global;
use std::marker::Model;

/// Pieces of a snapshot in the order of their numbers. Clauses see it as its list. Source: this
/// project's own.
#[derive(Debug, Drop)]
pub struct Chunks {
    held: Vec<Chunk>,
}

impl Model for Chunks {
    ghost use Rattle.std.specs.Prelude.{List};
    ghost use Rattle.raft_model.specs.declared.chunk.Chunk.{Chunk};

    ghost Value = { List Chunk };

    ghost view = { λ c. c.held.items };
}

impl Chunks {
    /// No pieces, which takes no memory.
    pub fn new(alloc: Global) -> Chunks
        ensures { result ≡ [] }
    {
        Chunks {
            held: Vec::new(alloc),
        }
    }

    /// The pieces in order.
    pub fn items(&self) -> &[Chunk]
        ensures { result.now ≡ self.now }
    {
        &self.held
    }

    /// Adds a piece at the end. After `NoMemory`, the only error, all is as before.
    pub fn push(&mut self, chunk: Chunk) -> Result<(), NoMemory>
        ensures ok { OnOk result (self.new ≡ self.old ++ chunk ∷ []) }
        ensures err { OnErr result (self.new ≡ self.old) }
    {
        self.held.push(chunk)?;
        Ok(())
    }

    /// All of them go.
    pub fn clear(&mut self)
        ensures { self.new ≡ [] }
    {
        self.held.clear();
    }
}
