ghost use Rattle.std.specs.Prelude.{◌≡◌, ◌++◌, [], ◌∷◌, OnOk, OnErr};

use crate::line::Line;
use host_ids::{NoMemory, Text};
use std::alloc::Global;
use std::marker::Model;

/// A line of the output, with the context that it shows, `-` where it shows none. Source: this
/// project's own.
#[derive(Debug, Drop)]
pub struct Told {
    /// The context.
    pub context: Text,
    /// The line.
    pub line: Line,
}

/// Lines of the output in order. Clauses see it as their list. Source: this project's own.
#[derive(Debug, Drop)]
pub struct Tolds {
    held: Vec<Told>,
}

impl Model for Tolds {
    ghost use Rattle.std.specs.Prelude.{List};
    ghost use Rattle.script_text.specs.declared.told.Told.{Told};

    ghost Value = { List Told };

    ghost view = { λ t. t.held.items };
}

impl Tolds {
    /// No lines, which takes no memory.
    pub fn new(alloc: Global) -> Tolds
        ensures { result ≡ [] }
    {
        Tolds {
            held: Vec::new(alloc),
        }
    }

    /// Adds a line at the end. After `NoMemory`, the only error, all is as before.
    pub fn push(&mut self, told: Told) -> Result<(), NoMemory>
        ensures ok { OnOk result (self.new ≡ self.old ++ told ∷ []) }
        ensures err { OnErr result (self.new ≡ self.old) }
    {
        self.held.push(told)?;
        Ok(())
    }

    /// The lines in order.
    pub fn items(&self) -> &[Told]
        ensures { result.now ≡ self.now }
    {
        &self.held
    }
}
