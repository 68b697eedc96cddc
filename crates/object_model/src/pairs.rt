ghost use Rattle.std.specs.Prelude.{◌≡◌, [], Some, IfOk, OnOk};
ghost use Rattle.std.specs.Option.{option_copied};
ghost use Rattle.object_model.specs.Object.{after, after_any, after_command, answer, changed, value_at};

use crate::command::{Change, Command, Query, command_of, decimal, query_of, shown};
use host_ids::{MOST_COMMAND, NoMemory, Text};
use std::alloc::Global;
use std::collections::BTreeMap;
use std::marker::Model;

/// The object as the plain program keeps it. Clauses see it as its pairs, by ascending keys.
#[derive(Drop)]
pub struct Pairs {
    alloc: Global,
    held: BTreeMap<Text, Text>,
}

impl Model for Pairs {
    ghost use Rattle.std.specs.Prelude.{List, ℕ};

    ghost Value = { List (List ℕ × List ℕ) };

    ghost view = { λ p. p.held.entries };
}

impl Pairs {
    /// No keys.
    pub fn new(alloc: Global) -> Pairs
        ensures { result ≡ [] }
    {
        Pairs {
            alloc,
            held: BTreeMap::new(alloc),
        }
    }

    /// Makes a change at a key, and answers its reply.
    fn make(&mut self, key: Text, change: Change) -> Result<Text, NoMemory>
        ensures pairs { OnOk result (self.new ≡ (changed self.old key change).pairs) }
        ensures reply { IfOk result (λ reply. reply ≡ (changed self.old key change).reply) }
    {
        match change {
            Change::Keeps { reply } => Ok(reply),
            Change::Stores { value, reply } => {
                self.held.insert(key, value)?;
                Ok(reply)
            }
            Change::Removes { reply } => {
                self.held.remove(&key);
                Ok(reply)
            }
        }
    }

    /// Gives the object a command.
    fn apply(&mut self, command: &Command) -> Result<Text, NoMemory>
        ensures pairs { OnOk result (self.new ≡ (after_command self.old command.now).pairs) }
        ensures reply { IfOk result (λ reply. reply ≡ (after_command self.old command.now).reply) }
    {
        let key = command.key().copy()?;
        let change = command.change(self.alloc, self.held.get(&key), self.held.len())?;
        self.make(key, change)
    }

    /// Gives the object a text, and answers the reply.
    #[tactic(auto, unfolding(crate::specs::Object::after))]
    pub fn update(&mut self, text: &Text) -> Result<Text, NoMemory>
        ensures pairs { OnOk result (self.new ≡ (after self.old text.now).pairs) }
        ensures reply { IfOk result (λ reply. reply ≡ (after self.old text.now).reply) }
    {
        if text.bytes().len() > MOST_COMMAND {
            return Text::new(self.alloc, b"!");
        }
        match command_of(self.alloc, text.bytes())? {
            None => Text::new(self.alloc, b"!"),
            Some(command) => self.apply(&command),
        }
    }

    /// What a text asks of the object.
    #[tactic(auto, unfolding(crate::specs::Object::answer))]
    pub fn lookup(&self, text: &Text) -> Result<Text, NoMemory>
        ensures { IfOk result (λ found. found ≡ answer self.now text.now) }
    {
        match query_of(self.alloc, text.bytes())? {
            None => Text::new(self.alloc, b"!"),
            Some(Query::Get { key }) => shown(self.alloc, self.held.get(&key)),
            Some(Query::Count) => decimal(self.alloc, self.held.len() as u64),
        }
    }
}
