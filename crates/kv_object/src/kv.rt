ghost use Rattle.std.specs.Prelude.{◌≡◌, ◌≤◌, [], length, IfOk, OnErr, OnOk};
ghost use Rattle.object_model.specs.Object.{after, after_command, answer};
ghost use Rattle.host_ids.specs.declared.proposal.TheConstants.{MOST_COMMAND};

use host_ids::{MOST_COMMAND, NoMemory, Text};
use object_model::{Change, Command, Query, command_of, decimal, query_of, shown, stays_object};
use std::alloc::Global;
use std::collections::BTreeMap;
use std::marker::Model;

/// The key-value object. Clauses see it as its pairs of keys and values, by their keys in ascending
/// order of bytes, and they are an object: keys and values have their forms, and at most 1,000,000
/// keys stand.
///
/// A command or a query costs a few look-ups in a map. Source: this project's own.
#[derive(Drop)]
pub struct Kv {
    pub(crate) alloc: Global,
    pub(crate) held: BTreeMap<Text, Text>,
}

impl Model for Kv {
    ghost use Rattle.std.specs.Prelude.{◌≡◌, true};
    ghost use Rattle.object_model.specs.Object.{Pairs};
    ghost use Rattle.object_model.specs.Image.{is_object};

    ghost Value = { Pairs };

    ghost view = { λ k. k.held.entries };

    ghost invariant = { λ k. is_object k.held.entries ≡ true };
}

/// Gives a command to pairs.
fn apply(
    alloc: Global,
    held: &mut BTreeMap<Text, Text>,
    command: &Command,
) -> Result<Text, NoMemory>
    ensures reply { IfOk result (λ reply. reply ≡ (after_command held.old.entries command.now).reply) }
    ensures pairs { OnOk result (held.new.entries ≡ (after_command held.old.entries command.now).pairs) }
    ensures err { OnErr result (held.new.entries ≡ held.old.entries) }
{
    let key = command.key().copy()?;
    match command.change(alloc, held.get(&key), held.len())? {
        Change::Keeps { reply } => Ok(reply),
        Change::Stores { value, reply } => {
            held.insert(key, value)?;
            Ok(reply)
        }
        Change::Removes { reply } => {
            held.remove(&key);
            Ok(reply)
        }
    }
}

/// Gives a text to pairs.
#[tactic(auto, unfolding(object_model::specs::Object::after))]
fn give(alloc: Global, held: &mut BTreeMap<Text, Text>, command: &Text) -> Result<Text, NoMemory>
    ensures reply { IfOk result (λ reply. reply ≡ (after held.old.entries command.now).reply) }
    ensures pairs { OnOk result (held.new.entries ≡ (after held.old.entries command.now).pairs) }
    ensures err { OnErr result (held.new.entries ≡ held.old.entries) }
{
    if command.bytes().len() > MOST_COMMAND {
        return Text::new(alloc, b"!");
    }
    match command_of(alloc, command.bytes())? {
        None => Text::new(alloc, b"!"),
        Some(command) => apply(alloc, held, &command),
    }
}

impl Kv {
    /// The object without keys, which takes no memory.
    pub fn empty(alloc: Global) -> Kv
        ensures { result ≡ [] }
    {
        Kv {
            alloc,
            held: BTreeMap::new(alloc),
        }
    }

    /// Gives it a command, `put K V`, `del K` or `add K N`, and answers the reply.
    ///
    /// A text that is no command, or has more than 512 bytes, changes nothing, and its reply is
    /// `!`. A reply has at most 512 bytes. After `NoMemory`, the only error, all is as before.
    pub fn update(&mut self, command: &Text) -> Result<Text, NoMemory>
        ensures reply { IfOk result (λ reply. reply ≡ (after self.old command.now).reply) }
        ensures short { IfOk result (λ reply. length reply ≤ MOST_COMMAND) }
        ensures pairs { OnOk result (self.new ≡ (after self.old command.now).pairs) }
        ensures err { OnErr result (self.new ≡ self.old) }
    {
        stays_object();
        give(self.alloc, &mut self.held, command)
    }

    /// What a query answers, `get K` or `count`.
    ///
    /// A text that is no query is answered `!`. The only error is `NoMemory`.
    #[tactic(auto, unfolding(object_model::specs::Object::answer))]
    pub fn lookup(&self, query: &Text) -> Result<Text, NoMemory>
        ensures { IfOk result (λ found. found ≡ answer self.now query.now) }
    {
        match query_of(self.alloc, query.bytes())? {
            None => Text::new(self.alloc, b"!"),
            Some(Query::Get { key }) => shown(self.alloc, self.held.get(&key)),
            Some(Query::Count) => decimal(self.alloc, self.held.len() as u64),
        }
    }
}
