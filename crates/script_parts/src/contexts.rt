ghost use Rattle.std.specs.Prelude.{◌≡◌, ◌<◌, ◌^◌, ◌-◌, ◌++◌, [], ◌∷◌, length, take, replicate, slice_set, IfOk, OnErr, OnOk};
ghost use Rattle.run_model.specs.World.{contexts_at};
ghost use Rattle.run_model.specs.Run.{context_at, context_by};
ghost use Rattle.script_parts.specs.Index.{has_text};

use host_ids::{Key, NoMemory, Text};
use std::alloc::Global;
use std::collections::BTreeSet;
use std::marker::Model;

/// The contexts of a host's requests, in order of their serials. Clauses see it as their list.
#[derive(Drop)]
struct Asked {
    list: Vec<Text>,
}

impl Model for Asked {
    ghost use Rattle.std.specs.Prelude.{List, ℕ};

    ghost Value = { List (List ℕ) };

    ghost view = { λ a. a.list.items };
}

impl Asked {
    fn new(alloc: Global) -> Asked
        ensures { result ≡ [] }
    {
        Asked {
            list: Vec::new(alloc),
        }
    }

    fn count(&self) -> u64
        ensures count { result ≡ length self.now }
        ensures small { result < 2 ^ 63 }
    {
        self.list.len() as u64
    }

    fn push(&mut self, context: Text) -> Result<(), NoMemory>
        ensures ok { OnOk result (self.new ≡ self.old ++ context ∷ []) }
        ensures err { OnErr result (self.new ≡ self.old) }
    {
        self.list.push(context)?;
        Ok(())
    }

    /// Takes the last one away.
    fn pop(&mut self)
        ensures { self.new ≡ take (length self.old - 1) self.old }
    {
        let _ = self.list.pop();
    }

    /// The context of the request with this serial, `-` at 0, where there is none.
    fn at(&self, alloc: Global, serial: u64) -> Result<Text, NoMemory>
        ensures { IfOk result (λ text. text ≡ context_by self.now serial) }
    {
        context_by(alloc, &self.list, serial)
    }
}

fn context_by(alloc: Global, contexts: &[Text], serial: u64) -> Result<Text, NoMemory>
    ensures { IfOk result (λ text. text ≡ context_by contexts.now serial) }
{
    if serial == 0 {
        return Text::new(alloc, b"-");
    }
    match contexts.get((serial - 1) as usize) {
        Some(context) => context.copy(),
        None => Text::new(alloc, b"?"),
    }
}

/// The contexts of all hosts' requests, with an index by which one is found. Clauses see it as the
/// table of their lists by host.
///
/// The table has ten places, one for each number of a host, and the index has each context and no
/// other: a fact of this type, which holds after `NoMemory` too. Source: this project's own.
#[derive(Drop)]
pub struct Contexts {
    alloc: Global,
    hosts: Vec<Asked>,
    used: BTreeSet<Text>,
}

impl Model for Contexts {
    ghost use Rattle.std.specs.Prelude.{◌≡◌, List, ℕ, length};
    ghost use Rattle.script_parts.specs.Index.{Indexes};

    ghost Value = { List (List (List ℕ)) };

    ghost view = { λ c. c.hosts.items };

    ghost invariant = { λ c. (length c.hosts.items ≡ 10) × Indexes c.used.keys c.hosts.items };
}

/// The table of hosts that have asked nothing.
fn no_requests(alloc: Global) -> Result<Vec<Asked>, NoMemory>
    ensures { IfOk result (λ hosts. hosts.items ≡ replicate 10 []) }
{
    Ok(vec![in alloc;
        Asked::new(alloc),
        Asked::new(alloc),
        Asked::new(alloc),
        Asked::new(alloc),
        Asked::new(alloc),
        Asked::new(alloc),
        Asked::new(alloc),
        Asked::new(alloc),
        Asked::new(alloc),
        Asked::new(alloc),
    ]?)
}

impl Contexts {
    /// No contexts. The only error is `NoMemory`.
    pub fn new(alloc: Global) -> Result<Contexts, NoMemory>
        ensures { IfOk result (λ contexts. contexts ≡ replicate 10 []) }
    {
        Ok(Contexts {
            alloc,
            hosts: no_requests(alloc)?,
            used: BTreeSet::new(alloc),
        })
    }

    /// How many requests a host had, 0 where the table has no such host.
    pub fn count(&self, host: u8) -> u64
        ensures count { result ≡ length (contexts_at self.now host) }
        ensures small { result < 2 ^ 63 }
    {
        match self.hosts.get(host as usize) {
            Some(asked) => asked.count(),
            None => 0,
        }
    }

    /// Whether a context is among those of any host.
    pub fn has(&self, context: &Text) -> bool
        ensures { result ≡ has_text context.now self.now }
    {
        self.used.contains(context)
    }

    /// The next request of a host, 0 to 9, has this context. The only error is `NoMemory`, after which no
    /// clause says which contexts there are.
    pub fn push(&mut self, host: u8, context: Text) -> Result<(), NoMemory>
        requires { host < 10 }
        ensures { OnOk result (self.new ≡ slice_set self.old host (contexts_at self.old host ++ context ∷ [])) }
    {
        let key = context.copy()?;
        let place = host as usize;
        self.hosts[place].push(context)?;
        match self.used.insert(key) {
            Ok(_) => Ok(()),
            Err(_) => {
                self.hosts[place].pop();
                Err(NoMemory)
            }
        }
    }

    /// The context of a request, `-` where the key has serial 0 and so is that of none, `?` where the
    /// host has no such request. The only error is `NoMemory`.
    pub fn at(&self, key: Key) -> Result<Text, NoMemory>
        ensures { IfOk result (λ text. text ≡ context_at self.now key) }
    {
        match self.hosts.get(key.host as usize) {
            Some(asked) => asked.at(self.alloc, key.serial),
            None => context_by(self.alloc, &[], key.serial),
        }
    }
}
