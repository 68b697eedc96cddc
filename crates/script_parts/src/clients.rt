ghost use Rattle.std.specs.Prelude.{◌≡◌, [], true, OnOk, IfSome};
ghost use Rattle.std.specs.Option.{option_copied};
ghost use Rattle.std.specs.BTreeMap.{insert_entry, is_at};
ghost use Rattle.std.specs.Map.{lookup};
ghost use Rattle.object_model.specs.Object.{key_order as text_order};
ghost use Rattle.script_parts.specs.Fit.{is_fit_client};

use host_ids::{NoMemory, Text};
use run_model::ClientSession;
use std::alloc::Global;
use std::collections::BTreeMap;
use std::marker::Model;

/// The clients' sessions by their names. Clauses see them as pairs of a name and a session, by
/// ascending names.
///
/// The numbers of each session are in their ranges, and its outstanding command has 1 to 512 bytes: a
/// fact of this type, which holds after `NoMemory` too. Source: dissertation section 6.3; names are this
/// project's own.
#[derive(Drop)]
pub struct Clients {
    held: BTreeMap<Text, ClientSession>,
}

impl Model for Clients {
    ghost use Rattle.std.specs.Prelude.{◌≡◌, true, List, ℕ};
    ghost use Rattle.run_model.specs.declared.client.ClientSession.{ClientSession};
    ghost use Rattle.script_parts.specs.Fit.{are_fit_clients};

    ghost Value = { List (List ℕ × ClientSession) };

    ghost view = { λ c. c.held.entries };

    ghost invariant = { λ c. are_fit_clients c.held.entries ≡ true };
}

impl Clients {
    /// No sessions, which takes no memory.
    pub fn new(alloc: Global) -> Clients
        ensures { result ≡ [] }
    {
        Clients {
            held: BTreeMap::new(alloc),
        }
    }

    /// The session of a name, `None` where the name has none. Its numbers are in their ranges.
    pub fn get(&self, name: &Text) -> Option<&ClientSession>
        ensures found { option_copied result ≡ lookup (is_at (text_order name.now)) self.now }
        ensures fit { IfSome result (λ s. is_fit_client s.now ≡ true) }
    {
        self.held.get(name)
    }

    /// Puts a session under a name, in place of one that the name has. Its numbers are in their ranges.
    /// The only error is `NoMemory`, after which no clause says which sessions there are.
    pub fn put(&mut self, name: Text, session: ClientSession) -> Result<(), NoMemory>
        requires { is_fit_client session ≡ true }
        ensures { OnOk result (self.new ≡ insert_entry text_order self.old name session) }
    {
        self.held.insert(name, session)?;
        Ok(())
    }
}
