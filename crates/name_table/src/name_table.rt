ghost use Rattle.std.specs.Prelude.{◌≡◌, [], ◌∷◌, ◌++◌, is_some, OnOk, OnErr, IfErr};
ghost use Rattle.std.specs.Option.{option_copied, option_map};
ghost use Rattle.linx_base.specs.FirstMatch.{first_match, without_match};
ghost use Rattle.name_table.specs.Naming.{has_name, is_endpoint};

use crate::named::{NamedEndpoint, NamedKey};
use keyed_list::{KeyedList, NameKey};
use linx_base::{Inc, Name, NoMemory};
use std::alloc::Global;
use std::marker::Model;

/// The named endpoints of a node, which contracts see as their list in order of adding.
#[derive(Drop)]
pub struct NameTable {
    endpoints: KeyedList<NamedEndpoint, NamedKey>,
}

impl Model for NameTable {
    ghost use Rattle.std.specs.Prelude.{List};
    ghost use Rattle.name_table.specs.declared.named.NamedEndpoint.{NamedEndpoint};

    ghost Value = { List NamedEndpoint };

    ghost view = { λ t. t.endpoints };
}

impl NameTable {
    /// The table with no names. It takes no memory.
    pub fn new(alloc: Global) -> NameTable
        ensures { result ≡ [] }
    {
        NameTable {
            endpoints: KeyedList::new(alloc),
        }
    }

    /// Adds an endpoint under its name. A refusal gives the name back and changes nothing.
    pub fn add(&mut self, name: Name, inc: Inc) -> Result<(), (NoMemory, Name)>
        ensures ok { OnOk result (self.new ≡ self.old ++ record { name = name; inc = inc } ∷ []) }
        ensures err { OnErr result (self.new ≡ self.old) }
        ensures given_back { IfErr result (λ back. back.1 ≡ name) }
    {
        match self.endpoints.push(NamedEndpoint { name, inc }) {
            Ok(()) => Ok(()),
            Err((refusal, endpoint)) => Err((refusal, endpoint.name)),
        }
    }

    /// The first endpoint that was added under a name. `None` exactly where there is none.
    pub fn first(&self, name: &Name) -> Option<Inc>
        ensures { result ≡ option_map (λ e. e.inc) (first_match (has_name name.now) self.now) }
    {
        let key = NamedKey::Name(NameKey::of(name));
        let first = self.endpoints.nth(key, 0)?;
        Some(first.inc)
    }

    /// The name of an endpoint. `None` exactly where it isn't there.
    pub fn name_of(&self, inc: Inc) -> Option<&Name>
        ensures { option_copied result ≡ option_map (λ e. e.name)
            (first_match (is_endpoint inc) self.now) }
    {
        let endpoint = self.endpoints.nth(NamedKey::Inc(inc), 0)?;
        Some(&endpoint.name)
    }

    /// Takes out an endpoint, and says whether it was there. It takes no memory.
    pub fn remove(&mut self, inc: Inc) -> bool
        ensures there { result ≡ is_some (first_match (is_endpoint inc) self.old) }
        ensures others { self.new ≡ without_match (is_endpoint inc) self.old }
    {
        self.endpoints.take_first(NamedKey::Inc(inc)).is_some()
    }
}
