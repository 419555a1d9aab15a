use keyed_list::{Keyed, NameKey};
use linx_base::{Inc, Name};

/// By what a named endpoint is found.
#[derive(PartialEq, Eq, PartialOrd, Ord, Drop)]
pub(crate) enum NamedKey {
    Name(NameKey),
    Inc(Inc),
}

/// An endpoint, under its name.
#[derive(Drop)]
pub struct NamedEndpoint {
    pub name: Name,
    pub inc: Inc,
}

impl Keyed<NamedKey> for NamedEndpoint {
    ghost use Rattle.name_table.specs.Naming.{keys_of};

    ghost keys = { keys_of };

    fn key(&self, at: u8) -> Option<NamedKey> {
        match at {
            0 => Some(NamedKey::Name(NameKey::of(&self.name))),
            1 => Some(NamedKey::Inc(self.inc)),
            _ => None,
        }
    }
}
