ghost use Rattle.std.specs.Prelude.{◌≡◌};

use arrayvec::ArrayVec;
use linx_base::Name;
use std::marker::Model;

/// The bytes of a name, which lie in the value itself. Contracts see them as those of the name.
#[derive(PartialEq, Eq, PartialOrd, Ord, Drop)]
pub struct NameKey {
    text: ArrayVec<u8, 32>,
}

impl Model for NameKey {
    ghost use Rattle.std.specs.Prelude.{List, ℕ};

    ghost Value = { List ℕ };

    ghost view = { λ k. k.text.items };

    ghost inverse = { λ bytes. record { text = record { items = bytes } } };
}

impl NameKey {
    /// The key of a name. It takes no memory.
    pub fn of(name: &Name) -> NameKey
        ensures { result ≡ name.now }
    {
        let mut text = ArrayVec::new();
        let _ = text.try_extend_from_slice(name.bytes());
        NameKey { text }
    }
}
