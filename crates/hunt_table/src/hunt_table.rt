ghost use Rattle.std.specs.Prelude.{◌≡◌, [], ◌∷◌, ◌++◌, not, filter, is_some, OnOk, OnErr, IfErr};
ghost use Rattle.linx_base.specs.Peers.{same_inc};
ghost use Rattle.linx_base.specs.Pending.{is_for, name_over};

use crate::hunt_key::{HuntKey, over_key, path_key};
use keyed_list::{KeyedList, Under};
use linx_base::{Inc, LinkNo, NoMemory, Path, PendingHunt};
use std::alloc::Global;
use std::marker::Model;

/// The pending hunts of a node, which contracts see as their list in order of hunting.
#[derive(Drop)]
pub struct HuntTable {
    hunts: KeyedList<PendingHunt, HuntKey>,
}

impl Model for HuntTable {
    ghost use Rattle.std.specs.Prelude.{List};
    ghost use Rattle.linx_base.specs.declared.pending.PendingHunt.{PendingHunt};

    ghost Value = { List PendingHunt };

    ghost view = { λ t. t.hunts };
}

/// A walk over hunts of a table, in order of hunting.
pub type HuntsUnder<'a> = Under<'a, PendingHunt, HuntKey>;

impl HuntTable {
    /// The table with no hunts. It takes no memory.
    pub fn new(alloc: Global) -> HuntTable
        ensures { result ≡ [] }
    {
        HuntTable {
            hunts: KeyedList::new(alloc),
        }
    }

    /// Adds a hunt at the end. A refusal gives it back and changes nothing.
    pub fn pend(&mut self, hunt: PendingHunt) -> Result<(), (NoMemory, PendingHunt)>
        ensures ok { OnOk result (self.new ≡ self.old ++ hunt ∷ []) }
        ensures err { OnErr result (self.new ≡ self.old) }
        ensures given_back { IfErr result (λ back. back.1 ≡ hunt) }
    {
        self.hunts.push(hunt)
    }

    /// The hunts for a path, in order.
    pub fn hunts_for(&self, path: &Path) -> HuntsUnder<'_>
        ensures { result ≡ filter (is_for path.now) self.now }
    {
        self.hunts.under(path_key(path))
    }

    /// The hunts whose path goes over a link, in order.
    pub fn hunts_over(&self, link: LinkNo) -> HuntsUnder<'_>
        ensures { result ≡ filter (λ hunt. is_some (name_over link hunt.path)) self.now }
    {
        self.hunts.under(over_key(link))
    }

    /// Frees the hunts for a path. It takes no memory.
    pub fn drop_for(&mut self, path: &Path)
        ensures { self.new ≡ filter (λ hunt. not (is_for path.now hunt)) self.old }
    {
        self.hunts.drop_all(path_key(path));
    }

    /// Frees the hunts of a hunter. It takes no memory.
    pub fn drop_of(&mut self, hunter: Inc)
        ensures { self.new ≡ filter (λ hunt. not (same_inc hunter hunt.at)) self.old }
    {
        self.hunts.drop_all(HuntKey::Hunter(hunter));
    }
}
