ghost use Rattle.std.specs.Prelude.{◌≡◌, is_some};
ghost use Rattle.keyed_list.specs.Keys.{is_under};
ghost use Rattle.linx_base.specs.Pending.{is_for, name_over};
ghost use Rattle.linx_base.specs.declared.pending.PendingHunt.{PendingHunt as Hunt};
ghost use Rattle.hunt_table.specs.Keys.{path_key, link_key, keys_of};

use keyed_list::{Keyed, NameKey};
use linx_base::{Inc, LinkNo, Path, PendingHunt};

/// By what a hunt is found: its path, the link that this goes over, and the hunter.
#[derive(PartialEq, Eq, PartialOrd, Ord, Drop)]
pub enum HuntKey {
    Local(NameKey),
    Over { link: LinkNo, name: NameKey },
    Link(LinkNo),
    Hunter(Inc),
}

/// The key of the hunts for a path.
pub(crate) fn path_key(path: &Path) -> HuntKey
    ensures key { result ≡ path_key path.now }
    ensures finds { (hunt : Hunt) → is_under ⟦<HuntKey as Ord>⟧.cmp keys_of result hunt
        ≡ is_for path.now hunt }
{
    match path {
        Path::Local(name) => HuntKey::Local(NameKey::of(name)),
        Path::Over { link, name } => HuntKey::Over {
            link: *link,
            name: NameKey::of(name),
        },
    }
}

/// The key of the hunts over a link.
pub(crate) fn over_key(link: LinkNo) -> HuntKey
    ensures { (hunt : Hunt) → is_under ⟦<HuntKey as Ord>⟧.cmp keys_of result hunt
        ≡ is_some (name_over link hunt.path) }
{
    HuntKey::Link(link)
}

/// The key of the hunts over the link of a path, `None` exactly where it goes over none.
fn link_key(path: &Path) -> Option<HuntKey>
    ensures { result ≡ link_key path.now }
{
    match path {
        Path::Local(_) => None,
        Path::Over { link, .. } => Some(HuntKey::Link(*link)),
    }
}

impl Keyed<HuntKey> for PendingHunt {
    ghost keys = { keys_of };

    fn key(&self, at: u8) -> Option<HuntKey> {
        match at {
            0 => Some(path_key(&self.path)),
            1 => Some(HuntKey::Hunter(self.at)),
            2 => link_key(&self.path),
            _ => None,
        }
    }
}
