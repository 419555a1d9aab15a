//! Laws of a head alone.
ghost use Rattle.std.specs.Prelude.{◌≡◌, is_none, is_some};
ghost use Rattle.journal.specs.Laws.{is_endpoints, is_opening, name_of_path};
ghost use Rattle.linx_base.specs.NameText.{is_name};
ghost use Rattle.journal_check.specs.Calls.{is_bounded, suits};

use journal::Head;
use linx_base::{Inc, Name, Path};

/// The most data bytes of a signal.
const DATA_MOST: usize = 65_532;

fn is_opening(head: &Head) -> bool
    ensures { result ≡ is_opening head.now }
{
    match head {
        Head::Open(_) => true,
        _ => false,
    }
}

fn is_endpoints(head: &Head) -> bool
    ensures { result ≡ is_endpoints head.now }
{
    match head {
        Head::Close
        | Head::Send(..)
        | Head::Take(..)
        | Head::TakeNone(_)
        | Head::Waits(_)
        | Head::Hunt(..)
        | Head::Attach(..)
        | Head::Detach(..) => true,
        _ => false,
    }
}

/// Whether a head suits the endpoint of its maker.
pub(crate) fn suits(me: Option<Inc>, head: &Head) -> bool
    ensures { result ≡ suits me head.now }
{
    (!is_opening(head) || me.is_none()) && (!is_endpoints(head) || me.is_some())
}

/// A name is one, by its type.
fn is_name(name: &Name) -> bool
    ensures { result ≡ is_name name.now }
{
    let _bytes = name.bytes();
    true
}

fn has_name(path: &Path) -> bool
    ensures { result ≡ is_name (name_of_path path.now) }
{
    match path {
        Path::Local(name) | Path::Over { name, .. } => is_name(name),
    }
}

/// Whether a head is within its bounds.
pub(crate) fn is_bounded(head: &Head) -> bool
    ensures { result ≡ is_bounded head.now }
{
    match head {
        Head::Open(name) => is_name(name),
        Head::Send(_, note, _) => note.data().len() <= DATA_MOST,
        Head::Hunt(path, note) => has_name(path) && note.data().len() <= DATA_MOST,
        Head::Attach(_, note) => note.data().len() < DATA_MOST,
        _ => true,
    }
}
