ghost use Rattle.std.specs.Prelude.{◌≡◌};
ghost use Rattle.link_check.specs.Ticks.{session_to_lose};

use link_tables::SideTable;
use linx_base::Session;

/// The session that a tick of a side may lose: the one that is up, where the side heard nothing for
/// two ticks.
pub(crate) fn session_to_lose(side: &SideTable) -> Option<Session>
    ensures { result ≡ session_to_lose side.now }
{
    if side.silent() >= 2 { side.up() } else { None }
}
