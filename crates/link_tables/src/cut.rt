ghost use Rattle.std.specs.Prelude.{◌≡◌};
ghost use Rattle.link_laws.specs.Sessions.{cut_after};

use journal::Head;
use linx_base::LinkNo;

/// Whether a link is cut after a head, which it was before or not.
pub fn cut_after(link: LinkNo, before: bool, head: &Head) -> bool
    ensures { result ≡ cut_after link.0 before head.now }
{
    match head {
        Head::Cut(l) => { if l.0 == link.0 { true } else { before } }
        Head::Mend(l) => { if l.0 == link.0 { false } else { before } }
        _ => before,
    }
}
