ghost use Rattle.std.specs.Prelude.{◌≡◌};
ghost use Rattle.link_check.specs.Links.{is_link, is_of_link};

use journal::Head;
use linx_base::LinkNo;

fn is_link(links: usize, link: LinkNo) -> bool
    ensures { result ≡ is_link links link }
{
    0 < link.0 && link.0 as usize <= links
}

/// Whether what a head says of a link is said of one of so many.
pub(crate) fn is_of_link(links: usize, head: &Head) -> bool
    ensures { result ≡ is_of_link links head.now }
{
    match head {
        Head::Wire(link, ..) => is_link(links, *link),
        Head::Tick(link, _) => is_link(links, *link),
        Head::Cut(link) => is_link(links, *link),
        Head::Mend(link) => is_link(links, *link),
        Head::Settle(link) => is_link(links, *link),
        _ => true,
    }
}
