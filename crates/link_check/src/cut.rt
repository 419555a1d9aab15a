ghost use Rattle.std.specs.Prelude.{◌≡◌};
ghost use Rattle.link_check.specs.Cuts.{loses, loses_if_cut};

use linx_base::Verdict;

fn loses(verdict: Verdict) -> bool
    ensures { result ≡ loses verdict }
{
    match verdict {
        Verdict::Lose => true,
        _ => false,
    }
}

/// Whether a packet of a link, which is cut or not, meets a verdict that a cut link allows.
pub(crate) fn loses_if_cut(cut: bool, verdict: Verdict) -> bool
    ensures { result ≡ loses_if_cut cut verdict }
{
    !cut || loses(verdict)
}
