use crate::head::Refusal;
use linx_base::{AttRef, LinkNo, Name, NodeNo, Path, Peer, Side, Verdict};
use sigsel::Sigsel;

/// What a maker asks for. Each becomes at most one step.
#[derive(Drop)]
pub enum Event {
    Open(Name),
    Close,
    Send(Peer),
    Look(Sigsel),
    Hunt(Path),
    Attach(Peer),
    Detach(AttRef),
    Cut(LinkNo),
    Mend(LinkNo),
    Restart(NodeNo),
    Settle(LinkNo),
    Refuse(Refusal),
    End,
    Wire {
        link: LinkNo,
        from: Side,
        verdict: Verdict,
    },
    Tick {
        link: LinkNo,
        side: Side,
    },
}
