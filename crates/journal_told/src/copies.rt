//! Copies of heads and effects, which share their data.
ghost use Rattle.std.specs.Prelude.{◌≡◌, IfOk};

use journal::{Effect, Head};
use linx_base::{NoMemory, TryCopy};

/// The same head.
pub(crate) fn copy_head(head: &Head) -> Result<Head, NoMemory>
    ensures { IfOk result (λ copy. copy ≡ head.now) }
{
    match head {
        Head::Open(name) => Ok(Head::Open(name.copy()?)),
        Head::Close => Ok(Head::Close),
        Head::Send(peer, note, answer) => Ok(Head::Send(*peer, note.copy()?, *answer)),
        Head::Take(filter, at) => Ok(Head::Take(filter.copy()?, *at)),
        Head::TakeNone(filter) => Ok(Head::TakeNone(filter.copy()?)),
        Head::Waits(filter) => Ok(Head::Waits(filter.copy()?)),
        Head::Hunt(path, note) => Ok(Head::Hunt(path.copy()?, note.copy()?)),
        Head::Attach(peer, note) => Ok(Head::Attach(*peer, note.copy()?)),
        Head::Detach(reference, answer) => Ok(Head::Detach(*reference, *answer)),
        Head::Cut(link) => Ok(Head::Cut(*link)),
        Head::Mend(link) => Ok(Head::Mend(*link)),
        Head::Settle(link) => Ok(Head::Settle(*link)),
        Head::Restart(node) => Ok(Head::Restart(*node)),
        Head::Wire(link, side, verdict) => Ok(Head::Wire(*link, *side, *verdict)),
        Head::Tick(link, side) => Ok(Head::Tick(*link, *side)),
        Head::Refused(reason) => Ok(Head::Refused(*reason)),
        Head::Ended => Ok(Head::Ended),
    }
}

/// The same effect.
pub(crate) fn copy_effect(effect: &Effect) -> Result<Effect, NoMemory>
    ensures { IfOk result (λ copy. copy ≡ effect.now) }
{
    match effect {
        Effect::Opened(inc) => Ok(Effect::Opened(*inc)),
        Effect::Closed(inc) => Ok(Effect::Closed(*inc)),
        Effect::Arrived(inc, peer, note) => Ok(Effect::Arrived(*inc, *peer, note.copy()?)),
        Effect::Found(inc, peer, note, hunt) => {
            Ok(Effect::Found(*inc, *peer, note.copy()?, *hunt))
        }
        Effect::Notified(inc, peer, note, reference, reason) => Ok(Effect::Notified(
            *inc,
            *peer,
            note.copy()?,
            *reference,
            *reason,
        )),
        Effect::Met(node, peer, name) => Ok(Effect::Met(*node, *peer, name.copy()?)),
        Effect::Gone(node, peer) => Ok(Effect::Gone(*node, *peer)),
        Effect::Up(node, link, session, other) => Ok(Effect::Up(*node, *link, *session, *other)),
        Effect::Down(node, link, session) => Ok(Effect::Down(*node, *link, *session)),
    }
}
