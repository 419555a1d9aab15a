use linx_base::LinkNo;

/// Who made a step: an actor, from 1 in order of declaration, or the pump of a link.
#[derive(Clone, Copy, Debug, PartialEq, Eq, Hash)]
pub enum By {
    Actor(u32),
    Pump(LinkNo),
}
