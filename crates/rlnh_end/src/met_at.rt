use linx_base::Inc;

/// A peer that was met: the link address that the other side gave it, and its incarnation.
#[derive(Clone, Copy, Debug, PartialEq, Eq, Hash)]
pub struct MetAt {
    pub addr: u32,
    pub inc: Inc,
}
