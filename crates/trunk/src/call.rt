ghost use Rattle.trunk.specs.Calls.{IsNamed};

use linx_base::{Inc, Name, Signal};

/// What is called at a side of a trunk.
#[derive(Clone, Copy)]
pub enum SideCall<'a> {
    /// An endpoint of this name opened.
    Opened(Inc, &'a Name),
    Closed(Inc),
    /// The side's node boots again.
    Restarted(u32),
    /// The endpoint of this name was asked for, and is told.
    Published(Inc, &'a Name),
    Asked(&'a Name),
    /// A signal is sent from an endpoint of this name to a peer.
    Sent(Inc, &'a Name, Inc, &'a Signal),
}

impl SideCall<'_> {
    /// That the bytes of a name that is asked for spell one. It does nothing.
    pub(crate) fn bytes_of_name(self)
        ensures { IsNamed self.entry }
    {
        if let SideCall::Asked(name) = self {
            name.bytes();
        }
    }
}
