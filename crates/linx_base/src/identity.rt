//! The numbers that name things, and the peers that they make.
ghost use Rattle.std.specs.Prelude.{◌≡◌};

/// An incarnation: the k-th opening on node number n is `n * 2^32 + k`, and is never used twice.
#[derive(Clone, Copy, Debug, PartialEq, Eq, PartialOrd, Ord, Hash)]
pub struct Inc(pub u64);

impl Inc {
    ghost use Rattle.linx_base.specs.Numbers.{inc_of, node_of};

    /// The opening of this number, from 1, on a node.
    pub fn of(node: NodeNo, opening: u32) -> Inc
        ensures { result ≡ inc_of node.0 opening }
    {
        Inc((u64::from(node.0) << 32) + u64::from(opening))
    }

    /// The node that it was opened on.
    pub fn node(self) -> NodeNo
        ensures { result.0 ≡ node_of self }
    {
        NodeNo((self.0 >> 32) as u32)
    }
}

/// A session of one side of a link: its boot number times 2^32 plus a count from 1. 0 is unknown.
#[derive(Clone, Copy, Debug, PartialEq, Eq, PartialOrd, Ord, Hash)]
pub struct Session(pub u64);

impl Session {
    ghost use Rattle.linx_base.specs.Numbers.{boot_of, count_of, session_of};

    /// The session of this count, from 1, since the boot of this number.
    pub fn of(boot: u32, count: u32) -> Session
        ensures { result ≡ session_of boot count }
    {
        Session((u64::from(boot) << 32) + u64::from(count))
    }

    /// The number of its boot.
    pub fn boot(self) -> u32
        ensures { result ≡ boot_of self }
    {
        (self.0 >> 32) as u32
    }

    /// Its count since that boot, from 1.
    pub fn count(self) -> u32
        ensures { result ≡ count_of self }
    {
        (self.0 % (1 << 32)) as u32
    }
}

/// A node, from 1 in order of declaration.
#[derive(Clone, Copy, Debug, PartialEq, Eq, PartialOrd, Ord, Hash)]
pub struct NodeNo(pub u32);

/// A link, from 1 in order of declaration.
#[derive(Clone, Copy, Debug, PartialEq, Eq, PartialOrd, Ord, Hash)]
pub struct LinkNo(pub u32);

/// An attach, named by the position of the step that made it.
#[derive(Clone, Copy, Debug, PartialEq, Eq, PartialOrd, Ord, Hash)]
pub struct AttRef(pub u64);

/// Where an item of a queue came from: a step of the journal, and the place of the item's effect
/// in that step. Both count from 1.
#[derive(Clone, Copy, Debug, PartialEq, Eq, PartialOrd, Ord, Hash)]
pub struct ItemAt {
    pub step: u64,
    pub place: u64,
}

/// A side of a link. A direction is named by the side that sends.
#[derive(Clone, Copy, Debug, PartialEq, Eq, PartialOrd, Ord, Hash)]
pub enum Side {
    First,
    Second,
}

impl Side {
    ghost use Rattle.linx_base.specs.Sides.{other_of};

    /// The side across the link.
    pub fn other(self) -> Side
        ensures { result ≡ other_of self }
    {
        match self {
            Side::First => Side::Second,
            Side::Second => Side::First,
        }
    }
}

/// Whom an endpoint speaks with: an endpoint of its own node, or one reached in a session of a
/// link. The session is the own side's, so each reconnection begins new peers.
#[derive(Clone, Copy, Debug, PartialEq, Eq, Hash)]
pub enum Peer {
    Here(Inc),
    There {
        link: LinkNo,
        session: Session,
        inc: Inc,
    },
}
