//! What is kept of a side of a link.
ghost use Rattle.std.specs.Prelude.{◌≡◌, ◌+◌, ◌<◌, if◌then◌else◌, suc, [], ◌∷◌, ◌++◌, length};
ghost use Rattle.std.specs.Prelude.{OnOk, None};
ghost use Rattle.std.specs.List.{list_any};
ghost use Rattle.journal.specs.Sessions.{session_past};
ghost use Rattle.link_laws.specs.Sessions.{ends_session, restarts, same_side};
ghost use Rattle.link_laws.specs.Sessions.{tells_heard, ticks};
ghost use Rattle.link_tables.specs.Sides.{HasRoom, downs_of_boot, fresh_side, had_in};
ghost use Rattle.link_tables.specs.Sides.{is_within, own_in, pair_past, side_past};

use journal::{Effect, Head, Step};
use linx_base::{LinkNo, NoMemory, NodeNo, Peer, Session, Side};
use std::alloc::Global;
use std::marker::Model;

/// How often the side went down in each boot that is over, how often in the present one, its session
/// that is up with the one of the other side that it is paired with, and its ticks in silence.
#[derive(Drop)]
pub struct SideTable {
    earlier: Vec<u32>,
    downs: u32,
    up: Option<Session>,
    pair: Option<Session>,
    silent: u32,
}

impl Model for SideTable {
    ghost use Rattle.link_tables.specs.Sides.{SideSoFar};

    ghost Value = { SideSoFar };

    ghost view = { λ t. record {
      earlier = t.earlier.items;
      downs = t.downs;
      up = t.up;
      pair = t.pair;
      silent = t.silent;
    } };
}

fn restarts(node: NodeNo, head: &Head) -> bool
    ensures { result ≡ restarts node.0 head.now }
{
    match head {
        Head::Restart(n) => n.0 == node.0,
        _ => false,
    }
}

fn ends_session(node: NodeNo, link: LinkNo, effect: &Effect) -> bool
    ensures { result ≡ ends_session node.0 link.0 effect.now }
{
    match effect {
        Effect::Down(n, l, _) => n.0 == node.0 && l.0 == link.0,
        _ => false,
    }
}

fn tells_heard(node: NodeNo, link: LinkNo, effect: &Effect) -> bool
    ensures { result ≡ tells_heard node.0 link.0 effect.now }
{
    match effect {
        Effect::Up(n, l, _, _) => n.0 == node.0 && l.0 == link.0,
        Effect::Met(n, peer, _) => match peer {
            Peer::There { link: l, .. } => n.0 == node.0 && l.0 == link.0,
            Peer::Here(_) => false,
        },
        Effect::Gone(n, peer) => match peer {
            Peer::There { link: l, .. } => n.0 == node.0 && l.0 == link.0,
            Peer::Here(_) => false,
        },
        Effect::Arrived(b, peer, _) => match peer {
            Peer::There { link: l, .. } => b.node().0 == node.0 && l.0 == link.0,
            Peer::Here(_) => false,
        },
        _ => false,
    }
}

fn same_side(a: Side, b: Side) -> bool
    ensures { result ≡ same_side a b }
{
    match a {
        Side::First => match b {
            Side::First => true,
            Side::Second => false,
        },
        Side::Second => match b {
            Side::First => false,
            Side::Second => true,
        },
    }
}

fn ticks(link: LinkNo, side: Side, head: &Head) -> bool
    ensures { result ≡ ticks link.0 side head.now }
{
    match head {
        Head::Tick(l, at) => l.0 == link.0 && same_side(side, *at),
        _ => false,
    }
}

/// The session of a side that is up after effects.
fn session_past(
    node: NodeNo,
    link: LinkNo,
    before: Option<Session>,
    effects: &[Effect],
) -> Option<Session>
    ensures { result ≡ session_past node.0 link.0 before effects.now }
{
    let mut up = before;
    for effect in effects {
        match effect {
            Effect::Up(n, l, x, _) => {
                if n.0 == node.0 && l.0 == link.0 {
                    up = Some(*x);
                }
            }
            Effect::Down(n, l, _) => {
                if n.0 == node.0 && l.0 == link.0 {
                    up = None;
                }
            }
            _ => (),
        }
    }
    up
}

/// The session of the other side that a side is paired with after effects.
fn pair_past(
    node: NodeNo,
    link: LinkNo,
    before: Option<Session>,
    effects: &[Effect],
) -> Option<Session>
    ensures { result ≡ pair_past node.0 link.0 before effects.now }
{
    let mut pair = before;
    for effect in effects {
        match effect {
            Effect::Up(n, l, _, y) => {
                if n.0 == node.0 && l.0 == link.0 {
                    pair = Some(*y);
                }
            }
            Effect::Down(n, l, _) => {
                if n.0 == node.0 && l.0 == link.0 {
                    pair = None;
                }
            }
            _ => (),
        }
    }
    pair
}

/// Whether effects end a session of a side.
fn end_session(node: NodeNo, link: LinkNo, effects: &[Effect]) -> bool
    ensures { result ≡ list_any (ends_session node.0 link.0) effects.now }
{
    effects
        .iter()
        .any(|effect| ends_session(node, link, effect))
}

/// Whether effects tell that a side heard.
fn tell_heard(node: NodeNo, link: LinkNo, effects: &[Effect]) -> bool
    ensures { result ≡ list_any (tells_heard node.0 link.0) effects.now }
{
    effects.iter().any(|effect| tells_heard(node, link, effect))
}

/// A count that begins anew, or rises by one, or stays.
fn count_past(anew: bool, rises: bool, count: u32) -> u32
    requires { count < 4294967295 }
    ensures { result ≡ (if anew then 0 else (if rises then suc count else count)) }
{
    if anew {
        0
    } else if rises {
        count + 1
    } else {
        count
    }
}

/// Whether a count is one from 1 to one more than another.
fn is_within(count: u32, downs: u32) -> bool
    ensures { result ≡ is_within count downs }
{
    0 < count && count - 1 <= downs
}

impl SideTable {
    /// A side before the first step.
    pub fn new(alloc: Global) -> SideTable
        ensures { result ≡ fresh_side }
    {
        SideTable {
            earlier: Vec::new(alloc),
            downs: 0,
            up: None,
            pair: None,
            silent: 0,
        }
    }

    /// The session that is up.
    pub fn up(&self) -> Option<Session>
        ensures { result ≡ self.now.up }
    {
        self.up
    }

    /// The session of the other side that the one that is up is paired with.
    pub fn pair(&self) -> Option<Session>
        ensures { result ≡ self.now.pair }
    {
        self.pair
    }

    /// The ticks since the side heard.
    pub fn silent(&self) -> u32
        ensures { result ≡ self.now.silent }
    {
        self.silent
    }

    /// The session that the side has, up or not.
    pub fn session(&self) -> Session
        requires { HasRoom self.now }
        ensures { result ≡ own_in self.now }
    {
        Session::of(1 + self.earlier.len() as u32, 1 + self.downs)
    }

    /// How often the side went down in a boot, by its number from 1. None where it hasn't begun.
    fn downs_of_boot(&self, boot: u32) -> Option<u32>
        ensures { result ≡ downs_of_boot self.now boot }
    {
        if boot == 0 {
            return None;
        }
        match self.earlier.get((boot - 1) as usize) {
            Some(downs) => Some(*downs),
            None => {
                if (boot - 1) as usize == self.earlier.len() {
                    Some(self.downs)
                } else {
                    None
                }
            }
        }
    }

    /// Whether the side has this session, or had it.
    pub fn had(&self, session: Session) -> bool
        ensures { result ≡ had_in self.now session }
    {
        match self.downs_of_boot(session.boot()) {
            Some(downs) => is_within(session.count(), downs),
            None => false,
        }
    }

    /// Passes a step, as the side of this link sees it that is on this node. After a refusal the
    /// table is thrown away.
    pub fn pass(
        &mut self,
        node: NodeNo,
        link: LinkNo,
        side: Side,
        step: &Step,
    ) -> Result<(), NoMemory>
        requires { HasRoom self.old }
        ensures { OnOk result (self.new ≡ side_past node.0 link.0 side step.now self.old) }
    {
        let restarted = restarts(node, &step.head);
        let ended = end_session(node, link, step.effects.as_slice());
        let heard = tell_heard(node, link, step.effects.as_slice());
        let ticked = ticks(link, side, &step.head);
        if restarted {
            self.earlier.push(self.downs)?;
        }
        self.up = session_past(node, link, self.up, step.effects.as_slice());
        self.pair = pair_past(node, link, self.pair, step.effects.as_slice());
        self.downs = count_past(restarted, ended, self.downs);
        self.silent = count_past(heard, ticked, self.silent);
        Ok(())
    }
}
