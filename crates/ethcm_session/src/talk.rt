ghost use Rattle.std.specs.Prelude.{◌≡◌, ◌<◌, ◌≤◌, ◌↔◌, IsSome};
ghost use Rattle.linx_base.specs.Both.{still};
ghost use Rattle.linx_base.specs.Numbers.{boot_of, next_session, IsNumbered};
ghost use Rattle.ethcm_session.specs.Table.{after_down, boot_state, from_peer, gives};
ghost use Rattle.ethcm_session.specs.Table.{is_confirmed_in, outcome_of, standing_peer, up_with};
ghost use Rattle.ethcm_session.specs.Table.{while_connecting, FollowsTable, HasNext};

use crate::standing::{Change, Standing, TalkState};
use linx_base::{ConnKind, Session};
use std::marker::Model;

/// The session of one link end, with a way back. Contracts see, as it was when an event began and
/// as it is now, the end's own session number, and whether it is connecting or up with a session of
/// its peer.
#[derive(Drop)]
pub struct Talk {
    state: TalkState,
    old_state: TalkState,
}

impl Model for Talk {
    ghost use Rattle.linx_base.specs.Both.{Both};
    ghost use Rattle.linx_base.specs.Numbers.{IsNumbered};
    ghost use Rattle.ethcm_session.specs.declared.standing.TalkState.{TalkState};

    ghost Value = { Both TalkState };

    ghost view = { λ t. record { was = t.old_state; is = t.state } };

    ghost invariant = { λ t. IsNumbered t.state.mine × IsNumbered t.old_state.mine };
}

/// The next session of the same boot.
fn next(session: Session) -> Session
    requires { HasNext session }
    ensures { result ≡ next_session session }
{
    Session(session.0 + 1)
}

/// The state of an end that has gone down.
fn gone_down(state: TalkState) -> TalkState
    requires { HasNext state.mine }
    ensures { result ≡ after_down state }
{
    TalkState {
        mine: next(state.mine),
        standing: Standing::Connecting,
    }
}

/// The state of an end that is up with a session of its peer.
fn up_with(state: TalkState, peer: Session, confirmed: bool) -> TalkState
    ensures { result ≡ up_with state peer confirmed }
{
    TalkState {
        mine: state.mine,
        standing: Standing::Up { peer, confirmed },
    }
}

/// What a packet means to a connecting end, and its state afterwards.
fn while_connecting(
    state: TalkState,
    src: Session,
    kind: Option<ConnKind>,
    to_me: bool,
) -> (Change, TalkState)
    ensures { gives result.0 result.1 ≡ while_connecting state src kind to_me }
{
    match kind {
        Some(ConnKind::Connect) => (Change::Reply(ConnKind::ConnectAck), state),
        Some(ConnKind::ConnectAck) if to_me => {
            (Change::WentUp { reply: true }, up_with(state, src, false))
        }
        Some(ConnKind::Ack) if to_me => {
            (Change::WentUp { reply: false }, up_with(state, src, true))
        }
        _ => (Change::Ignored, state),
    }
}

/// What a packet of the peer's session means to an end that is up, and its state afterwards.
fn from_peer(
    state: TalkState,
    peer: Session,
    kind: Option<ConnKind>,
    to_me: bool,
) -> (Change, TalkState)
    requires { HasNext state.mine }
    ensures { gives result.0 result.1 ≡ from_peer state peer kind to_me }
{
    match kind {
        Some(ConnKind::Connect) => (Change::HeardReply(ConnKind::Ack), state),
        _ if !to_me => (Change::Ignored, state),
        Some(ConnKind::Reset) => (Change::WentDown, gone_down(state)),
        Some(ConnKind::ConnectAck) => (Change::HeardReply(ConnKind::Ack), state),
        Some(ConnKind::Ack) | None => (Change::Heard, up_with(state, peer, true)),
    }
}

/// What a packet means to an end, and its state afterwards.
fn outcome(state: TalkState, src: Session, dst: u64, kind: Option<ConnKind>) -> (Change, TalkState)
    requires { HasNext state.mine }
    ensures { gives result.0 result.1 ≡ outcome_of state src dst kind }
{
    let to_me = dst == state.mine.0;
    match state.standing {
        Standing::Connecting => while_connecting(state, src, kind, to_me),
        Standing::Up { peer, .. } => {
            if src.0 < peer.0 {
                return (Change::Ignored, state);
            }
            if peer.0 < src.0 {
                return (Change::WentDown, gone_down(state));
            }
            from_peer(state, peer, kind, to_me)
        }
    }
}

/// The state of an end in the first session of a boot.
fn booted(boot: u32) -> TalkState
    requires { 1 ≤ boot }
    ensures state { result ≡ boot_state boot }
    ensures numbered { IsNumbered result.mine }
{
    TalkState {
        mine: Session::of(boot, 1),
        standing: Standing::Connecting,
    }
}

impl Talk {
    /// The first session of a boot, connecting. Boot numbers begin at 1.
    pub fn new(boot: u32) -> Talk
        requires { 1 ≤ boot }
        ensures { result ≡ still (boot_state boot) }
    {
        let state = booted(boot);
        Talk {
            state,
            old_state: state,
        }
    }

    /// The node of this end boots again: the first session of that boot, which is later than the
    /// one before it, is connecting.
    pub fn restart(&mut self, boot: u32)
        requires { boot_of self.old.is.mine < boot }
        ensures is { self.new.is ≡ boot_state boot }
        ensures rises { self.old.is.mine.0 < self.new.is.mine.0 }
        ensures was { self.new.was ≡ self.old.was }
    {
        self.state = booted(boot);
    }

    /// A packet from session `src` to session `dst`, 0 being an unknown one; its kind is `None` for
    /// data, ACK and NACK of frames.
    pub fn input(&mut self, src: Session, dst: u64, kind: Option<ConnKind>) -> Change
        requires { HasNext self.old.is.mine }
        ensures outcome { gives result self.new.is ≡ outcome_of self.old.is src dst kind }
        ensures table { FollowsTable self.old.is src dst kind (gives result self.new.is) }
        ensures down { (result ≡ Change.WentDown) ↔ (self.old.is.mine.0 < self.new.is.mine.0) }
        ensures never_falls { self.old.is.mine.0 ≤ self.new.is.mine.0 }
        ensures was { self.new.was ≡ self.old.was }
    {
        let (change, state) = outcome(self.state, src, dst, kind);
        self.state = state;
        change
    }

    /// The end goes down: its next session is connecting.
    pub fn lost(&mut self)
        requires up { IsSome (standing_peer self.old.is.standing) }
        requires counted { HasNext self.old.is.mine }
        ensures is { self.new.is ≡ after_down self.old.is }
        ensures was { self.new.was ≡ self.old.was }
    {
        self.state = gone_down(self.state);
    }

    /// The session of this end, which is never 0.
    pub fn mine(&self) -> Session
        ensures mine { result ≡ self.now.is.mine }
        ensures numbered { IsNumbered self.now.is.mine }
        ensures known { 0 < self.now.is.mine.0 }
    {
        self.state.mine
    }

    /// The session of the peer, `None` exactly while connecting.
    pub fn peer(&self) -> Option<Session>
        ensures { result ≡ standing_peer self.now.is.standing }
    {
        match self.state.standing {
            Standing::Connecting => None,
            Standing::Up { peer, .. } => Some(peer),
        }
    }

    /// Whether the end is up, and its peer has confirmed the session.
    pub fn confirmed(&self) -> bool
        ensures { result ≡ is_confirmed_in self.now.is.standing }
    {
        match self.state.standing {
            Standing::Connecting => false,
            Standing::Up { confirmed, .. } => confirmed,
        }
    }

    /// The session and where it stands.
    pub fn state(&self) -> TalkState
        ensures { result ≡ self.now.is }
    {
        self.state
    }

    /// What is now stays.
    pub fn keep(&mut self)
        ensures { self.new ≡ still self.old.is }
    {
        self.old_state = self.state;
    }

    /// What was is again.
    pub fn undo(&mut self)
        ensures { self.new ≡ still self.old.was }
    {
        self.state = self.old_state;
    }
}
