//! One side of a link, with the record of its sessions. After a refusal the event is to be undone.
ghost use Rattle.std.specs.Prelude.{◌≡◌, ◌<◌, ◌≤◌, ◌++◌, Some, IfOk, OnOk};
ghost use Rattle.linx_base.specs.Both.{still};
ghost use Rattle.linx_base.specs.Frames.{IsMessage};
ghost use Rattle.linx_base.specs.Numbers.{boot_of};
ghost use Rattle.linx_base.specs.declared.identity.Session.{Session as AnySession};
ghost use Rattle.ethcm_session.specs.Table.{HasNext};
ghost use Rattle.ethcm_window.specs.Sending.{left_of};
ghost use Rattle.ethcm_end.specs.Rules.{input_of, offer_of, restart_of, tick_of};
ghost use Rattle.ethcm_end.specs.Sound.{IsPiece};
ghost use Rattle.ethcm_end.specs.States.{has_work_in, peer_of};
ghost use Rattle.carrier.specs.Records.{new_half};
ghost use Rattle.carrier.specs.Events.{drained, handed_as, recorded, recorded_tick, ticked_as};
ghost use Rattle.carrier.specs.Events.{with_next, with_offered};
ghost use Rattle.carrier.specs.Spelling.{IsSpelled, packet_at};

use crate::flight::Flight;
use crate::handed::{Handed, TickedSide};
use crate::note::Note;
use ethcm_end::{End, Input, Ticked};
use ethcm_headers::PacketBytes;
use linx_base::{Message, NoMemory, Session, TryCopy};
use std::alloc::Global;
use std::marker::Model;
use told_list::ToldList;

/// One side of a link, with a way back: its end, and the record of its sessions as the notes that
/// were taken, oldest first. Contracts see the side as it was when the event began, and as it is
/// now.
#[derive(Drop)]
pub(crate) struct Half {
    end: End,
    notes: ToldList<Note>,
    /// Whether anything was done to the side since the event began.
    touched: bool,
}

impl Model for Half {
    ghost use Rattle.std.specs.Prelude.{◌≡◌, false};
    ghost use Rattle.linx_base.specs.Both.{Both};
    ghost use Rattle.carrier.specs.Records.{HalfState};
    ghost use Rattle.carrier.specs.Notes.{half_with};

    ghost Value = { Both HalfState };

    ghost view = { λ h. record {
      was = half_with h.end.was h.notes.was;
      is = half_with h.end.is h.notes.is;
    } };

    ghost invariant = { λ h. h.touched ≡ false
        → half_with h.end.was h.notes.was ≡ half_with h.end.is h.notes.is };
}

/// All that the end sends goes into flight, behind the others.
fn send_all(end: &mut End, out: &mut Flight) -> Result<(), NoMemory>
    ensures end { OnOk result (end.new.is ≡ drained end.old.is) }
    ensures end_was { end.new.was ≡ end.old.was }
    ensures out { OnOk result (out.new.is ≡ out.old.is ++ end.old.is.out) }
    ensures out_was { out.new.was ≡ out.old.was }
{
    'sending: while let Some(bytes) = end.out()? {
        out.put(bytes)?;
    }
    Ok(())
}

/// What is handed up where the session of a side went up with this peer.
fn went_up(session: Session, peer: Option<Session>) -> Handed
    ensures { (other : AnySession) → peer ≡ Some other → result ≡ Handed.WentUp session other }
{
    match peer {
        Some(peer) => Handed::WentUp { session, peer },
        None => Handed::Nothing,
    }
}

impl Half {
    /// A side in the first session of boot 1. It takes no memory.
    pub(crate) fn new(alloc: Global, window: u32, piece: u32) -> Half
        requires { IsPiece piece }
        ensures { result ≡ still (new_half window piece) }
    {
        Half {
            end: End::new(alloc, 1, window, piece),
            notes: ToldList::new(),
            touched: false,
        }
    }

    /// A packet comes. It is recorded what becomes of the session, and a message that is handed up;
    /// what the end sends goes into flight.
    pub(crate) fn receive(
        &mut self,
        bytes: &PacketBytes,
        out: &mut Flight,
    ) -> Result<Handed, NoMemory>
        requires spelled { IsSpelled bytes.now }
        requires counted { HasNext self.old.is.end.talk.mine }
        ensures half { let r = input_of self.old.is.end (packet_at bytes.now) in
            OnOk result (self.new.is ≡ recorded self.old.is (drained r.state) r.answer) }
        ensures half_was { self.new.was ≡ self.old.was }
        ensures out { let r = input_of self.old.is.end (packet_at bytes.now) in
            OnOk result (out.new.is ≡ out.old.is ++ r.state.out) }
        ensures out_was { out.new.was ≡ out.old.was }
        ensures handed { let r = input_of self.old.is.end (packet_at bytes.now) in
            let mine = self.old.is.end.talk.mine in
            IfOk result (λ handed. handed ≡ handed_as mine (packet_at bytes.now).src r.answer) }
    {
        self.touched = true;
        let mine = self.end.mine();
        let peer = self.end.peer();
        let input = self.end.input(bytes)?;
        send_all(&mut self.end, out)?;
        match input {
            Input::Nothing => Ok(Handed::Nothing),
            Input::WentUp => Ok(went_up(mine, self.end.peer())),
            Input::WentDown => {
                let session = mine;
                self.notes.push(Note::Ended { session, peer });
                Ok(Handed::WentDown { session })
            }
            Input::Got(message) => {
                self.notes.push(Note::Handed(message.copy()?));
                Ok(Handed::Got(message))
            }
        }
    }

    /// A tick comes. It is recorded where it ends the session; what the end sends goes into flight.
    pub(crate) fn tick(&mut self, out: &mut Flight) -> Result<TickedSide, NoMemory>
        requires counted { HasNext self.old.is.end.talk.mine }
        ensures half { let r = tick_of self.old.is.end in
            OnOk result (self.new.is ≡ recorded_tick self.old.is (drained r.state) r.answer) }
        ensures half_was { self.new.was ≡ self.old.was }
        ensures out { let r = tick_of self.old.is.end in
            OnOk result (out.new.is ≡ out.old.is ++ r.state.out) }
        ensures out_was { out.new.was ≡ out.old.was }
        ensures ticked { let r = tick_of self.old.is.end in
            IfOk result (λ ticked. ticked ≡ ticked_as self.old.is.end.talk.mine r.answer) }
    {
        self.touched = true;
        let session = self.end.mine();
        let peer = self.end.peer();
        let ticked = self.end.tick()?;
        send_all(&mut self.end, out)?;
        match ticked {
            Ticked::Stays => Ok(TickedSide::Stays),
            Ticked::WentDown => {
                self.notes.push(Note::Ended { session, peer });
                Ok(TickedSide::WentDown { session })
            }
        }
    }

    /// A message is offered and recorded; what the end sends goes into flight.
    pub(crate) fn offer(&mut self, message: &Message, out: &mut Flight) -> Result<(), NoMemory>
        requires message { IsMessage message.now }
        requires left { 1024 ≤ left_of self.old.is.end.tx }
        ensures half { let s = offer_of self.old.is.end message.now in
            OnOk result (self.new.is ≡ with_offered self.old.is (drained s) message.now) }
        ensures half_was { self.new.was ≡ self.old.was }
        ensures out { let s = offer_of self.old.is.end message.now in
            OnOk result (out.new.is ≡ out.old.is ++ s.out) }
        ensures out_was { out.new.was ≡ out.old.was }
    {
        self.touched = true;
        self.end.offer(message)?;
        send_all(&mut self.end, out)?;
        self.notes.push(Note::Offered(message.copy()?));
        Ok(())
    }

    /// The side boots again, with a later boot number; the session that thereby ends is recorded.
    pub(crate) fn restart(&mut self, boot: u32) -> Result<(), NoMemory>
        requires { boot_of self.old.is.end.talk.mine < boot }
        ensures half { OnOk result
            (self.new.is ≡ with_next self.old.is (restart_of self.old.is.end boot)) }
        ensures half_was { self.new.was ≡ self.old.was }
    {
        self.touched = true;
        let session = self.end.mine();
        let peer = self.end.peer();
        self.notes.push(Note::Ended { session, peer });
        self.end.restart(boot);
        Ok(())
    }

    /// The session of this side.
    pub(crate) fn mine(&self) -> Session
        ensures { result ≡ self.now.is.end.talk.mine }
    {
        self.end.mine()
    }

    /// The session of its peer, `None` exactly while connecting.
    pub(crate) fn peer(&self) -> Option<Session>
        ensures { result ≡ peer_of self.now.is.end }
    {
        self.end.peer()
    }

    /// How many numbers are left to give to frames.
    pub(crate) fn frames_left(&self) -> u32
        ensures { result ≡ left_of self.now.is.end.tx }
    {
        self.end.frames_left()
    }

    /// Whether the end is connecting, or up and not confirmed, or has a frame that isn't
    /// acknowledged.
    pub(crate) fn has_work(&self) -> bool
        ensures { result ≡ has_work_in self.now.is.end }
    {
        self.end.has_work()
    }

    /// What is now stays. It takes no memory.
    pub(crate) fn keep(&mut self)
        ensures { self.new ≡ still self.old.is }
    {
        if !self.touched {
            return;
        }
        self.end.keep();
        self.notes.keep();
        self.touched = false;
    }

    /// What was is again. It takes no memory.
    pub(crate) fn undo(&mut self)
        ensures { self.new ≡ still self.old.was }
    {
        if !self.touched {
            return;
        }
        self.end.undo();
        self.notes.undo();
        self.touched = false;
    }
}
