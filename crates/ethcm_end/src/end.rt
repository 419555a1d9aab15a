ghost use Rattle.std.specs.Prelude.{◌≡◌, ◌<◌, ◌≤◌, IfOk, OnOk, OnErr, slice_get};
ghost use Rattle.std.specs.Option.{ForSome};
ghost use Rattle.linx_base.specs.Both.{still};
ghost use Rattle.linx_base.specs.Frames.{IsMessage};
ghost use Rattle.linx_base.specs.Numbers.{boot_of};
ghost use Rattle.ethcm_headers.specs.Packets.{IsPacket, Spells};
ghost use Rattle.ethcm_headers.specs.declared.packets.Packet.{Packet as AnyPacket};
ghost use Rattle.ethcm_session.specs.Table.{HasNext};
ghost use Rattle.ethcm_window.specs.Sending.{left_of};
ghost use Rattle.ethcm_end.specs.States.{gives, has_work_in, new_end, peer_of};
ghost use Rattle.ethcm_end.specs.Sound.{FitsMessage, IsPiece, IsSoundEnd};
ghost use Rattle.ethcm_end.specs.Rules.{after_out, input_of, next_bytes, offer_of};
ghost use Rattle.ethcm_end.specs.Rules.{restart_of, tick_of};

use crate::answers::{Input, Ticked};
use crate::events::{take_offer, take_packet, take_tick};
use crate::parts::Parts;
use ethcm_headers::{Packet, PacketBytes, ReadError, read};
use linx_base::{Message, NoMemory, Session};
use std::alloc::Global;
use std::marker::Model;

/// One end of a link, with a way back: what an event did either stays, or is undone. An event is a
/// `keep` or an `undo` and the calls since the one before it. Contracts see the state of the end as
/// it was when the event began, and as it is now.
#[derive(Drop)]
pub struct End {
    parts: Parts,
}

impl Model for End {
    ghost use Rattle.linx_base.specs.Both.{Both};
    ghost use Rattle.ethcm_end.specs.States.{EndState};
    ghost use Rattle.ethcm_end.specs.Sound.{IsSoundEnd};

    ghost Value = { Both EndState };

    ghost view = { λ e. e.parts };

    ghost invariant = { λ e. IsSoundEnd e.parts.was × IsSoundEnd e.parts.is };
}

/// `take_packet`, which leaves a sound end sound.
fn react(parts: &mut Parts, packet: Packet) -> Result<Input, NoMemory>
    requires counted { HasNext parts.old.is.talk.mine }
    requires packet { IsPacket packet }
    requires sound { IsSoundEnd parts.old.is }
    ensures reaction { let reaction = input_of parts.old.is packet in
        IfOk result (λ handed. gives parts.new.is handed ≡ reaction) }
    ensures was { parts.new.was ≡ parts.old.was }
    ensures sound { OnOk result (IsSoundEnd parts.new.is) }
{
    let handed = take_packet(parts, packet)?;
    Ok(handed)
}

/// `take_tick`, which leaves a sound end sound.
fn beat(parts: &mut Parts) -> Result<Ticked, NoMemory>
    requires counted { HasNext parts.old.is.talk.mine }
    requires sound { IsSoundEnd parts.old.is }
    ensures reaction { IfOk result (λ ticked. gives parts.new.is ticked ≡ tick_of parts.old.is) }
    ensures was { parts.new.was ≡ parts.old.was }
    ensures sound { OnOk result (IsSoundEnd parts.new.is) }
{
    let ticked = take_tick(parts)?;
    Ok(ticked)
}

/// The numbers of a message fit their fields.
fn fits(message: &Message)
    ensures { FitsMessage message.now }
{
    let _from = message.from;
    let _to = message.to;
}

/// `take_offer`, which leaves a sound end sound.
fn send(parts: &mut Parts, message: &Message) -> Result<(), NoMemory>
    requires message { IsMessage message.now }
    requires left { 1024 ≤ left_of parts.old.is.tx }
    requires sound { IsSoundEnd parts.old.is }
    ensures is { OnOk result (parts.new.is ≡ offer_of parts.old.is message.now) }
    ensures was { parts.new.was ≡ parts.old.was }
    ensures sound { OnOk result (IsSoundEnd parts.new.is) }
{
    // The size of the pieces is within bounds, and the message's numbers fit their fields.
    let _ = parts.piece();
    fits(message);
    take_offer(parts, message)?;
    Ok(())
}

/// `Parts::out` of a sound end, which stays sound; what goes out is a packet of the wire.
fn hand_out(parts: &mut Parts) -> Result<Option<PacketBytes>, NoMemory>
    requires { IsSoundEnd parts.old.is }
    ensures bytes { IfOk result (λ bytes. bytes ≡ next_bytes parts.old.is) }
    ensures is { OnOk result (parts.new.is ≡ after_out parts.old.is) }
    ensures was { parts.new.was ≡ parts.old.was }
    ensures err { OnErr result (parts.new ≡ parts.old) }
    ensures packet { ForSome (slice_get parts.old.is.out 0) IsPacket }
    ensures sound { IsSoundEnd parts.new.is }
{
    let bytes = parts.out()?;
    Ok(bytes)
}

impl End {
    /// An end in the first session of a boot, which begins at 1. Its window is so many frames, and
    /// its pieces have 64 to 8,192 bytes. It takes no memory.
    pub fn new(alloc: Global, boot: u32, window: u32, piece: u32) -> End
        requires boot { 1 ≤ boot }
        requires piece { IsPiece piece }
        ensures { result ≡ still (new_end boot window piece) }
    {
        End {
            parts: Parts::new(alloc, boot, window, piece),
        }
    }

    /// The packet comes that these bytes spell. Bytes that are no packet change nothing. A refusal
    /// undoes the event.
    pub fn input(&mut self, bytes: &PacketBytes) -> Result<Input, NoMemory>
        requires { HasNext self.old.is.talk.mine }
        ensures packet { IfOk result (λ handed. (packet : AnyPacket) → Spells packet bytes.now
            → gives self.new.is handed ≡ input_of self.old.is packet) }
        ensures no_packet { IfOk result (λ handed.
            ((packet : AnyPacket) → ¬ (Spells packet bytes.now))
            → gives self.new.is handed ≡ gives self.old.is Input.Nothing) }
        ensures was { self.new.was ≡ self.old.was }
        ensures err { OnErr result (self.new ≡ still self.old.was) }
    {
        match read(bytes) {
            Err(ReadError::Bad) => Ok(Input::Nothing),
            Err(ReadError::NoMemory) => {
                self.undo();
                Err(NoMemory)
            }
            Ok(packet) => self.take(packet),
        }
    }

    /// The packet that was read comes. A refusal undoes the event.
    fn take(&mut self, packet: Packet) -> Result<Input, NoMemory>
        requires counted { HasNext self.old.is.talk.mine }
        requires packet { IsPacket packet }
        ensures reaction { let reaction = input_of self.old.is packet in
            IfOk result (λ handed. gives self.new.is handed ≡ reaction) }
        ensures was { self.new.was ≡ self.old.was }
        ensures err { OnErr result (self.new ≡ still self.old.was) }
    {
        match react(&mut self.parts, packet) {
            Ok(handed) => Ok(handed),
            Err(_) => {
                self.parts.undo();
                Err(NoMemory)
            }
        }
    }

    /// A tick comes. A refusal undoes the event.
    pub fn tick(&mut self) -> Result<Ticked, NoMemory>
        requires { HasNext self.old.is.talk.mine }
        ensures reaction { IfOk result (λ ticked. gives self.new.is ticked ≡ tick_of self.old.is) }
        ensures was { self.new.was ≡ self.old.was }
        ensures err { OnErr result (self.new ≡ still self.old.was) }
    {
        match beat(&mut self.parts) {
            Ok(ticked) => Ok(ticked),
            Err(_) => {
                self.parts.undo();
                Err(NoMemory)
            }
        }
    }

    /// A message is offered, whose pieces share its bytes. Offer none to an end that is connecting:
    /// it would do nothing. A refusal undoes the event.
    pub fn offer(&mut self, message: &Message) -> Result<(), NoMemory>
        requires message { IsMessage message.now }
        // A message has at most 1,024 pieces, and each gets a number.
        requires left { 1024 ≤ left_of self.old.is.tx }
        ensures is { OnOk result (self.new.is ≡ offer_of self.old.is message.now) }
        ensures was { self.new.was ≡ self.old.was }
        ensures err { OnErr result (self.new ≡ still self.old.was) }
    {
        match send(&mut self.parts, message) {
            Ok(()) => Ok(()),
            Err(_) => {
                self.parts.undo();
                Err(NoMemory)
            }
        }
    }

    /// The node boots again, with a later boot number: the end is a new one, with the same window
    /// and pieces of the same size. It takes no memory.
    pub fn restart(&mut self, boot: u32)
        requires { boot_of self.old.is.talk.mine < boot }
        ensures is { self.new.is ≡ restart_of self.old.is boot }
        ensures rises { self.old.is.talk.mine.0 < self.new.is.talk.mine.0 }
        ensures was { self.new.was ≡ self.old.was }
    {
        self.parts.restart(boot);
    }

    /// Takes out the next packet to be put on the wire, as its bytes; `None` exactly where there is
    /// none. A refusal changes nothing.
    pub fn out(&mut self) -> Result<Option<PacketBytes>, NoMemory>
        ensures bytes { IfOk result (λ bytes. bytes ≡ next_bytes self.old.is) }
        ensures is { OnOk result (self.new.is ≡ after_out self.old.is) }
        ensures packet { ForSome (slice_get self.old.is.out 0) IsPacket }
        ensures was { self.new.was ≡ self.old.was }
        ensures err { OnErr result (self.new ≡ self.old) }
    {
        hand_out(&mut self.parts)
    }

    /// The session of this end, which is never 0.
    pub fn mine(&self) -> Session
        ensures mine { result ≡ self.now.is.talk.mine }
        // The end is sound at every moment.
        ensures sound { IsSoundEnd self.now.is }
        ensures sound_before { IsSoundEnd self.now.was }
    {
        self.parts.talk.mine()
    }

    /// The session of the peer, `None` exactly while connecting.
    pub fn peer(&self) -> Option<Session>
        ensures { result ≡ peer_of self.now.is }
    {
        self.parts.peer()
    }

    /// Whether the end is connecting, or up and not confirmed, or has a frame that isn't
    /// acknowledged.
    pub fn has_work(&self) -> bool
        ensures { result ≡ has_work_in self.now.is }
    {
        !self.parts.talk.confirmed() || !self.parts.tx.is_empty()
    }

    /// How many numbers are left to give to frames.
    pub fn frames_left(&self) -> u32
        ensures { result ≡ left_of self.now.is.tx }
    {
        self.parts.tx.left()
    }

    /// What is now stays, and the next event begins. It takes no memory.
    pub fn keep(&mut self)
        ensures { self.new ≡ still self.old.is }
    {
        self.parts.keep();
    }

    /// What was is again, and the next event begins. It takes no memory.
    pub fn undo(&mut self)
        ensures { self.new ≡ still self.old.was }
    {
        self.parts.undo();
    }
}
