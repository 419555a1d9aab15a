ghost use Rattle.std.specs.Prelude.{◌≡◌, is_some, IsSome, IfOk, OnOk, OnErr};
ghost use Rattle.std.specs.Option.{option_copied};
ghost use Rattle.linx_base.specs.Both.{still};
ghost use Rattle.link_addresses.specs.Meanings.{address_of, used_in, HasAddressLeft};
ghost use Rattle.rlnh_end.specs.declared.heard.Heard.{Heard as AnyHeard};
ghost use Rattle.rlnh_end.specs.States.{new_end, emptied, next_of, after_out, addr_met, is_noted};
ghost use Rattle.rlnh_end.specs.Calls.{after, begin_of, query_of, publish_of, opened_of, close_of};
ghost use Rattle.rlnh_end.specs.Calls.{send_of};
ghost use Rattle.rlnh_end.specs.Hearing.{IsRead};
ghost use Rattle.rlnh_end.specs.Reactions.{gives, rlnh_input_of};
ghost use Rattle.rlnh_end.specs.BadList.{IsBad};
ghost use Rattle.rlnh_end.specs.Outgoing.{AreMessages};

use crate::calls;
use crate::decoding::heard_in;
use crate::hearing::hear;
use crate::parts::Parts;
use crate::up::Up;
use linx_base::{Inc, Message, Name, NoMemory, Signal};
use std::alloc::Global;
use std::marker::Model;

/// One end of a link as RLNH has it, with a way back: what an event did either stays, or is undone.
/// An event is a `keep` or an `undo` and the calls since the one before it. Contracts see the end's
/// tables, and the messages that are still to be taken out, as they were when the event began and
/// as they are now.
#[derive(Drop)]
pub struct RlnhEnd {
    parts: Parts,
}

impl Model for RlnhEnd {
    ghost use Rattle.linx_base.specs.Both.{Both};
    ghost use Rattle.rlnh_end.specs.States.{RlnhState};

    ghost Value = { Both RlnhState };

    ghost view = { λ e. e.parts };
}

impl RlnhEnd {
    /// An end without a connection: no tables, and no messages. It takes no memory.
    pub fn new(alloc: Global) -> RlnhEnd
        ensures { result ≡ still new_end }
    {
        RlnhEnd {
            parts: Parts::new(alloc),
        }
    }

    /// The connection goes up: all tables are emptied, and INIT is said. A refusal undoes the
    /// event.
    pub fn begin(&mut self) -> Result<(), NoMemory>
        ensures is { OnOk result (self.new.is ≡ after self.old.is begin_of) }
        ensures was { self.new.was ≡ self.old.was }
        ensures err { OnErr result (self.new ≡ still self.old.was) }
    {
        match calls::begin(&mut self.parts) {
            Ok(()) => Ok(()),
            Err(_) => {
                self.parts.undo();
                Err(NoMemory)
            }
        }
    }

    /// The connection is down: all tables are emptied. It takes no memory.
    pub fn empty(&mut self)
        ensures is { self.new.is ≡ emptied self.old.is }
        ensures was { self.new.was ≡ self.old.was }
    {
        self.parts.empty();
    }

    /// An endpoint of the own node is published: the note of its name goes away, and where it isn't
    /// live at an address it gets the lowest free one, and PUBLISH is said. A refusal undoes the
    /// event.
    pub fn publish(&mut self, inc: Inc, name: &Name) -> Result<(), NoMemory>
        requires room { HasAddressLeft self.old.is.tables.own }
        ensures is { let made = publish_of self.old.is.tables inc name.now in
            OnOk result (self.new.is ≡ after self.old.is made) }
        ensures was { self.new.was ≡ self.old.was }
        ensures err { OnErr result (self.new ≡ still self.old.was) }
    {
        match calls::publish(&mut self.parts, inc, name) {
            Ok(()) => Ok(()),
            Err(_) => {
                self.parts.undo();
                Err(NoMemory)
            }
        }
    }

    /// An endpoint of the own node opened: it is published where its name is noted. A refusal
    /// undoes the event.
    pub fn opened(&mut self, inc: Inc, name: &Name) -> Result<(), NoMemory>
        requires room { HasAddressLeft self.old.is.tables.own }
        ensures is { let made = opened_of self.old.is.tables inc name.now in
            OnOk result (self.new.is ≡ after self.old.is made) }
        ensures was { self.new.was ≡ self.old.was }
        ensures err { OnErr result (self.new ≡ still self.old.was) }
    {
        match calls::opened(&mut self.parts, inc, name) {
            Ok(()) => Ok(()),
            Err(_) => {
                self.parts.undo();
                Err(NoMemory)
            }
        }
    }

    /// The other side is asked for the endpoint of a name: QUERY_NAME is said. A refusal undoes the
    /// event.
    pub fn query(&mut self, name: &Name) -> Result<(), NoMemory>
        ensures is { let made = query_of self.old.is.tables name.now in
            OnOk result (self.new.is ≡ after self.old.is made) }
        ensures was { self.new.was ≡ self.old.was }
        ensures err { OnErr result (self.new ≡ still self.old.was) }
    {
        match calls::query(&mut self.parts, name) {
            Ok(()) => Ok(()),
            Err(_) => {
                self.parts.undo();
                Err(NoMemory)
            }
        }
    }

    /// A signal is sent from an endpoint of the own node, of this name, to a peer that was met. The
    /// sender is published first where it isn't live at an address. A refusal undoes the event.
    pub fn send(&mut self, from: Inc, name: &Name, to: Inc, signal: &Signal) -> Result<(), NoMemory>
        requires met { IsSome (addr_met self.old.is.tables.met to) }
        requires room { HasAddressLeft self.old.is.tables.own }
        ensures is { let made = send_of self.old.is.tables from name.now to signal.now in
            OnOk result (self.new.is ≡ after self.old.is made) }
        ensures was { self.new.was ≡ self.old.was }
        ensures err { OnErr result (self.new ≡ still self.old.was) }
    {
        match calls::send(&mut self.parts, from, name, to, signal) {
            Ok(()) => Ok(()),
            Err(_) => {
                self.parts.undo();
                Err(NoMemory)
            }
        }
    }

    /// An endpoint of the own node closes: where it is live at an address, UNPUBLISH is said, and
    /// the address is closing. A refusal undoes the event.
    pub fn close(&mut self, inc: Inc) -> Result<(), NoMemory>
        ensures is { let made = close_of self.old.is.tables inc in
            OnOk result (self.new.is ≡ after self.old.is made) }
        ensures was { self.new.was ≡ self.old.was }
        ensures err { OnErr result (self.new ≡ still self.old.was) }
    {
        match calls::close(&mut self.parts, inc) {
            Ok(()) => Ok(()),
            Err(_) => {
                self.parts.undo();
                Err(NoMemory)
            }
        }
    }

    /// A message comes from the other side. `Bad` comes exactly where the message is in the list of
    /// bad ones; it changes nothing, and nothing is said to it. A refusal undoes the event.
    pub fn input(&mut self, m: &Message) -> Result<Up, NoMemory>
        // A message is read as one thing.
        ensures is_read { OnOk result ((heard : AnyHeard) × IsRead m.now heard) }
        ensures reaction { IfOk result (λ up. (heard : AnyHeard) → IsRead m.now heard
            → gives self.new.is up ≡ rlnh_input_of self.old.is heard) }
        ensures bad { IfOk result (λ up. IsBad self.old.is.tables m.now → up ≡ Up.Bad) }
        ensures bad_only { IfOk result (λ up. up ≡ Up.Bad → IsBad self.old.is.tables m.now) }
        ensures bad_changes_nothing { IfOk result (λ up. up ≡ Up.Bad
            → self.new.is ≡ self.old.is) }
        ensures was { self.new.was ≡ self.old.was }
        ensures err { OnErr result (self.new ≡ still self.old.was) }
    {
        match react(&mut self.parts, m) {
            Ok(up) => Ok(up),
            Err(_) => {
                self.parts.undo();
                Err(NoMemory)
            }
        }
    }

    /// The next message that goes to the other side, `None` exactly where there is none.
    pub fn next_out(&self) -> Option<&Message>
        ensures next { option_copied result ≡ next_of self.now.is }
        // Each has a body of 1 to 65,536 bytes.
        ensures messages { AreMessages self.now.is.out }
    {
        self.parts.next_out()
    }

    /// Takes out the next message; nothing where there is none. It takes no memory.
    pub fn pass(&mut self)
        ensures is { self.new.is ≡ after_out self.old.is }
        ensures was { self.new.was ≡ self.old.was }
    {
        self.parts.pass();
    }

    /// The number of own addresses that are live or closing.
    pub fn used(&self) -> u32
        ensures { result ≡ used_in self.now.is.tables.own }
    {
        self.parts.own.used()
    }

    /// Whether a peer was met and isn't gone.
    pub fn is_met(&self, inc: Inc) -> bool
        ensures { result ≡ is_some (addr_met self.now.is.tables.met inc) }
    {
        self.parts.addr_met(inc).is_some()
    }

    /// Whether an incarnation of the own node is live at an address.
    pub fn is_published(&self, inc: Inc) -> bool
        ensures { result ≡ is_some (address_of self.now.is.tables.own inc) }
    {
        self.parts.own.addr_of(inc).is_some()
    }

    /// Whether the other side asked for a name that nobody has yet.
    pub fn is_noted(&self, name: &Name) -> bool
        ensures { result ≡ is_noted self.now.is.tables.noted name.now }
    {
        self.parts.is_noted(name)
    }

    /// What is now stays, and the next event begins. It takes no memory.
    pub fn keep(&mut self)
        ensures { self.new ≡ still self.old.is }
    {
        self.parts.keep();
    }

    /// What was is again, and the next event begins. It takes no memory.
    pub fn undo(&mut self)
        ensures { self.new ≡ still self.old.was }
    {
        self.parts.undo();
    }
}

/// A message is read, and heard.
fn react(parts: &mut Parts, m: &Message) -> Result<Up, NoMemory>
    ensures is_read { OnOk result ((heard : AnyHeard) × IsRead m.now heard) }
    ensures reaction { IfOk result (λ up. (heard : AnyHeard) → IsRead m.now heard
        → gives parts.new.is up ≡ rlnh_input_of parts.old.is heard) }
    ensures bad { IfOk result (λ up. IsBad parts.old.is.tables m.now → up ≡ Up.Bad) }
    ensures bad_only { IfOk result (λ up. up ≡ Up.Bad → IsBad parts.old.is.tables m.now) }
    ensures bad_changes_nothing { IfOk result (λ up. up ≡ Up.Bad
        → parts.new.is ≡ parts.old.is) }
    ensures was { parts.new.was ≡ parts.old.was }
{
    let heard = heard_in(parts.alloc, m)?;
    let up = hear(parts, heard)?;
    Ok(up)
}
