//! One side of a trunk: an RLNH end with its record. After a refusal the event is to be undone.
ghost use Rattle.std.specs.Prelude.{◌≡◌, IfOk, OnOk, IsSome, is_some};
ghost use Rattle.std.specs.Option.{option_copied};
ghost use Rattle.linx_base.specs.Both.{still};
ghost use Rattle.link_addresses.specs.Meanings.{address_of, used_in, HasAddressLeft};
ghost use Rattle.rlnh_end.specs.declared.heard.Heard.{Heard as AnyHeard};
ghost use Rattle.rlnh_end.specs.Calls.{close_of, opened_of, publish_of, query_of, send_of};
ghost use Rattle.rlnh_end.specs.Hearing.{IsRead, hears};
ghost use Rattle.rlnh_end.specs.States.{addr_met, after_out, next_of};
ghost use Rattle.trunk.specs.Events.{new_trunk_side, told_up};
ghost use Rattle.trunk.specs.Calls.{MaySay, saying_of};
ghost use Rattle.trunk.specs.Publishing.{newest_unpublished};
ghost use Rattle.trunk.specs.Parts.{side_begins, side_ends, side_hears, side_says};

use crate::call::SideCall;
use crate::history::History;
use crate::note::Note;
use crate::up::TrunkUp;
use linx_base::{Inc, Message, Name, NoMemory, Session, Signal, TryCopy};
use rlnh_end::{RlnhEnd, Up};
use std::alloc::Global;
use std::marker::Model;

/// One side of a trunk above its link, with a way back: its RLNH end, and the record of what it
/// said and was given. Contracts see the side as it was when the event began, and as it is now.
#[derive(Drop)]
pub struct Half {
    end: RlnhEnd,
    kept: History,
    /// Whether anything was done to the side since the event began.
    touched: bool,
}

impl Model for Half {
    ghost use Rattle.std.specs.Prelude.{◌≡◌, false};
    ghost use Rattle.linx_base.specs.Both.{Both};
    ghost use Rattle.trunk.specs.Events.{TrunkSide};

    ghost Value = { Both TrunkSide };

    ghost view = { λ h. record {
      was = record { end = h.end.was; kept = h.kept.was };
      is = record { end = h.end.is; kept = h.kept.is };
    } };

    ghost invariant = { λ h. h.touched ≡ false → (h.end.was ≡ h.end.is) × (h.kept.was ≡ h.kept.is) };
}

impl Half {
    /// A side before anything happened. It takes no memory.
    pub fn new(alloc: Global) -> Half
        ensures { result ≡ still new_trunk_side }
    {
        Half {
            end: RlnhEnd::new(alloc),
            kept: History::new(),
            touched: false,
        }
    }

    /// It goes up with this session of the other side: its RLNH end begins.
    pub fn begin(&mut self, peer: Session) -> Result<(), NoMemory>
        ensures is { OnOk result (self.new.is ≡ side_begins self.old.is peer) }
        ensures was { self.new.was ≡ self.old.was }
    {
        self.touched = true;
        self.end.begin()?;
        self.kept.note(Note::WentUp(peer));
        Ok(())
    }

    /// Its session is over, and the next one begins: its RLNH end knows nothing.
    pub fn begin_session(&mut self, next: Session) -> Result<(), NoMemory>
        ensures is { OnOk result (self.new.is ≡ side_ends self.old.is next) }
        ensures was { self.new.was ≡ self.old.was }
    {
        self.touched = true;
        self.end.empty();
        self.kept.note(Note::Began(next));
        Ok(())
    }

    /// An endpoint of its node is published.
    fn publish(&mut self, inc: Inc, name: &Name) -> Result<(), NoMemory>
        requires room { HasAddressLeft self.old.is.end.tables.own }
        ensures is { let made = publish_of self.old.is.end.tables inc name.now in
            OnOk result (self.new.is ≡ side_says self.old.is made) }
        ensures was { self.new.was ≡ self.old.was }
    {
        self.touched = true;
        let known = self.end.is_published(inc);
        self.end.publish(inc, name)?;
        if known {
            return Ok(());
        }
        let name = name.copy()?;
        self.kept.note(Note::Published { inc, name });
        Ok(())
    }

    /// An endpoint of its node opened.
    fn opened(&mut self, inc: Inc, name: &Name) -> Result<(), NoMemory>
        requires room { HasAddressLeft self.old.is.end.tables.own }
        ensures is { let made = opened_of self.old.is.end.tables inc name.now in
            OnOk result (self.new.is ≡ side_says self.old.is made) }
        ensures was { self.new.was ≡ self.old.was }
    {
        self.touched = true;
        if !self.end.is_noted(name) {
            return Ok(());
        }
        self.publish(inc, name)?;
        Ok(())
    }

    /// An endpoint of its node closes.
    fn close(&mut self, inc: Inc) -> Result<(), NoMemory>
        ensures is { let made = close_of self.old.is.end.tables inc in
            OnOk result (self.new.is ≡ side_says self.old.is made) }
        ensures was { self.new.was ≡ self.old.was }
    {
        self.touched = true;
        let known = self.end.is_published(inc);
        self.end.close(inc)?;
        if !known {
            return Ok(());
        }
        self.kept.note(Note::Unpublished(inc));
        Ok(())
    }

    /// The other side is asked for a name.
    fn query(&mut self, name: &Name) -> Result<(), NoMemory>
        ensures is { let made = query_of self.old.is.end.tables name.now in
            OnOk result (self.new.is ≡ side_says self.old.is made) }
        ensures was { self.new.was ≡ self.old.was }
    {
        self.touched = true;
        self.end.query(name)?;
        self.kept.note(Note::Asked(name.copy()?));
        Ok(())
    }

    /// A signal is sent from an endpoint of its node, of this name, to a peer that was met.
    fn send(&mut self, from: Inc, name: &Name, to: Inc, signal: &Signal) -> Result<(), NoMemory>
        requires met { IsSome (addr_met self.old.is.end.tables.met to) }
        requires room { HasAddressLeft self.old.is.end.tables.own }
        ensures is { let made = send_of self.old.is.end.tables from name.now to signal.now in
            OnOk result (self.new.is ≡ side_says self.old.is made) }
        ensures was { self.new.was ≡ self.old.was }
    {
        self.touched = true;
        let known = self.end.is_published(from);
        self.end.send(from, name, to, signal)?;
        let signal = signal.note()?;
        if known {
            self.kept.note(Note::Signaled { from, to, signal });
            return Ok(());
        }
        let name = name.copy()?;
        self.kept.note(Note::Published { inc: from, name });
        self.kept.note(Note::Signaled { from, to, signal });
        Ok(())
    }

    /// What a call asks for is said. A side that boots again says nothing.
    pub fn say(&mut self, call: SideCall<'_>) -> Result<(), NoMemory>
        requires may { MaySay call self.old.is.end.tables }
        ensures is { let made = saying_of call.entry self.old.is.end.tables in
            OnOk result (self.new.is ≡ side_says self.old.is made) }
        ensures was { self.new.was ≡ self.old.was }
    {
        match call {
            SideCall::Opened(inc, name) => self.opened(inc, name),
            SideCall::Closed(inc) => self.close(inc),
            SideCall::Restarted(_) => Ok(()),
            SideCall::Published(inc, name) => self.publish(inc, name),
            SideCall::Asked(name) => self.query(name),
            SideCall::Sent(from, name, to, signal) => self.send(from, name, to, signal),
        }
    }

    /// A message comes from the other side.
    pub fn hear(&mut self, m: &Message) -> Result<TrunkUp, NoMemory>
        ensures is_read { OnOk result ((heard : AnyHeard) × IsRead m.now heard) }
        ensures is { OnOk result ((heard : AnyHeard) → IsRead m.now heard
            → self.new.is ≡ side_hears self.old.is heard) }
        ensures up { IfOk result (λ up. (heard : AnyHeard) → IsRead m.now heard
            → up ≡ told_up (hears self.old.is.end.tables heard).up) }
        ensures was { self.new.was ≡ self.old.was }
    {
        self.touched = true;
        match self.end.input(m)? {
            Up::Nothing => Ok(TrunkUp::Nothing),
            Up::Arrived { from, to, signal } => {
                self.kept.note(Note::Arrived {
                    from,
                    to,
                    signal: signal.note()?,
                });
                Ok(TrunkUp::Arrived { from, to, signal })
            }
            Up::Freed { from, to, signal } => {
                self.kept.note(Note::Freed {
                    from,
                    to,
                    signal: signal.note()?,
                });
                Ok(TrunkUp::Nothing)
            }
            Up::Met { inc, name } => {
                self.kept.note(Note::Met {
                    inc,
                    name: name.copy()?,
                });
                Ok(TrunkUp::Met { inc, name })
            }
            Up::Gone { inc } => {
                self.kept.note(Note::Gone(inc));
                Ok(TrunkUp::Gone { inc })
            }
            Up::Asked { name } => {
                self.kept.note(Note::AskedFor(name.copy()?));
                Ok(TrunkUp::Asked { name })
            }
            Up::Bad => Ok(TrunkUp::Nothing),
        }
    }

    /// The next message that goes to the other side, `None` exactly where there is none.
    pub fn next_out(&self) -> Option<&Message>
        ensures { option_copied result ≡ next_of self.now.is.end }
    {
        self.end.next_out()
    }

    /// Takes out the next message. It takes no memory.
    pub fn pass(&mut self)
        ensures is { self.new.is ≡ record self.old.is { end = after_out self.old.is.end } }
        ensures was { self.new.was ≡ self.old.was }
    {
        self.touched = true;
        self.end.pass();
    }

    /// The number of its addresses that are live or closing.
    pub fn used(&self) -> u32
        ensures { result ≡ used_in self.now.is.end.tables.own }
    {
        self.end.used()
    }

    /// Whether a peer was met and isn't gone.
    pub fn is_met(&self, inc: Inc) -> bool
        ensures { result ≡ is_some (addr_met self.now.is.end.tables.met inc) }
    {
        self.end.is_met(inc)
    }

    /// Whether an endpoint of its node has an address.
    pub fn is_published(&self, inc: Inc) -> bool
        ensures { result ≡ is_some (address_of self.now.is.end.tables.own inc) }
    {
        self.end.is_published(inc)
    }

    /// The greatest number of an endpoint that it unpublished in its session, 0 where it did none.
    pub fn newest_unpublished(&self) -> u64
        ensures { result ≡ newest_unpublished self.now.is.kept.now.said }
    {
        self.kept.newest_unpublished()
    }

    /// What is now stays. It takes no memory.
    pub fn keep(&mut self)
        ensures { self.new ≡ still self.old.is }
    {
        if !self.touched {
            return;
        }
        self.end.keep();
        self.kept.keep();
        self.touched = false;
    }

    /// What was is again. It takes no memory.
    pub fn undo(&mut self)
        ensures { self.new ≡ still self.old.was }
    {
        if !self.touched {
            return;
        }
        self.end.undo();
        self.kept.undo();
        self.touched = false;
    }
}
