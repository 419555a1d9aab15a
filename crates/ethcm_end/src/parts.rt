//! The parts of an end, and what the rules make of them. After a refusal the event is to be undone.
ghost use Rattle.std.specs.Prelude.{◌≡◌, ◌<◌, ◌≤◌, OnOk, OnErr, IfOk, IsSome, All};
ghost use Rattle.linx_base.specs.Both.{still};
ghost use Rattle.linx_base.specs.Numbers.{boot_of};
ghost use Rattle.ethcm_headers.specs.Packets.{IsPacket};
ghost use Rattle.ethcm_session.specs.Table.{HasNext};
ghost use Rattle.ethcm_end.specs.States.{new_end, peer_of};
ghost use Rattle.ethcm_end.specs.Rules.{after_out, anew, gone_down, heard, next_bytes, packet_of};
ghost use Rattle.ethcm_end.specs.Rules.{put, put_ack, put_pieces, replied, restart_of};

use ethcm_headers::{Packet, PacketBytes, Part, write};
use ethcm_session::{Talk, Watch};
use ethcm_window::{Rx, Tx};
use fragmenter::Joiner;
use linx_base::{ConnKind, NoMemory, SentFrames, Session, UndoQueue};
use std::alloc::Global;
use std::marker::Model;

/// The parts of an end, each with a way back. Contracts see the state of the end as it was when an
/// event began and as it is now.
#[derive(Drop)]
pub(crate) struct Parts {
    pub(crate) alloc: Global,
    pub(crate) talk: Talk,
    pub(crate) tx: Tx,
    pub(crate) rx: Rx,
    pub(crate) joiner: Joiner,
    pub(crate) watch: Watch,
    pub(crate) asked: bool,
    pub(crate) old_asked: bool,
    pub(crate) piece: u32,
    pub(crate) outgoing: UndoQueue<Packet>,
}

impl Model for Parts {
    ghost use Rattle.std.specs.Prelude.{◌≡◌};
    ghost use Rattle.linx_base.specs.Both.{Both};
    ghost use Rattle.ethcm_end.specs.States.{EndState};
    ghost use Rattle.ethcm_end.specs.Sound.{IsPiece};

    ghost Value = { Both EndState };

    ghost view = { λ p. record {
      was = record {
        talk = p.talk.was;
        tx = p.tx.was;
        rx = p.rx.was;
        held = p.joiner.was;
        ticks = p.watch.was;
        asked = p.old_asked;
        piece = p.piece;
        out = p.outgoing.was;
      };
      is = record {
        talk = p.talk.is;
        tx = p.tx.is;
        rx = p.rx.is;
        held = p.joiner.is;
        ticks = p.watch.is;
        asked = p.asked;
        piece = p.piece;
        out = p.outgoing.is;
      };
    } };

    ghost invariant = { λ p. IsPiece p.piece };
}

impl Parts {
    ghost use Rattle.ethcm_end.specs.Sound.{IsPiece};

    /// The parts of an end in the first session of a boot. It takes no memory.
    pub(crate) fn new(alloc: Global, boot: u32, window: u32, piece: u32) -> Parts
        requires boot { 1 ≤ boot }
        requires piece { IsPiece piece }
        ensures { result ≡ still (new_end boot window piece) }
    {
        Parts {
            alloc,
            talk: Talk::new(boot),
            tx: Tx::new(alloc, window),
            rx: Rx::new(alloc),
            joiner: Joiner::new(alloc),
            watch: Watch::new(),
            asked: false,
            old_asked: false,
            piece,
            outgoing: UndoQueue::new(alloc),
        }
    }

    /// The size of the pieces.
    pub(crate) fn piece(&self) -> u32
        ensures piece { result ≡ self.now.is.piece }
        ensures bounds { IsPiece self.now.is.piece }
    {
        self.piece
    }

    /// The session of the peer, `None` exactly while connecting.
    pub(crate) fn peer(&self) -> Option<Session>
        ensures { result ≡ peer_of self.now.is }
    {
        self.talk.peer()
    }

    /// A packet from this end's session to another one.
    fn packet(&self, dst: Session, part: Part) -> Packet
        ensures { result ≡ packet_of self.now.is dst part }
    {
        Packet {
            src: self.talk.mine(),
            dst: dst.0,
            part,
        }
    }

    /// A packet goes out behind the others.
    pub(crate) fn put(&mut self, dst: Session, part: Part) -> Result<(), NoMemory>
        ensures is { OnOk result (self.new.is ≡ put self.old.is dst part) }
        ensures was { self.new.was ≡ self.old.was }
    {
        let packet = self.packet(dst, part);
        self.outgoing.push(packet)?;
        Ok(())
    }

    /// A packet of this kind is replied.
    pub(crate) fn reply(&mut self, src: Session, kind: ConnKind) -> Result<(), NoMemory>
        ensures is { OnOk result (self.new.is ≡ replied self.old.is src kind) }
        ensures was { self.new.was ≡ self.old.was }
    {
        self.put(src, Part::Conn(kind))
    }

    /// All that was taken is acknowledged.
    pub(crate) fn put_ack(&mut self, peer: Session) -> Result<(), NoMemory>
        ensures is { OnOk result (self.new.is ≡ put_ack self.old.is peer) }
        ensures was { self.new.was ≡ self.old.was }
    {
        let next = self.rx.expected();
        self.put(peer, Part::Ack { next })
    }

    /// These frames go out behind the others, each as a piece.
    pub(crate) fn put_pieces(&mut self, dst: Session, sent: SentFrames) -> Result<(), NoMemory>
        ensures is { OnOk result (self.new.is ≡ put_pieces self.old.is dst sent) }
        ensures was { self.new.was ≡ self.old.was }
    {
        let next = self.rx.expected();
        'putting: for sent in sent.into_vec() {
            let part = Part::Piece {
                next,
                seq: sent.number,
                frame: sent.frame,
            };
            self.put(dst, part)?;
        }
        Ok(())
    }

    /// Takes out the next packet, as its bytes; `None` exactly where there is none. A refusal
    /// changes nothing.
    pub(crate) fn out(&mut self) -> Result<Option<PacketBytes>, NoMemory>
        requires { All IsPacket self.old.is.out }
        ensures bytes { IfOk result (λ bytes. bytes ≡ next_bytes self.old.is) }
        ensures is { OnOk result (self.new.is ≡ after_out self.old.is) }
        ensures was { self.new.was ≡ self.old.was }
        ensures err { OnErr result (self.new ≡ self.old) }
    {
        let Some(packet) = self.outgoing.first() else {
            return Ok(None);
        };
        let bytes = write(packet)?;
        self.outgoing.pass();
        Ok(Some(bytes))
    }

    /// The peer was heard: the watch begins anew.
    pub(crate) fn hear(&mut self)
        ensures is { self.new.is ≡ heard self.old.is }
        ensures was { self.new.was ≡ self.old.was }
    {
        self.watch.heard();
    }

    /// The watch, the window and the joiner begin anew. It takes no memory.
    pub(crate) fn begin(&mut self)
        ensures is { self.new.is ≡ anew self.old.is }
        ensures was { self.new.was ≡ self.old.was }
    {
        self.tx.begin();
        self.rx.begin();
        self.joiner.clear();
        self.hear();
        self.asked = false;
    }

    /// The end goes down: the next session is connecting. It takes no memory.
    pub(crate) fn go_down(&mut self)
        requires up { IsSome (peer_of self.old.is) }
        requires counted { HasNext self.old.is.talk.mine }
        ensures is { self.new.is ≡ gone_down self.old.is }
        ensures was { self.new.was ≡ self.old.was }
    {
        self.talk.lost();
        self.begin();
    }

    /// The node boots again, with a later boot number. It takes no memory.
    pub(crate) fn restart(&mut self, boot: u32)
        requires { boot_of self.old.is.talk.mine < boot }
        ensures is { self.new.is ≡ restart_of self.old.is boot }
        ensures was { self.new.was ≡ self.old.was }
    {
        self.talk.restart(boot);
        self.begin();
        self.outgoing.clear();
    }

    /// What is now stays. It takes no memory.
    pub(crate) fn keep(&mut self)
        ensures { self.new ≡ still self.old.is }
    {
        self.talk.keep();
        self.tx.keep();
        self.rx.keep();
        self.joiner.keep();
        self.watch.keep();
        self.old_asked = self.asked;
        self.outgoing.keep();
    }

    /// What was is again. It takes no memory.
    pub(crate) fn undo(&mut self)
        ensures { self.new ≡ still self.old.was }
    {
        self.talk.undo();
        self.tx.undo();
        self.rx.undo();
        self.joiner.undo();
        self.watch.undo();
        self.asked = self.old_asked;
        self.outgoing.undo();
    }
}
