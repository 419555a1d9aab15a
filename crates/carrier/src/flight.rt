ghost use Rattle.std.specs.Prelude.{◌≡◌, ◌==◌, ◌<◌, [], ◌∷◌, ◌++◌, length, slice_get, Some, OnOk};
ghost use Rattle.std.specs.Prelude.{OnErr};
ghost use Rattle.std.specs.List.{remove, swap};
ghost use Rattle.linx_base.specs.Both.{still};
ghost use Rattle.lossy_wire.specs.Flight.{HasOnlyGrown};
ghost use Rattle.carrier.specs.Spelling.{IsSpelled, packet_at};

use ethcm_headers::PacketBytes;
use linx_base::NoMemory;
use lossy_wire::Wire;
use std::alloc::Global;
use std::marker::Model;

/// The packets in flight from one side of a link, each as its bytes, with a way back. Contracts see
/// the lists of the packets as they were when the event began, and as they are now, place 0 the
/// oldest.
#[derive(Drop)]
pub(crate) struct Flight {
    wire: Wire<PacketBytes>,
}

impl Model for Flight {
    ghost use Rattle.std.specs.Prelude.{List, All, map};
    ghost use Rattle.linx_base.specs.Both.{Both};
    ghost use Rattle.ethcm_headers.specs.declared.packets.Packet.{Packet};
    ghost use Rattle.carrier.specs.Spelling.{IsSpelled, packet_at};

    ghost Value = { Both (List Packet) };

    ghost view = { λ f. record { was = map packet_at f.wire.was; is = map packet_at f.wire.is } };

    ghost invariant = { λ f. All IsSpelled f.wire.was × All IsSpelled f.wire.is };
}

impl Flight {
    /// Nothing is in flight. It takes no memory.
    pub(crate) fn new(alloc: Global) -> Flight
        ensures { result ≡ still [] }
    {
        Flight {
            wire: Wire::new(alloc),
        }
    }

    /// A packet goes behind the others. A refusal frees it and changes nothing.
    pub(crate) fn put(&mut self, bytes: PacketBytes) -> Result<(), NoMemory>
        requires { IsSpelled bytes }
        ensures is { OnOk result (self.new.is ≡ self.old.is ++ packet_at bytes ∷ []) }
        ensures was { self.new.was ≡ self.old.was }
        ensures err { OnErr result (self.new ≡ self.old) }
    {
        match self.wire.put(bytes) {
            Ok(()) => Ok(()),
            Err((refusal, _bytes)) => Err(refusal),
        }
    }

    /// How many packets are in flight.
    pub(crate) fn len(&self) -> usize
        ensures { result ≡ length self.now.is }
    {
        self.wire.len()
    }

    /// Whether no packet is in flight.
    pub(crate) fn is_empty(&self) -> bool
        ensures { result ≡ (length self.now.is == 0) }
    {
        self.wire.is_empty()
    }

    /// The bytes of the packet at place k.
    pub(crate) fn at(&self, k: usize) -> &PacketBytes
        requires { k < length self.now.is }
        ensures packet { slice_get self.now.is k ≡ Some (packet_at result.now) }
        ensures spelled { IsSpelled result.now }
    {
        self.wire.at(k)
    }

    /// Takes the packet at place k out of flight, in an event that has lost or exchanged none yet.
    /// It takes no memory.
    pub(crate) fn lose(&mut self, k: usize)
        requires within { k < length self.old.is }
        requires grown { HasOnlyGrown self.old }
        ensures is { self.new.is ≡ remove self.old.is k }
        ensures was { self.new.was ≡ self.old.was }
    {
        self.wire.lose(k);
    }

    /// Exchanges the packets at places k and n, in an event that has lost or exchanged none yet. It
    /// takes no memory.
    pub(crate) fn swap(&mut self, k: usize, n: usize)
        requires first { k < length self.old.is }
        requires second { n < length self.old.is }
        requires grown { HasOnlyGrown self.old }
        ensures is { self.new.is ≡ swap self.old.is k n }
        ensures was { self.new.was ≡ self.old.was }
    {
        self.wire.swap(k, n);
    }

    /// What is now stays. It takes no memory.
    pub(crate) fn keep(&mut self)
        ensures { self.new ≡ still self.old.is }
    {
        self.wire.keep();
    }

    /// What was is again. It takes no memory.
    pub(crate) fn undo(&mut self)
        ensures { self.new ≡ still self.old.was }
    {
        self.wire.undo();
    }
}
