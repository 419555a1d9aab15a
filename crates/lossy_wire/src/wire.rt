ghost use Rattle.std.specs.Prelude.{◌≡◌, ◌==◌, ◌<◌, [], ◌∷◌, ◌++◌, length, slice_get, Some, OnOk};
ghost use Rattle.std.specs.Prelude.{OnErr, IfErr};
ghost use Rattle.std.specs.List.{remove, swap};
ghost use Rattle.linx_base.specs.Both.{still};
ghost use Rattle.lossy_wire.specs.Flight.{HasOnlyGrown, changed, IsWithin};

use linx_base::NoMemory;
use std::alloc::Global;
use std::collections::VecDeque;
use std::marker::Model;

/// What an event has done to packets that were in flight. The buffer shows it once it is kept.
#[derive(Clone, Copy)]
enum Change {
    Nothing,
    /// The packet at this place was lost.
    Lost(usize),
    /// The packets at these places were exchanged.
    Exchanged(usize, usize),
}

/// The packets in flight in one direction, with a way back: what an event did either stays, or is
/// undone. Contracts see the lists of the packets as they were when the event began, and as they
/// are now, place 0 the oldest.
#[derive(Drop)]
pub struct Wire<P> {
    /// The packets without the change.
    packets: VecDeque<P>,
    /// How many of them were in flight when the event began.
    kept: usize,
    change: Change,
}

impl<P> Model for Wire<P> {
    ghost use Rattle.std.specs.Prelude.{◌≤◌, List, length, take};
    ghost use Rattle.linx_base.specs.Both.{Both};
    ghost use Rattle.lossy_wire.specs.Flight.{changed, IsWithin};

    ghost Value = { Both (List P) };

    ghost view = { λ w. record {
      was = take w.kept w.packets.items;
      is = changed w.change w.packets.items;
    } };

    ghost invariant = { λ w. (w.kept ≤ length w.packets.items)
        × IsWithin w.change w.packets.items };
}

/// Takes out the packet at place k, which is mostly the oldest.
fn take_out<P: Drop>(packets: &mut VecDeque<P>, k: usize)
    requires { k < length packets.old.items }
    ensures { packets.new.items ≡ remove packets.old.items k }
{
    if k == 0 {
        let _ = packets.pop_front();
        return;
    }
    let _ = packets.remove(k);
}

/// Makes the change in the buffer.
fn make<P: Drop>(packets: &mut VecDeque<P>, change: Change)
    requires { IsWithin change packets.old.items }
    ensures { packets.new.items ≡ changed change packets.old.items }
{
    match change {
        Change::Nothing => {}
        Change::Lost(k) => take_out(packets, k),
        Change::Exchanged(k, n) => packets.swap(k, n),
    }
}

/// How many packets there are after the change.
fn count<P>(packets: &VecDeque<P>, change: Change) -> usize
    requires { IsWithin change packets.now.items }
    ensures { result ≡ length (changed change packets.now.items) }
{
    match change {
        Change::Nothing | Change::Exchanged(_, _) => packets.len(),
        Change::Lost(_) => packets.len() - 1,
    }
}

/// The packet at place k after the change.
fn nth<P>(packets: &VecDeque<P>, change: Change, k: usize) -> &P
    requires within { IsWithin change packets.now.items }
    requires below { k < length (changed change packets.now.items) }
    ensures { slice_get (changed change packets.now.items) k ≡ Some result.now }
{
    match change {
        Change::Nothing => &packets[k],
        Change::Lost(lost) => {
            if k < lost {
                return &packets[k];
            }
            &packets[k + 1]
        }
        Change::Exchanged(first, second) => {
            if k == first {
                return &packets[second];
            }
            if k == second {
                return &packets[first];
            }
            &packets[k]
        }
    }
}

impl<P> Wire<P> {
    /// A wire with nothing in flight. It takes no memory.
    pub fn new(alloc: Global) -> Wire<P>
        ensures { result ≡ still [] }
    {
        Wire {
            packets: VecDeque::new(alloc),
            kept: 0,
            change: Change::Nothing,
        }
    }

    /// Puts a packet last. A refusal gives it back and changes nothing.
    #[tactic(auto, using(crate::proofs::Changes::changed_behind))]
    pub fn put(&mut self, packet: P) -> Result<(), (NoMemory, P)>
        ensures ok { OnOk result (self.new.is ≡ self.old.is ++ packet ∷ []) }
        ensures was { self.new.was ≡ self.old.was }
        ensures err { OnErr result (self.new ≡ self.old) }
        ensures given_back { IfErr result (λ refusal. refusal.1 ≡ packet) }
    {
        match self.packets.push_back(packet) {
            Ok(()) => Ok(()),
            Err(refusal) => Err((NoMemory, refusal.value)),
        }
    }

    /// How many packets are in flight.
    pub fn len(&self) -> usize
        ensures { result ≡ length self.now.is }
    {
        count(&self.packets, self.change)
    }

    /// Whether no packet is in flight.
    pub fn is_empty(&self) -> bool
        ensures { result ≡ (length self.now.is == 0) }
    {
        count(&self.packets, self.change) == 0
    }

    /// The packet at place k of those in flight, the oldest of which is at place 0.
    pub fn at(&self, k: usize) -> &P
        requires { k < length self.now.is }
        ensures { slice_get self.now.is k ≡ Some result.now }
    {
        nth(&self.packets, self.change, k)
    }

    /// Takes the packet at place k out of flight, in an event that has lost or exchanged none yet.
    /// It takes no memory.
    pub fn lose(&mut self, k: usize)
    where
        P: Drop,
        requires within { k < length self.old.is }
        requires grown { HasOnlyGrown self.old }
        ensures is { self.new.is ≡ remove self.old.is k }
        ensures was { self.new.was ≡ self.old.was }
    {
        make(&mut self.packets, self.change);
        self.change = Change::Lost(k);
    }

    /// Exchanges the packets at places k and n, in an event that has lost or exchanged none yet. It
    /// takes no memory.
    pub fn swap(&mut self, k: usize, n: usize)
    where
        P: Drop,
        requires first { k < length self.old.is }
        requires second { n < length self.old.is }
        requires grown { HasOnlyGrown self.old }
        ensures is { self.new.is ≡ swap self.old.is k n }
        ensures was { self.new.was ≡ self.old.was }
    {
        make(&mut self.packets, self.change);
        self.change = Change::Exchanged(k, n);
    }

    /// What is now stays. It takes no memory.
    pub fn keep(&mut self)
    where
        P: Drop,
        ensures { self.new ≡ still self.old.is }
    {
        match self.change {
            Change::Nothing => {}
            change => {
                make(&mut self.packets, change);
                self.change = Change::Nothing;
            }
        }
        self.kept = self.packets.len();
    }

    /// What was is again. It takes no memory.
    pub fn undo(&mut self)
    where
        P: Drop,
        ensures { self.new ≡ still self.old.was }
    {
        self.packets.truncate(self.kept);
        self.change = Change::Nothing;
    }
}
