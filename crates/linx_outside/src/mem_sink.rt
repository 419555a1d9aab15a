ghost use Rattle.std.specs.Prelude.{◌≡◌, ℕ, ◌+◌, ◌-◌, ◌<◌, ◌≤◌, ◌↔◌, ◌⊎◌, ◌++◌, []};
ghost use Rattle.std.specs.Prelude.{Some, IfOk, length, min, take, vec_len, vec_capacity};
ghost use Rattle.std.specs.List.{Contains};
ghost use Rattle.linx_outside.specs.Counts.{HasFaulted, NeverFalls, raised, last_u64};
ghost use Rattle.linx_outside.specs.Contents.{counted, IsFullFor};
ghost use Rattle.std.specs.Io.KnownBytes.{Appends, Keeps};
ghost use Rattle.linx_outside.specs.Writing.{IfTook, IsTookAnd, IsWriteFailed, IfWriteFailed};

use crate::faults::FaultPlan;
use crate::sink::{Sink, WriteAnswer};
use linx_base::NoMemory;
use std::alloc::Global;
use std::marker::Model;

/// Room in memory for so many bytes, which takes at most so many a write, with faults at calls that
/// were named beforehand.
#[derive(Drop)]
pub struct MemSink {
    held: Vec<u8>,
    most: usize,
    room: usize,
    plan: FaultPlan,
    faults: u64,
}

// It is seen as the bytes taken, the most that a write takes, the most that are held, its calls so
// far and those that fail, and its faults so far.
impl Model for MemSink {
    ghost use Rattle.std.specs.Prelude.{◌≤◌, length, vec_capacity};
    ghost use Rattle.linx_outside.specs.Contents.{Store};

    ghost Value = { Store };

    ghost view = { λ sink. record {
      held = sink.held.items;
      most = sink.most;
      room = sink.room;
      plan = sink.plan;
      faults = sink.faults;
    } };

    ghost invariant = { λ sink. (1 ≤ sink.most) × (length sink.held.items ≤ sink.room)
        × (sink.room ≤ vec_capacity sink.held) };
}

impl MemSink {
    /// Holds nothing yet, and `room` bytes at most. It takes the memory for them here. A write
    /// takes at most `most` bytes. The writes whose numbers, from 1, stand in `fails` fail, and so
    /// do those of a piece that isn't empty where it holds `room` bytes; no others.
    pub fn new(
        alloc: Global,
        most: usize,
        room: usize,
        fails: Vec<u64>,
    ) -> Result<MemSink, NoMemory>
        requires { 1 ≤ most }
        ensures held { IfOk result (λ sink. sink.held ≡ []) }
        ensures most { IfOk result (λ sink. sink.most ≡ most) }
        ensures room { IfOk result (λ sink. sink.room ≡ room) }
        ensures fails { IfOk result (λ sink. sink.plan.fails ≡ fails.items) }
        ensures calls { IfOk result (λ sink. sink.plan.calls ≡ 0) }
        ensures faults { IfOk result (λ sink. sink.faults ≡ 0) }
    {
        let held = Vec::with_capacity(alloc, room)?;
        Ok(MemSink {
            held,
            most,
            room,
            plan: FaultPlan::new(fails),
            faults: 0,
        })
    }

    /// The bytes taken so far.
    pub fn held(&self) -> &[u8]
        ensures { result.now ≡ self.now.held }
    {
        self.held.as_slice()
    }
}

impl Sink for MemSink {
    ghost held = { λ sink. Some sink.held };

    ghost faults = { λ sink. sink.faults };

    ghost last_count = { Some last_u64 };

    ghost can_take = { λ sink room. (sink.plan.fails ≡ [])
        × (length sink.held + room ≤ sink.room) };

    fn write(&mut self, piece: &[u8]) -> WriteAnswer
        ensures planned { IsWriteFailed result
            ↔ (Contains self.old.plan.fails (self.old.plan.calls + 1)
            ⊎ IsFullFor self.old piece.now) }
        ensures count { IfTook result (λ n. n ≡ min self.old.most
            (min (length piece.now) (self.old.room - length self.old.held))) }
        ensures took { IfTook result (λ n. self.new ≡ record self.old {
          held = self.old.held ++ take n piece.now;
          plan = counted self.old.plan;
        }) }
        ensures failed { IfWriteFailed result (self.new ≡ record self.old {
          faults = raised self.old.faults;
          plan = counted self.old.plan;
        }) }

        ensures within { IfTook result (λ n. n ≤ length piece.now) }
        ensures some { IfTook result (λ n. 0 < length piece.now → 0 < n) }
        ensures taken { IfTook result
            (λ n. Appends (Some self.old.held) (Some self.new.held) (take n piece.now)) }
        ensures took_counts_nothing { IfTook result (λ _. self.new.faults ≡ self.old.faults) }
        ensures failed_counts { IfWriteFailed result
            (HasFaulted (Some last_u64) self.old.faults self.new.faults) }
        ensures failed_takes_nothing { IfWriteFailed result
            (Keeps (Some self.old.held) (Some self.new.held)) }
        ensures never_falls { NeverFalls (Some last_u64) self.old.faults self.new.faults }
        ensures takes { (room : ℕ) → (self.old.plan.fails ≡ [])
            × (length self.old.held + room ≤ self.old.room) → length piece.now ≤ room
            → IsTookAnd result (λ n. (self.new.plan.fails ≡ [])
            × (length self.new.held + (room - n) ≤ self.new.room)) }
    {
        let is_planned = self.plan.next_fails();
        let free = self.room - self.held.len();
        if is_planned || (free == 0 && !piece.is_empty()) {
            self.faults = self.faults.saturating_add(1);
            return WriteAnswer::Failed;
        }
        let count = self.most.min(piece.len().min(free));
        append_within(&mut self.held, &piece[..count]);
        WriteAnswer::Took(count)
    }
}

// Appends where there is room for it, so that no memory is taken.
pub(crate) fn append_within(held: &mut Vec<u8>, bytes: &[u8])
    requires { vec_len held.old + length bytes.now ≤ vec_capacity held.old }
    ensures items { held.new.items ≡ held.old.items ++ bytes.now }
    ensures room { vec_capacity held.old ≤ vec_capacity held.new }
{
    held.extend_from_slice(bytes).unwrap();
}
