ghost use Rattle.std.specs.Prelude.{◌≡◌, ℕ, ◌+◌, ◌-◌, ◌<◌, ◌≤◌, ◌↔◌, []};
ghost use Rattle.std.specs.Prelude.{None, Some, length, min, take, drop};
ghost use Rattle.std.specs.List.{Contains};
ghost use Rattle.linx_outside.specs.Counts.{HasFaulted, NeverFalls};
ghost use Rattle.linx_outside.specs.Contents.{counted};
ghost use Rattle.std.specs.Io.KnownBytes.{Consumes, IsAtEnd};
ghost use Rattle.linx_outside.specs.Reading.{IfGot, IsGot, IsReadFailed, IfReadFailed};

use crate::faults::FaultPlan;
use crate::source::{ReadAnswer, Source};
use std::marker::Model;

/// Bytes in memory, given as fast as they are asked for. No read fails.
#[derive(Drop)]
pub struct PlainSource {
    bytes: Vec<u8>,
    given: usize,
}

// It is seen as the bytes not yet given.
impl Model for PlainSource {
    ghost use Rattle.std.specs.Prelude.{List, ℕ, drop, length, ◌≤◌};

    ghost Value = { List ℕ };

    ghost view = { λ source. drop source.given source.bytes.items };

    ghost invariant = { λ source. source.given ≤ length source.bytes.items };
}

impl PlainSource {
    /// Gives these bytes.
    pub fn new(bytes: Vec<u8>) -> PlainSource
        ensures { result ≡ bytes.items }
    {
        PlainSource { bytes, given: 0 }
    }

    // Gives as many bytes as there are, at most `most` and as many as the buffer has.
    fn give(&mut self, buffer: &mut [u8], most: usize) -> usize
        ensures count { result ≡ min most (min (length buffer.old) (length self.old)) }
        ensures given { take result buffer.new ≡ take result self.old }
        ensures left { self.new ≡ drop result self.old }
    {
        let count = copy_front(&self.bytes[self.given..], buffer, most);
        self.given += count;
        count
    }
}

impl Source for PlainSource {
    ghost left = { λ bytes. Some bytes };

    ghost faults = { λ _. 0 };

    ghost last_count = { None };

    ghost is_faultless = { λ _. Unit {0} };

    fn read(&mut self, buffer: &mut [u8]) -> ReadAnswer
        ensures count { IfGot result (λ n. n ≡ min (length buffer.old) (length self.old)) }
        ensures left { IfGot result (λ n. self.new ≡ drop n self.old) }

        ensures within { IfGot result (λ n. n ≤ length buffer.new) }
        ensures given { IfGot result
            (λ n. Consumes (Some self.old) (Some self.new) (take n buffer.new)) }
        ensures end { IfGot result
            (λ n. n ≡ 0 → 0 < length buffer.new → IsAtEnd (Some self.new)) }
        ensures got_counts_nothing { IfGot result (λ _. ◌≡◌ {A = ℕ} 0 0) }
        ensures failed_counts { IfReadFailed result (HasFaulted None 0 0) }
        ensures failed_gives_nothing { IfReadFailed result (Some self.new ≡ Some self.old) }
        ensures never_falls { NeverFalls None 0 0 }
        ensures faultless { Unit {0} → IsGot result × Unit {0} }
    {
        let most = buffer.len();
        ReadAnswer::Got(self.give(buffer, most))
    }
}

// Copies first bytes, as many as both have and at most `most`, and answers how many.
fn copy_front(from: &[u8], to: &mut [u8], most: usize) -> usize
    ensures count { result ≡ min most (min (length to.old) (length from.now)) }
    ensures copied { take result to.new ≡ take result from.now }
{
    let count = most.min(to.len().min(from.len()));
    to[..count].copy_from_slice(&from[..count]);
    count
}

/// Bytes in memory, given at most so many a read, with faults at calls that were named beforehand.
#[derive(Drop)]
pub struct MemSource {
    source: PlainSource,
    most: usize,
    plan: FaultPlan,
    faults: u64,
}

// It is seen as the bytes not yet given, the most that a read gives, its calls so far and those
// that fail, and its faults so far.
impl Model for MemSource {
    ghost use Rattle.std.specs.Prelude.{◌≤◌};
    ghost use Rattle.linx_outside.specs.Contents.{Supply};

    ghost Value = { Supply };

    ghost view = { λ source. record {
      left = source.source;
      most = source.most;
      plan = source.plan;
      faults = source.faults;
    } };

    ghost invariant = { λ source. (1 ≤ source.most) × (source.faults ≤ source.plan.calls) };
}

impl MemSource {
    /// Gives these bytes, at most `most` a read. The reads whose numbers, from 1, stand in `fails`
    /// fail, and no others.
    pub fn new(bytes: Vec<u8>, most: usize, fails: Vec<u64>) -> MemSource
        requires { 1 ≤ most }
        ensures left { result.left ≡ bytes.items }
        ensures most { result.most ≡ most }
        ensures fails { result.plan.fails ≡ fails.items }
        ensures calls { result.plan.calls ≡ 0 }
        ensures faults { result.faults ≡ 0 }
    {
        MemSource {
            source: PlainSource::new(bytes),
            most,
            plan: FaultPlan::new(fails),
            faults: 0,
        }
    }
}

impl Source for MemSource {
    ghost left = { λ source. Some source.left };

    ghost faults = { λ source. source.faults };

    ghost last_count = { None };

    ghost is_faultless = { λ source. source.plan.fails ≡ [] };

    fn read(&mut self, buffer: &mut [u8]) -> ReadAnswer
        ensures planned { IsReadFailed result
            ↔ Contains self.old.plan.fails (self.old.plan.calls + 1) }
        ensures count { IfGot result
            (λ n. n ≡ min self.old.most (min (length buffer.old) (length self.old.left))) }
        ensures got { IfGot result (λ n. self.new ≡ record self.old {
          left = drop n self.old.left;
          plan = counted self.old.plan;
        }) }
        ensures failed { IfReadFailed result (self.new ≡ record self.old {
          faults = self.old.faults + 1;
          plan = counted self.old.plan;
        }) }

        ensures within { IfGot result (λ n. n ≤ length buffer.new) }
        ensures given { IfGot result
            (λ n. Consumes (Some self.old.left) (Some self.new.left) (take n buffer.new)) }
        ensures end { IfGot result
            (λ n. n ≡ 0 → 0 < length buffer.new → IsAtEnd (Some self.new.left)) }
        ensures got_counts_nothing { IfGot result (λ _. self.new.faults ≡ self.old.faults) }
        ensures failed_counts { IfReadFailed result
            (HasFaulted None self.old.faults self.new.faults) }
        ensures failed_gives_nothing { IfReadFailed result
            (Some self.new.left ≡ Some self.old.left) }
        ensures never_falls { NeverFalls None self.old.faults self.new.faults }
        ensures faultless { self.old.plan.fails ≡ []
            → IsGot result × (self.new.plan.fails ≡ []) }
    {
        if self.plan.next_fails() {
            self.faults += 1;
            return ReadAnswer::Failed;
        }
        ReadAnswer::Got(self.source.give(buffer, self.most))
    }
}
