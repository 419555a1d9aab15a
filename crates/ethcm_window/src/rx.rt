ghost use Rattle.std.specs.Prelude.{◌≡◌, ◌+◌, ◌<◌, ◌≤◌, [], false, length, drop, remove};
ghost use Rattle.std.specs.Prelude.{IfOk, IfErr, IfNone, IsSome, OnOk, OnErr, OnSome};
ghost use Rattle.std.specs.Option.{option_copied};
ghost use Rattle.linx_base.specs.Both.{still};
ghost use Rattle.ethcm_window.specs.Sending.{number_limit, sent_frame};
ghost use Rattle.ethcm_window.specs.Receiving.{empty_receiver, RisesWithin, NumbersRise};
ghost use Rattle.ethcm_window.specs.Receiving.{KeepsInOrder, keeps_number, kept_at, kept_above};
ghost use Rattle.ethcm_window.specs.Receiving.{kept_with, kept_early, missing_count, after_taking};
ghost use Rattle.ethcm_window.specs.Receiving.{after_frame, acceptance_of, IsToKeep, CountsIfEarly};
ghost use Rattle.ethcm_window.specs.WaysBack.{without_put, IsPlaceOf};

use crate::queue::drop_first;
use linx_base::{Frame, NoMemory, SentFrame};
use std::alloc::Global;
use std::collections::VecDeque;
use std::marker::Model;

/// A frame whose number is this much above the expected one isn't kept.
const TOO_EARLY: u32 = 256;

/// What a receiver does with a frame.
#[derive(Drop)]
pub enum Accept {
    /// Its number is the expected one: it is taken.
    Taken(Frame),
    /// It comes early. The least kept number above the expected one is `count` above it; 256 where
    /// none is kept above it.
    Early { count: u32 },
    /// Its number was taken before.
    Old,
}

/// The receiver's half of a window, with a way back. Contracts see it as it was when an event began
/// and as it is now: the number that it expects, and the frames that came early and are kept, in
/// order of their numbers.
#[derive(Drop)]
pub struct Rx {
    expected: u32,
    /// What was and what is share the queue: a frame that was taken out of it stays until the event
    /// is kept.
    kept: VecDeque<SentFrame>,
    /// How many of the first kept frames were taken since the event began.
    gone: usize,
    old_expected: u32,
    /// The places at which frames were put into the queue since the event began, in order of time.
    put: Vec<usize>,
}

impl Model for Rx {
    ghost use Rattle.std.specs.Prelude.{drop};
    ghost use Rattle.linx_base.specs.Both.{Both};
    ghost use Rattle.ethcm_window.specs.Receiving.{Receiver};
    ghost use Rattle.ethcm_window.specs.WaysBack.{without_put, SharesKept};

    ghost Value = { Both Receiver };

    ghost view = { λ r. record {
      was = record { expected = r.old_expected; kept = without_put r.put.items r.kept.items };
      is = record { expected = r.expected; kept = drop r.gone r.kept.items };
    } };

    ghost invariant = { λ r. SharesKept r.kept.items r.put.items r.gone r.expected r.old_expected };
}

/// How many of the kept frames have a lower number. The first `gone` are passed over.
fn count_below(kept: &VecDeque<SentFrame>, gone: usize, number: u32) -> usize
    requires gone { gone ≤ length kept.now.items }
    requires rising { NumbersRise (drop gone kept.now.items) }
    ensures within { gone + result ≤ length kept.now.items }
    ensures place { IsPlaceOf number (drop gone kept.now.items) result }
{
    let mut low = 0;
    let mut high = kept.len() - gone;
    'search: while low < high {
        let middle = low + (high - low) / 2;
        if kept[gone + middle].number < number {
            low = middle + 1;
        } else {
            high = middle;
        }
    }
    low
}

/// Whether the kept frame behind all that have a lower number has this one.
fn has(kept: &VecDeque<SentFrame>, gone: usize, below: usize, number: u32) -> bool
    requires within { gone + below ≤ length kept.now.items }
    requires rising { NumbersRise (drop gone kept.now.items) }
    requires place { IsPlaceOf number (drop gone kept.now.items) below }
    ensures { result ≡ keeps_number number (drop gone kept.now.items) }
{
    match kept.get(gone + below) {
        Some(other) => other.number == number,
        None => false,
    }
}

/// Keeps a frame, unless one of its number is kept already, and notes its place. A refusal gives it
/// back and changes nothing.
fn keep_frame(
    kept: &mut VecDeque<SentFrame>,
    put: &mut Vec<usize>,
    gone: usize,
    number: u32,
    frame: Frame,
) -> Result<(), (NoMemory, Frame)>
    requires gone { gone ≤ length kept.old.items }
    requires rising { NumbersRise (drop gone kept.old.items) }
    ensures gone { gone ≤ length kept.new.items }
    ensures ok { let kept_before = drop gone kept.old.items in
        OnOk result (drop gone kept.new.items ≡ kept_with (sent_frame number frame) kept_before) }
    ensures was { let was_kept = without_put put.old.items kept.old.items in
        without_put put.new.items kept.new.items ≡ was_kept }
    ensures err { OnErr result (kept.new.items ≡ kept.old.items) }
    ensures err_put { OnErr result (put.new.items ≡ put.old.items) }
    ensures given_back { IfErr result (λ refusal. refusal.1 ≡ frame) }
    ensures refused { OnErr result (keeps_number number (drop gone kept.old.items) ≡ false) }
{
    let below = count_below(kept, gone, number);
    if has(kept, gone, below, number) {
        return Ok(());
    }
    let Ok(()) = put.reserve(1) else {
        return Err((NoMemory, frame));
    };
    match kept.insert(gone + below, SentFrame { number, frame }) {
        Ok(()) => {
            put.push_reserved(gone + below);
            Ok(())
        }
        Err(refusal) => Err((NoMemory, refusal.value.frame)),
    }
}

/// How far above the expected number the least kept one above it is; 256 where there is none.
fn count(kept: &VecDeque<SentFrame>, gone: usize, expected: u32) -> u32
    requires gone { gone ≤ length kept.now.items }
    requires rising { NumbersRise (drop gone kept.now.items) }
    requires numbered { expected < number_limit }
    ensures { result ≡ missing_count expected (drop gone kept.now.items) }
{
    match kept.get(gone + count_below(kept, gone, expected + 1)) {
        Some(next) => next.number - expected,
        None => TOO_EARLY,
    }
}

/// Keeps a frame that comes early where it is near, and answers the count. A refusal gives it back
/// and changes nothing.
fn accept_early(
    kept: &mut VecDeque<SentFrame>,
    put: &mut Vec<usize>,
    gone: usize,
    expected: u32,
    number: u32,
    frame: Frame,
) -> Result<u32, (NoMemory, Frame)>
    requires gone { gone ≤ length kept.old.items }
    requires in_order { KeepsInOrder expected (drop gone kept.old.items) }
    requires early { expected < number }
    requires numbered { number < number_limit }
    ensures gone { gone ≤ length kept.new.items }
    ensures in_order { KeepsInOrder expected (drop gone kept.new.items) }
    ensures count { let left = drop gone kept.new.items in
        IfOk result (λ count. count ≡ missing_count expected left) }
    ensures kept { let early = kept_early expected (drop gone kept.old.items) in
        OnOk result (drop gone kept.new.items ≡ early (sent_frame number frame)) }
    ensures was { let was_kept = without_put put.old.items kept.old.items in
        without_put put.new.items kept.new.items ≡ was_kept }
    ensures err { OnErr result (kept.new.items ≡ kept.old.items) }
    ensures err_put { OnErr result (put.new.items ≡ put.old.items) }
    ensures given_back { IfErr result (λ refusal. refusal.1 ≡ frame) }
    ensures refused { let kept_before = drop gone kept.old.items in
        OnErr result (IsToKeep (record { expected = expected; kept = kept_before }) number) }
{
    if number - expected < TOO_EARLY {
        match keep_frame(kept, put, gone, number, frame) {
            Ok(()) => Ok(count(kept, gone, expected)),
            Err(refusal) => Err(refusal),
        }
    } else {
        Ok(count(kept, gone, expected))
    }
}

/// The first kept frame where it has this number, below which none is kept.
fn first_of(kept: &VecDeque<SentFrame>, gone: usize, number: u32) -> Option<&Frame>
    requires gone { gone ≤ length kept.now.items }
    requires rising { RisesWithin number number_limit (drop gone kept.now.items) }
    ensures frame { option_copied result ≡ kept_at number (drop gone kept.now.items) }
    ensures some { let left = drop gone kept.now.items in
        OnSome result (drop (gone + 1) kept.now.items ≡ kept_above number left) }
    ensures none { let left = drop gone kept.now.items in
        IfNone result (left ≡ kept_above number left) }
    ensures within { OnSome result (gone < length kept.now.items) }
    ensures below { OnSome result (number < number_limit) }
{
    match kept.get(gone) {
        None => None,
        Some(first) => {
            if first.number != number {
                return None;
            }
            Some(&first.frame)
        }
    }
}

/// How many are gone once this number is taken, below which none is kept.
fn gone_past(kept: &VecDeque<SentFrame>, gone: usize, number: u32) -> usize
    requires gone { gone ≤ length kept.now.items }
    requires rising { RisesWithin number number_limit (drop gone kept.now.items) }
    ensures within { result ≤ length kept.now.items }
    ensures rest { drop result kept.now.items ≡ kept_above number (drop gone kept.now.items) }
    ensures more { IsSome (kept_at number (drop gone kept.now.items)) → result ≡ gone + 1 }
    ensures below { IsSome (kept_at number (drop gone kept.now.items)) → number < number_limit }
{
    match first_of(kept, gone, number) {
        Some(_) => gone + 1,
        None => gone,
    }
}

/// Takes out what stands at a place; nothing past the end.
fn remove_at(kept: &mut VecDeque<SentFrame>, place: usize)
    ensures { kept.new.items ≡ remove kept.old.items place }
{
    let _ = kept.remove(place);
}

/// Takes out again what was put, the last first.
fn take_out(kept: &mut VecDeque<SentFrame>, put: &mut Vec<usize>)
    ensures kept { kept.new.items ≡ without_put put.old.items kept.old.items }
    ensures put { put.new.items ≡ [] }
{
    while let Some(place) = put.pop() {
        remove_at(kept, place);
    }
}

impl Rx {
    /// A receiver that expects number 0 and keeps nothing. It takes no memory.
    pub fn new(alloc: Global) -> Rx
        ensures { result ≡ still empty_receiver }
    {
        Rx {
            expected: 0,
            kept: VecDeque::new(alloc),
            gone: 0,
            old_expected: 0,
            put: Vec::new(alloc),
        }
    }

    /// The number that is expected next.
    pub fn expected(&self) -> u32
        ensures expected { result ≡ self.now.is.expected }
        ensures in_order { KeepsInOrder self.now.is.expected self.now.is.kept }
    {
        self.expected
    }

    /// A frame with its number has come. It is taken exactly where the number is the expected one,
    /// and comes early or was taken before exactly where it is above or below that. Memory is asked
    /// for only where the frame is to be kept; a refusal gives it back and changes nothing.
    pub fn accept(&mut self, seq: u32, frame: Frame) -> Result<Accept, (NoMemory, Frame)>
        requires { seq < number_limit }
        ensures answer { let sent = sent_frame seq frame in
            IfOk result (λ answer. answer ≡ acceptance_of self.old.is sent) }
        ensures after { OnOk result (self.new.is ≡ after_frame self.old.is (sent_frame seq frame)) }
        ensures counted { IfOk result (CountsIfEarly self.new.is) }
        ensures was { self.new.was ≡ self.old.was }
        ensures err { OnErr result (self.new ≡ self.old) }
        ensures given_back { IfErr result (λ refusal. refusal.1 ≡ frame) }
        ensures refused { OnErr result (IsToKeep self.old.is seq) }
    {
        if seq < self.expected {
            return Ok(Accept::Old);
        }
        if seq == self.expected {
            self.gone = gone_past(&self.kept, self.gone, seq);
            self.expected = seq + 1;
            return Ok(Accept::Taken(frame));
        }
        let (gone, expected) = (self.gone, self.expected);
        match accept_early(&mut self.kept, &mut self.put, gone, expected, seq, frame) {
            Ok(count) => Ok(Accept::Early { count }),
            Err(refusal) => Err(refusal),
        }
    }

    /// The kept frame of the expected number, `None` exactly where it isn't kept.
    pub fn ahead(&self) -> Option<&Frame>
        ensures { option_copied result ≡ kept_at self.now.is.expected self.now.is.kept }
    {
        first_of(&self.kept, self.gone, self.expected)
    }

    /// Takes the kept frame of the expected number. It takes no memory.
    pub fn pass(&mut self)
        requires { IsSome (kept_at self.old.is.expected self.old.is.kept) }
        ensures is { self.new.is ≡ after_taking self.old.is }
        ensures fewer { length self.new.is.kept < length self.old.is.kept }
        ensures was { self.new.was ≡ self.old.was }
    {
        self.gone = gone_past(&self.kept, self.gone, self.expected);
        self.expected += 1;
    }

    /// A session begins: number 0 is expected, and nothing is kept. It takes no memory.
    pub fn begin(&mut self)
        ensures is { self.new.is ≡ empty_receiver }
        ensures was { self.new.was ≡ self.old.was }
    {
        self.gone = self.kept.len();
        self.expected = 0;
    }

    /// What is now stays. It takes no memory.
    pub fn keep(&mut self)
        ensures { self.new ≡ still self.old.is }
    {
        drop_first(&mut self.kept, self.gone);
        self.put.clear();
        self.gone = 0;
        self.old_expected = self.expected;
    }

    /// What was is again. It takes no memory.
    pub fn undo(&mut self)
        ensures { self.new ≡ still self.old.was }
    {
        take_out(&mut self.kept, &mut self.put);
        self.gone = 0;
        self.expected = self.old_expected;
    }
}
