//! The digests of a journal's signals, each made once, before any of it is printed, and equal
//! bytes share one where they can be told at a glance. Which is for which step and place is a list
//! in the order of the journal: who reads the journal in order passes along the list beside it.
ghost use Rattle.std.specs.Prelude.{◌≡◌, ◌↔◌, ℕ, List, Option, Some};
ghost use Rattle.std.specs.Prelude.{IsTrue, IfOk, IfSome, OnOk, slice_get};
ghost use Rattle.std.specs.Option.{option_copied};
ghost use Rattle.linx_base.specs.SigNotes.{SigNote as SigNoteOf};
ghost use Rattle.journal.specs.declared.effect.Step.{Step};
ghost use Rattle.journal.specs.Logs.{effect_at, step_at};
ghost use Rattle.journal_text.specs.Values.{digest_text};
ghost use Rattle.journal_text.specs.Known.{signal_in, signal_brought, signal_of, signal_at, AreOf};
ghost use Rattle.journal_text.specs.Known.{Keeps, FitsPlace, FitsStep, Fits};
ghost use Rattle.journal_text.specs.Known.{IsKnown, digest_by, digest_in};
ghost use Rattle.journal_text.specs.declared.digests.DigestBy.TheVariants.{Sha256};
ghost use Rattle.sha2.specs.Sha256.{sha256};

use crate::digits::{SPELLED_MOST, write_digest};
use journal::{Effect, Head, Journal, Step};
use linx_base::{Blob, ItemAt, NoMemory, SigNote, TryCopy};
use std::alloc::Global;
use std::collections::HashMap;
use std::marker::Model;

/// The room for a spelled digest: a length of up to five digits, a colon and two digits a byte.
const SPELLED_ROOM: usize = 70;

/// The place of a step's head; its effects stand at the places from 1 on.
const HEAD: u64 = 0;

/// What is printed of long data: their SHA-256, or their first bytes.
#[derive(Clone, Copy)]
pub(crate) enum DigestBy {
    Sha256,
    FirstBytes,
}

/// Bytes with their digest as it is spelled. Contracts see the bytes.
#[derive(Drop)]
pub(crate) struct Digested {
    bytes: Blob,
    text: Blob,
}

impl Model for Digested {
    ghost use Rattle.std.specs.Prelude.{◌≡◌, List, ℕ};
    ghost use Rattle.sha2.specs.Sha256.{sha256};
    ghost use Rattle.journal_text.specs.Values.{digest_text};

    ghost Value = { List ℕ };

    ghost view = { λ d. d.bytes };

    ghost invariant = { λ d. d.text ≡ digest_text sha256 d.bytes };
}

/// The digest of these bytes, as it is spelled.
fn spelled(alloc: Global, bytes: &Blob) -> Result<Blob, NoMemory>
    ensures { IfOk result (λ text. text ≡ digest_text sha256 bytes.now) }
{
    let mut text = Vec::with_capacity(alloc, SPELLED_ROOM)?;
    write_digest(&mut text, bytes)?;
    Blob::shared(text)
}

impl Digested {
    fn of(alloc: Global, bytes: &Blob) -> Result<Digested, NoMemory>
        ensures { IfOk result (λ made. made ≡ bytes.now) }
    {
        Ok(Digested {
            bytes: bytes.copy()?,
            text: spelled(alloc, bytes)?,
        })
    }

    fn is_of(&self, bytes: &Blob) -> bool
        ensures { IsTrue result ↔ (self.now ≡ bytes.now) }
    {
        self.bytes.same(bytes)
    }

    /// What is printed of the bytes: their number and their SHA-256.
    pub(crate) fn text(&self) -> &[u8]
        ensures { result.now ≡ digest_text sha256 self.now }
    {
        self.text.bytes()
    }
}

/// What is printed of long data: their SHA-256, which was made before, or what is made of them.
#[derive(Clone, Copy)]
pub(crate) enum Known<'a> {
    Made(&'a Digested),
    By(DigestBy),
}

/// Whether a signal is printed with a digest.
fn is_digested(note: &SigNote) -> bool {
    note.data().len() > SPELLED_MOST
}

/// The signal in a head.
fn signal_in(head: &Head) -> Option<&SigNote>
    ensures { option_copied result ≡ signal_in head.now }
{
    match head {
        Head::Send(_, note, _) | Head::Hunt(_, note) | Head::Attach(_, note) => Some(note),
        _ => None,
    }
}

/// The signal that an effect brings.
fn signal_brought(effect: &Effect) -> Option<&SigNote>
    ensures { option_copied result ≡ signal_brought effect.now }
{
    match effect {
        Effect::Arrived(_, _, note)
        | Effect::Found(_, _, note, _)
        | Effect::Notified(_, _, note, _, _) => Some(note),
        _ => None,
    }
}

/// What bytes are at a glance: how many, the first eight and the last eight. Equal bytes have one
/// glance, and most unequal ones have two.
#[derive(Clone, Copy, PartialEq, Eq, Hash)]
struct Glance {
    length: usize,
    first: u64,
    last: u64,
}

/// Eight bytes as one number; 0 where there are fewer.
fn eight_bytes(found: Option<&[u8; 8]>) -> u64 {
    match found {
        Some(eight) => u64::from_be_bytes(*eight),
        None => 0,
    }
}

impl Glance {
    fn at(bytes: &[u8]) -> Glance {
        Glance {
            length: bytes.len(),
            first: eight_bytes(bytes.first_chunk()),
            last: eight_bytes(bytes.last_chunk()),
        }
    }
}

/// While digests are made: where the latest of each glance stands among them.
type Latest = HashMap<Glance, usize>;

/// Whether the digest at this place is of these bytes.
fn is_made(made: &[Digested], at: usize, bytes: &Blob) -> bool
    ensures { IsTrue result → slice_get made.now at ≡ Some bytes.now }
{
    match made.get(at) {
        Some(digested) => digested.is_of(bytes),
        None => false,
    }
}

/// Where the digest of these bytes stands: the latest of their glance if that is of the same bytes,
/// else a new one.
fn place_of(
    alloc: Global,
    made: &mut Vec<Digested>,
    latest: &mut Latest,
    bytes: &Blob,
) -> Result<usize, NoMemory>
    ensures keeps { OnOk result (Keeps made.old.items made.new.items) }
    ensures stands { IfOk result (λ at. slice_get made.new.items at ≡ Some bytes.now) }
{
    let glance = Glance::at(bytes.bytes());
    match latest.get(&glance) {
        Some(at) if is_made(made, *at, bytes) => Ok(*at),
        _ => {
            let at = made.len();
            made.push(Digested::of(alloc, bytes)?)?;
            latest.insert(glance, at)?;
            Ok(at)
        }
    }
}

/// The step and the place of a signal, and where its digest stands.
#[derive(Clone, Copy)]
pub(crate) struct Placed {
    step: u64,
    place: u64,
    digest: usize,
}

/// The digests that were made, and for which signals, in the order of the journal.
#[derive(Drop)]
pub(crate) struct Digests {
    pub(crate) by: DigestBy,
    made: Vec<Digested>,
    placed: Vec<Placed>,
}

impl Digests {
    /// No digests: whatever long data are printed of is made anew.
    #[tactic(auto, using(crate::proofs::Fitting::nothing_placed))]
    pub(crate) fn none(alloc: Global, by: DigestBy) -> Digests
        ensures by { result.by ≡ by }
        ensures fits { (position : ℕ) (s : Option Step) → FitsStep result position s }
    {
        Digests {
            by,
            made: Vec::new(alloc),
            placed: Vec::new(alloc),
        }
    }

    /// Those of all signals in a journal, by SHA-256.
    pub(crate) fn of(alloc: Global, journal: &Journal) -> Result<Digests, NoMemory>
        ensures by { IfOk result (λ digests. digests.by ≡ Sha256) }
        ensures fits { IfOk result (λ digests. Fits digests journal.now.log.steps) }
    {
        let mut digests = Digests::none(alloc, DigestBy::Sha256);
        let mut latest = Latest::new(alloc);
        for done in 0..journal.len() {
            digests.add_step(alloc, &mut latest, journal, done + 1)?;
        }
        Ok(digests)
    }

    /// What is at a place of the list.
    fn placed_at(&self, next: usize) -> Option<&Placed>
        ensures { option_copied result ≡ slice_get self.now.placed.items next }
    {
        self.placed.get(next)
    }

    /// What was made at a place.
    fn made_at(&self, at: usize) -> Option<&Digested>
        ensures { option_copied result ≡ slice_get self.now.made.items at }
    {
        self.made.get(at)
    }

    /// The digest that is next in the list, if it is for this place of this step; then what follows
    /// it is next.
    fn look(&self, next: &mut usize, position: u64, place: u64) -> Option<&Digested>
        ensures { (note : Option SigNoteOf)
            → FitsPlace self.now.made.items self.now.placed.items position place note
            → IfSome result (λ known. AreOf note known.now) }
    {
        match self.placed_at(*next) {
            Some(placed) if placed.step == position && placed.place == place => {
                *next += 1;
                self.made_at(placed.digest)
            }
            _ => None,
        }
    }

    /// What is printed at this place of this step: what is next in the list, if it is for that, and
    /// if any were made.
    fn known(&self, next: &mut usize, position: u64, place: u64) -> Known<'_>
        ensures by { digest_in result ≡ digest_by self.now.by }
        ensures known { (note : Option SigNoteOf)
            → FitsPlace self.now.made.items self.now.placed.items position place note
            → IsKnown result note }
    {
        match self.by {
            DigestBy::Sha256 => match self.look(next, position, place) {
                Some(digested) => Known::Made(digested),
                None => Known::By(self.by),
            },
            DigestBy::FirstBytes => Known::By(self.by),
        }
    }

    /// That of the signal in the head of a step, if it is printed with one, and if it is next.
    pub(crate) fn of_head(&self, next: &mut usize, position: u64, step: &Step) -> Known<'_>
        requires { FitsStep self.now position (Some step.now) }
        ensures by { digest_in result ≡ digest_by self.now.by }
        ensures known { IsKnown result (signal_in step.now.head) }
    {
        match signal_in(&step.head) {
            Some(note) if is_digested(note) => self.known(next, position, HEAD),
            _ => Known::By(self.by),
        }
    }

    /// That of the signal in the effect at a place, if it is printed with one, and if it is next.
    pub(crate) fn of_effect(
        &self,
        next: &mut usize,
        position: u64,
        place: u64,
        effect: &Effect,
    ) -> Known<'_>
        requires { FitsPlace self.now.made.items self.now.placed.items position place
            (signal_brought effect.now) }
        ensures by { digest_in result ≡ digest_by self.now.by }
        ensures known { IsKnown result (signal_brought effect.now) }
    {
        match signal_brought(effect) {
            Some(note) if is_digested(note) => self.known(next, position, place),
            _ => Known::By(self.by),
        }
    }

    /// That of the signal in the effect at an item's position, which is sought.
    pub(crate) fn of_item(&self, at: ItemAt) -> Known<'_>
        ensures by { digest_in result ≡ digest_by self.now.by }
        ensures known { (steps : List Step) → Fits self.now steps
            → IsKnown result (signal_of (effect_at steps at)) }
    {
        let mut next = self.placed.partition_point(|placed| {
            placed.step < at.step || (placed.step == at.step && placed.place < at.place)
        });
        self.known(&mut next, at.step, at.place)
    }

    /// Adds those of the signals in a step.
    fn add_step(
        &mut self,
        alloc: Global,
        latest: &mut Latest,
        journal: &Journal,
        position: u64,
    ) -> Result<(), NoMemory>
        requires { Fits self.old journal.now.log.steps }
        ensures by { OnOk result (self.new.by ≡ self.old.by) }
        ensures fits { OnOk result (Fits self.new journal.now.log.steps) }
    {
        let Some(step) = journal.step(position) else {
            return Ok(());
        };
        if let Some(note) = signal_in(&step.head) {
            self.add(alloc, latest, position, HEAD, note)?;
        }
        for (index, effect) in step.effects.as_slice().iter().enumerate() {
            if let Some(note) = signal_brought(effect) {
                self.add(alloc, latest, position, index as u64 + 1, note)?;
            }
        }
        Ok(())
    }

    /// Adds the digest of the signal at a place of a step, if it is printed with one.
    #[tactic(auto, using(crate::proofs::Fitting::fits_more))]
    fn add(
        &mut self,
        alloc: Global,
        latest: &mut Latest,
        position: u64,
        place: u64,
        note: &SigNote,
    ) -> Result<(), NoMemory>
        ensures by { OnOk result (self.new.by ≡ self.old.by) }
        ensures fits { (steps : List Step)
            → signal_at (step_at steps position) place ≡ Some note.now
            → Fits self.old steps → OnOk result (Fits self.new steps) }
    {
        if !is_digested(note) {
            return Ok(());
        }
        let digest = place_of(alloc, &mut self.made, latest, note.data())?;
        self.placed.push(Placed {
            step: position,
            place,
            digest,
        })?;
        Ok(())
    }
}
