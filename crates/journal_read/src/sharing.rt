//! Long data that a text shows several times are kept once.
ghost use Rattle.std.specs.Prelude.{◌≡◌, IfOk};

use journal::{Effect, Head};
use journal_words::Line;
use linx_base::{Blob, NoMemory, SigNote, Signal, TryCopy};
use std::alloc::Global;
use std::collections::HashMap;

/// The most data bytes that a text shows one by one.
const SPELLED_MOST: usize = 32;

/// What stands for data, at a glance: how many they are, and the first eight bytes of their digest.
#[derive(Clone, Copy, PartialEq, Eq, Hash)]
struct Glance {
    length: usize,
    first: u64,
}

impl Glance {
    fn at(bytes: &[u8]) -> Glance {
        Glance {
            length: bytes.len(),
            first: match bytes.first_chunk::<8>() {
                Some(eight) => u64::from_be_bytes(*eight),
                None => 0,
            },
        }
    }
}

/// What stands for long data, the latest of each glance.
#[derive(Drop)]
pub(crate) struct Shared {
    kept: HashMap<Glance, Blob>,
}

impl Shared {
    /// Nothing is kept yet.
    pub(crate) fn new(alloc: Global) -> Shared {
        Shared {
            kept: HashMap::new(alloc),
        }
    }

    /// The data, in the buffer of equal ones that were kept.
    fn bytes(&mut self, bytes: &Blob) -> Result<Blob, NoMemory>
        ensures { IfOk result (λ shared. shared ≡ bytes.now) }
    {
        let glance = Glance::at(bytes.bytes());
        match self.kept.get(&glance) {
            Some(kept) if kept.same(bytes) => kept.copy(),
            _ => {
                self.kept.insert(glance, bytes.copy()?)?;
                bytes.copy()
            }
        }
    }

    /// The signal, with shared data if they are long.
    fn note(&mut self, note: SigNote) -> Result<SigNote, NoMemory>
        ensures { IfOk result (λ shared. shared ≡ note) }
    {
        if note.data().len() <= SPELLED_MOST {
            return Ok(note);
        }
        let bytes = self.bytes(note.data())?;
        Signal::of(note.number(), bytes).note()
    }

    fn head(&mut self, head: Head) -> Result<Head, NoMemory>
        ensures { IfOk result (λ shared. shared ≡ head) }
    {
        match head {
            Head::Send(peer, note, answer) => Ok(Head::Send(peer, self.note(note)?, answer)),
            Head::Hunt(path, note) => Ok(Head::Hunt(path, self.note(note)?)),
            Head::Attach(peer, note) => Ok(Head::Attach(peer, self.note(note)?)),
            _ => Ok(head),
        }
    }

    fn effect(&mut self, effect: Effect) -> Result<Effect, NoMemory>
        ensures { IfOk result (λ shared. shared ≡ effect) }
    {
        match effect {
            Effect::Arrived(inc, peer, note) => Ok(Effect::Arrived(inc, peer, self.note(note)?)),
            Effect::Found(inc, peer, note, hunt) => {
                Ok(Effect::Found(inc, peer, self.note(note)?, hunt))
            }
            Effect::Notified(inc, peer, note, reference, reason) => Ok(Effect::Notified(
                inc,
                peer,
                self.note(note)?,
                reference,
                reason,
            )),
            _ => Ok(effect),
        }
    }

    /// The line, with shared data if it has long ones.
    pub(crate) fn line(&mut self, line: Line) -> Result<Line, NoMemory>
        ensures { IfOk result (λ shared. shared ≡ line) }
    {
        match line {
            Line::Made(position, by, head) => Ok(Line::Made(position, by, self.head(head)?)),
            Line::Happened(effect) => Ok(Line::Happened(self.effect(effect)?)),
        }
    }
}
