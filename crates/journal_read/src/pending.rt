//! The steps that lines made so far.
ghost use Rattle.std.specs.Prelude.{◌≡◌, None, IfOk, OnOk, OnErr};
ghost use Rattle.linx_base.specs.Content.{size_of};
ghost use Rattle.journal.specs.Logs.{head_bytes, effect_bytes};
ghost use Rattle.journal_read.specs.Bounds.{line_bytes};
ghost use Rattle.journal_read.specs.Pending.{with_newest};

use crate::sharing::Shared;
use journal::{Effect, Effects, Head, Journal, Step};
use journal_words::{Line, read_line};
use linx_base::{Names, NoMemory, SigNote};
use std::alloc::Global;
use std::marker::Model;
use text_words::ReadError;

/// The bytes of signals that the steps of a text may note.
const NOTED_MOST: u64 = 268_435_456;

/// The steps that lines made so far: those that are whole, and the newest, which may get further
/// effects. Their long data are shared, and their bytes of signals are counted.
#[derive(Drop)]
pub(crate) struct Pending {
    alloc: Global,
    whole: Journal,
    newest: Option<Step>,
    shared: Shared,
    noted: u64,
}

/// The size of a noted signal.
fn note_bytes(note: &SigNote) -> u64
    ensures { result ≡ size_of note.now }
{
    note.data().len() as u64 + 4
}

fn bytes_in_head(head: &Head) -> u64
    ensures { result ≡ head_bytes head.now }
{
    match head {
        Head::Send(_, note, _) | Head::Hunt(_, note) | Head::Attach(_, note) => note_bytes(note),
        _ => 0,
    }
}

fn bytes_in_effect(effect: &Effect) -> u64
    ensures { result ≡ effect_bytes effect.now }
{
    match effect {
        Effect::Arrived(_, _, note)
        | Effect::Found(_, _, note, _)
        | Effect::Notified(_, _, note, _, _) => note_bytes(note),
        _ => 0,
    }
}

/// The size of the signal that a line notes.
fn bytes_in_line(line: &Line) -> u64
    ensures { result ≡ line_bytes line.now }
{
    match line {
        Line::Made(_, _, head) => bytes_in_head(head),
        Line::Happened(effect) => bytes_in_effect(effect),
    }
}

/// The newest step, if there is one, is whole.
fn end_newest(whole: &mut Journal, newest: &mut Option<Step>) -> Result<(), NoMemory>
    ensures steps { OnOk result (whole.new.log
        ≡ record whole.old.log { steps = with_newest newest.old whole.old.log.steps }) }
    ensures none { OnOk result (newest.new ≡ None) }
    ensures err { OnErr result
        ((whole.new.log ≡ whole.old.log) × (newest.new ≡ newest.old)) }
{
    whole.reserve(1)?;
    if let Some(step) = newest.take() {
        whole.push(step);
    }
    Ok(())
}

/// The journal of whole steps and the newest one, if there is one.
fn with_last(mut whole: Journal, mut newest: Option<Step>) -> Result<Journal, NoMemory>
    ensures { IfOk result (λ journal. journal.log
        ≡ record whole.log { steps = with_newest newest whole.log.steps }) }
{
    let ended = end_newest(&mut whole, &mut newest);
    drop(newest);
    match ended {
        Ok(()) => Ok(whole),
        Err(refusal) => Err(refusal),
    }
}

impl Model for Pending {
    ghost use Rattle.std.specs.Prelude.{◌≡◌, ◌==◌, ◌||◌, ◌-◌, ◌^◌, min, true, is_some, length};
    ghost use Rattle.journal.specs.Logs.{Log, signal_bytes_of};
    ghost use Rattle.journal_read.specs.Pending.{with_newest};

    ghost Value = { Log };

    ghost view = { λ p. record {
      names = p.whole.log.names;
      steps = with_newest p.newest p.whole.log.steps;
    } };

    // whole steps stand only behind a newest one; and all bytes of signals are counted
    ghost invariant = { λ p. ((is_some p.newest || (length p.whole.log.steps == 0)) ≡ true)
        × (p.noted ≡ min (signal_bytes_of (with_newest p.newest p.whole.log.steps)) (2 ^ 64 - 1)) };
}

impl Pending {
    ghost use Rattle.std.specs.Prelude.{◌≡◌, ◌==◌, suc, length, nat_le, [], IfOk};
    ghost use Rattle.journal_read.specs.Bounds.{is_over_full};
    ghost use Rattle.journal_read.specs.Reading.{put_line, put_bytes};
    ghost use Rattle.text_words.specs.Gives.{Gives};

    /// No step was read yet.
    pub(crate) fn new(alloc: Global, names: Names) -> Pending
        ensures { result ≡ record { names = names; steps = [] } }
    {
        Pending {
            alloc,
            whole: Journal::new(alloc, names),
            newest: None,
            shared: Shared::new(alloc),
            noted: 0,
        }
    }

    fn names(&self) -> &Names
        ensures { result.now ≡ self.now.names }
    {
        self.whole.names()
    }

    /// Whether there are so many steps so far.
    pub(crate) fn has(&self, count: u64) -> bool
        ensures { result ≡ (length self.now.steps == count) }
    {
        match &self.newest {
            None => count == 0,
            Some(_) => count >= 1 && self.whole.len() == count - 1,
        }
    }

    /// Whether there are at most so many steps so far.
    pub(crate) fn has_at_most(&self, count: u64) -> bool
        ensures { result ≡ nat_le (length self.now.steps) count }
    {
        match &self.newest {
            None => true,
            Some(_) => self.whole.len() < count,
        }
    }

    /// Whether the steps so far note more than they may.
    pub(crate) fn is_over_full(&self) -> bool
        ensures { result ≡ is_over_full self.now.steps }
    {
        self.noted > NOTED_MOST
    }

    /// Whether the next step has this position.
    fn is_next(&self, position: u64) -> bool
        ensures { result ≡ (position == suc (length self.now.steps)) }
    {
        match &self.newest {
            None => position == 1,
            Some(_) => position >= 2 && position - 2 == self.whole.len(),
        }
    }

    /// Puts a line on, where it goes on the steps so far.
    fn put(&mut self, line: Line) -> Result<(), ReadError>
        ensures steps { Gives (λ _. self.new.steps) result (put_line self.old.steps line) }
        ensures names { self.new.names ≡ self.old.names }
    {
        let noted = self.noted.saturating_add(bytes_in_line(&line));
        match line {
            Line::Made(position, by, head) => {
                if !self.is_next(position) {
                    drop(head);
                    return Err(ReadError::Bad);
                }
                if end_newest(&mut self.whole, &mut self.newest).is_err() {
                    drop(head);
                    return Err(ReadError::NoMemory);
                }
                drop(
                    self.newest.replace(Step {
                        by,
                        head,
                        effects: Effects::new(self.alloc),
                    }),
                );
                self.noted = noted;
                Ok(())
            }
            Line::Happened(effect) => match &mut self.newest {
                Some(step) => {
                    step.effects.push(effect)?;
                    self.noted = noted;
                    Ok(())
                }
                None => {
                    drop(effect);
                    Err(ReadError::Bad)
                }
            },
        }
    }

    /// Puts the line on that these bytes are.
    #[tactic(auto, unfolding(crate::specs::Reading::put_bytes))]
    pub(crate) fn put_bytes(&mut self, bytes: &[u8]) -> Result<(), ReadError>
        ensures steps { Gives (λ _. self.new.steps) result
            (put_bytes self.old.names self.old.steps bytes.now) }
        ensures names { self.new.names ≡ self.old.names }
    {
        let line = read_line(self.alloc, self.names(), bytes)?;
        let line = self.shared.line(line)?;
        self.put(line)
    }

    /// The journal of all steps so far.
    pub(crate) fn into_journal(self) -> Result<Journal, NoMemory>
        ensures { IfOk result (λ journal. journal.log ≡ self) }
    {
        let Pending { whole, newest, .. } = self;
        with_last(whole, newest)
    }
}
