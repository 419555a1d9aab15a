//! A line of a printed step, read.
ghost use Rattle.std.specs.Prelude.{◌≡◌, map};
ghost use Rattle.text_words.specs.Gives.{Gives};
ghost use Rattle.journal_words.specs.Lines.{head_at, effect_at, step_line_in, line_by, line_in};

use crate::effects::effect;
use crate::heads::head;
use crate::peers::maker_of;
use journal::{By, Effect, Head};
use linx_base::Names;
use std::alloc::Global;
use text_words::{ReadError, is_text, split_words, u64_of};

/// What a line of a printed step says.
#[derive(Drop)]
pub enum Line {
    /// The step at this position was made by this maker, and has this head.
    Made(u64, By, Head),
    /// The step has this effect.
    Happened(Effect),
}

/// The head of its words.
fn head_of_words(alloc: Global, names: &Names, words: &[&[u8]]) -> Result<Head, ReadError>
    ensures { Gives (λ h. h) result (head_at names.now (map (λ w. w.now) words.now)) }
{
    match words {
        [first, words @ ..] => head(alloc, names, first, words),
        [] => Err(ReadError::Bad),
    }
}

/// The effect of its words.
fn effect_of_words(alloc: Global, names: &Names, words: &[&[u8]]) -> Result<Effect, ReadError>
    ensures { Gives (λ e. e) result (effect_at names.now (map (λ w. w.now) words.now)) }
{
    match words {
        [first, words @ ..] => effect(alloc, names, first, words),
        [] => Err(ReadError::Bad),
    }
}

/// A step's position, its maker and its head.
#[tactic(auto, unfolding(crate::specs::Lines::step_line_in))]
fn step_line(alloc: Global, names: &Names, first: &[u8], words: &[&[u8]]) -> Result<Line, ReadError>
    ensures { Gives (λ l. l) result (step_line_in names.now first.now (map (λ w. w.now) words.now)) }
{
    let [maker, words @ ..] = words else {
        return Err(ReadError::Bad);
    };
    let position = u64_of(first)?;
    let by = maker_of(maker)?;
    let head = head_of_words(alloc, names, words)?;
    Ok(Line::Made(position, by, head))
}

/// A line by its words.
#[tactic(auto, unfolding(crate::specs::Lines::line_by))]
fn line_of_words(alloc: Global, names: &Names, words: &[&[u8]]) -> Result<Line, ReadError>
    ensures { Gives (λ l. l) result (line_by names.now (map (λ w. w.now) words.now)) }
{
    match words {
        [first, words @ ..] => {
            if is_text(first, b"+") {
                return Ok(Line::Happened(effect_of_words(alloc, names, words)?));
            }
            step_line(alloc, names, first, words)
        }
        [] => Err(ReadError::Bad),
    }
}

/// The line that bytes are, its line feed not among them.
pub fn read_line(alloc: Global, names: &Names, bytes: &[u8]) -> Result<Line, ReadError>
    ensures { Gives (λ l. l) result (line_in names.now bytes.now) }
{
    let words = split_words(alloc, bytes)?;
    line_of_words(alloc, names, words.as_slice())
}
