ghost use Rattle.std.specs.Prelude.{◌≡◌, true, map, IfOk};
ghost use Rattle.script_words.specs.Gives.{Gives};
ghost use Rattle.script_words.specs.BlockLine.{actor_line_of, repeat_line_of, is_sized_in_actor};
ghost use Rattle.script_words.specs.BlockLine.{is_sized_in_repeat};

use crate::line_error::LineError;
use crate::named_command::NamedCommand;
use crate::numbers::number_within;
use crate::words::{alone, is_text, only};
use std::alloc::Global;

/// The most copies of a repeated block.
const COPIES_MOST: u32 = 20_000;

/// A line of an actor's block, outside a repeated one.
#[derive(Drop)]
pub enum ActorLine {
    Command(NamedCommand),
    /// A block begins that is repeated so often, 1 to 20,000 times.
    Repeat(u32),
    End,
}

/// A line of a repeated block.
#[derive(Drop)]
pub enum RepeatLine {
    Command(NamedCommand),
    End,
}

impl ActorLine {
    /// What a line of an actor's block says, by its first word and the words behind it.
    #[tactic(auto, unfolding(crate::specs::BlockLine::actor_line_of))]
    pub fn of(alloc: Global, first: &[u8], words: &[&[u8]]) -> Result<ActorLine, LineError>
        ensures gives { Gives (λ l. l) result
            (actor_line_of first.now (map (λ w. w.now) words.now)) }
        ensures sized { IfOk result (λ l. is_sized_in_actor l ≡ true) }
    {
        if is_text(first, b"repeat") {
            let times = number_within(only(first, words)?, 1, COPIES_MOST)?;
            return Ok(ActorLine::Repeat(times));
        }
        if is_text(first, b"end") {
            return alone(words, ActorLine::End);
        }
        let command = NamedCommand::of(alloc, first, words)?;
        Ok(ActorLine::Command(command))
    }
}

impl RepeatLine {
    /// What a line of a repeated block says, by its first word and the words behind it.
    #[tactic(auto, unfolding(crate::specs::BlockLine::repeat_line_of))]
    pub fn of(alloc: Global, first: &[u8], words: &[&[u8]]) -> Result<RepeatLine, LineError>
        ensures gives { Gives (λ l. l) result
            (repeat_line_of first.now (map (λ w. w.now) words.now)) }
        ensures sized { IfOk result (λ l. is_sized_in_repeat l ≡ true) }
    {
        if is_text(first, b"end") {
            return alone(words, RepeatLine::End);
        }
        let command = NamedCommand::of(alloc, first, words)?;
        Ok(RepeatLine::Command(command))
    }
}
