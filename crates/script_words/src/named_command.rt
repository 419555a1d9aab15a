ghost use Rattle.std.specs.Prelude.{◌≡◌, true, map, IfOk};
ghost use Rattle.script_words.specs.Gives.{Gives};
ghost use Rattle.script_words.specs.NamedCommand.{send_of, hunt_of, attach_command_of};
ghost use Rattle.script_words.specs.NamedCommand.{layout_command_of, own_command_of, command_of};
ghost use Rattle.script_words.specs.NamedCommand.{is_sized};

use crate::command::Command;
use crate::filling::Filling;
use crate::filter::filter;
use crate::line_error::{LineError, bad_shape, unknown_word};
use crate::names::{kept_name, name, one_name};
use crate::numbers::{any_number, number_or};
use crate::route::Route;
use crate::target::Target;
use crate::words::{alone, is_text, only};
use linx_base::Name;
use std::alloc::Global;

/// The most data bytes of a signal.
const DATA_MOST: usize = 65_532;

/// The most data bytes of an attach, whose signal gets one byte more for the reason.
const ATTACH_DATA_MOST: usize = 65_531;

/// The signal that answers a hunt, where its line says none.
const HUNT_SIGNAL: u32 = 251;

/// The signal of an attach, where its line says none.
const ATTACH_SIGNAL: u32 = 252;

/// A command as its line says it, with the names of its link and of its node.
#[derive(Drop)]
pub enum NamedCommand {
    /// A command that names no link and no node.
    Plain(Command),
    Hunt {
        route: Route,
        number: u32,
        bytes: Filling,
    },
    Cut(Name),
    Mend(Name),
    Settle(Name),
    Restart(Name),
}

#[tactic(auto, unfolding(crate::specs::NamedCommand::send_of))]
fn send(alloc: Global, statement: &[u8], words: &[&[u8]]) -> Result<NamedCommand, LineError>
    ensures gives { Gives (λ c. c) result (send_of statement.now (map (λ w. w.now) words.now)) }
    ensures sized { IfOk result (λ c. is_sized c ≡ true) }
{
    let [to, number, rest @ ..] = words else {
        return Err(bad_shape(statement));
    };
    let to = Target::of(alloc, to)?;
    let number = any_number(number)?;
    let bytes = Filling::of(alloc, DATA_MOST, rest)?;
    Ok(NamedCommand::Plain(Command::Send { to, number, bytes }))
}

#[tactic(auto, unfolding(crate::specs::NamedCommand::hunt_of))]
fn hunt(alloc: Global, statement: &[u8], words: &[&[u8]]) -> Result<NamedCommand, LineError>
    ensures gives { Gives (λ c. c) result (hunt_of statement.now (map (λ w. w.now) words.now)) }
    ensures sized { IfOk result (λ c. is_sized c ≡ true) }
{
    let [path, rest @ ..] = words else {
        return Err(bad_shape(statement));
    };
    let route = Route::of(alloc, path)?;
    let (number, rest) = number_or(HUNT_SIGNAL, rest);
    let bytes = Filling::of(alloc, DATA_MOST, rest)?;
    Ok(NamedCommand::Hunt {
        route,
        number,
        bytes,
    })
}

#[tactic(auto, unfolding(crate::specs::NamedCommand::attach_command_of))]
fn attach(alloc: Global, statement: &[u8], words: &[&[u8]]) -> Result<NamedCommand, LineError>
    ensures gives { Gives (λ c. c) result (attach_command_of statement.now (map (λ w. w.now) words.now)) }
    ensures sized { IfOk result (λ c. is_sized c ≡ true) }
{
    let [to, reference, rest @ ..] = words else {
        return Err(bad_shape(statement));
    };
    let to = Target::of(alloc, to)?;
    let r = name(alloc, reference)?;
    let (number, rest) = number_or(ATTACH_SIGNAL, rest);
    let bytes = Filling::of(alloc, ATTACH_DATA_MOST, rest)?;
    Ok(NamedCommand::Plain(Command::Attach {
        to,
        r,
        number,
        bytes,
    }))
}

/// A command that concerns a link or a node.
#[tactic(auto, unfolding(crate::specs::NamedCommand::layout_command_of))]
fn layout_command(alloc: Global, first: &[u8], words: &[&[u8]]) -> Result<NamedCommand, LineError>
    ensures gives { Gives (λ c. c) result
        (layout_command_of first.now (map (λ w. w.now) words.now)) }
    ensures sized { IfOk result (λ c. is_sized c ≡ true) }
{
    if is_text(first, b"cut") {
        return Ok(NamedCommand::Cut(one_name(alloc, first, words)?));
    }
    if is_text(first, b"mend") {
        return Ok(NamedCommand::Mend(one_name(alloc, first, words)?));
    }
    if is_text(first, b"settle") {
        return Ok(NamedCommand::Settle(one_name(alloc, first, words)?));
    }
    if is_text(first, b"restart") {
        return Ok(NamedCommand::Restart(one_name(alloc, first, words)?));
    }
    Err(unknown_word(first))
}

/// A command on what the actor has: its endpoint, the item taken last, its references and names.
#[tactic(auto, unfolding(crate::specs::NamedCommand::own_command_of))]
fn own_command(alloc: Global, first: &[u8], words: &[&[u8]]) -> Result<NamedCommand, LineError>
    ensures gives { Gives (λ c. c) result (own_command_of first.now (map (λ w. w.now) words.now)) }
    ensures sized { IfOk result (λ c. is_sized c ≡ true) }
{
    if is_text(first, b"open") {
        let endpoint = one_name(alloc, first, words)?;
        return Ok(NamedCommand::Plain(Command::Open(endpoint)));
    }
    if is_text(first, b"close") {
        return alone(words, NamedCommand::Plain(Command::Close));
    }
    if is_text(first, b"forward") {
        let to = Target::of(alloc, only(first, words)?)?;
        return Ok(NamedCommand::Plain(Command::Forward(to)));
    }
    if is_text(first, b"detach") {
        let reference = one_name(alloc, first, words)?;
        return Ok(NamedCommand::Plain(Command::Detach(reference)));
    }
    if is_text(first, b"keep") {
        let variable = kept_name(alloc, only(first, words)?)?;
        return Ok(NamedCommand::Plain(Command::Keep(variable)));
    }
    layout_command(alloc, first, words)
}

impl NamedCommand {
    /// The command of a line's first word and the words behind it.
    #[tactic(auto, unfolding(crate::specs::NamedCommand::command_of))]
    pub(crate) fn of(
        alloc: Global,
        first: &[u8],
        words: &[&[u8]],
    ) -> Result<NamedCommand, LineError>
        ensures gives { Gives (λ c. c) result (command_of first.now (map (λ w. w.now) words.now)) }
        ensures sized { IfOk result (λ c. is_sized c ≡ true) }
    {
        if is_text(first, b"send") {
            return send(alloc, first, words);
        }
        if is_text(first, b"recv") {
            let filter = filter(alloc, first, words)?;
            return Ok(NamedCommand::Plain(Command::Recv(filter)));
        }
        if is_text(first, b"hunt") {
            return hunt(alloc, first, words);
        }
        if is_text(first, b"attach") {
            return attach(alloc, first, words);
        }
        own_command(alloc, first, words)
    }
}
