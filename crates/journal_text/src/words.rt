//! How the other parts of a step are spelled: filters, paths, makers, positions, and the words for
//! answers and reasons.
ghost use Rattle.std.specs.Prelude.{◌≡◌, ◌++◌, flat_map, OnOk};
ghost use Rattle.journal_text.specs.Values.{further_text, numbers_text, filter_text, path_text};
ghost use Rattle.journal_text.specs.Values.{maker_text, position_text, reference_text, side_text};
ghost use Rattle.journal_text.specs.Values.{swapped_text, verdict_text, reason_text, sent_text};
ghost use Rattle.journal_text.specs.Values.{detached_text, refusal_text};

use crate::digits::{write_byte, write_bytes, write_number, write_word};
use crate::peers::write_link;
use journal::{By, Detached, Refusal, SentTo};
use linx_base::{ItemAt, Names, NoMemory, Path, Reason, Side, Verdict};
use sigsel::Sigsel;

fn write_further(out: &mut Vec<u8>, number: u32) -> Result<(), NoMemory>
    ensures { OnOk result (out.new.items ≡ out.old.items ++ further_text number) }
{
    write_byte(out, b',')?;
    write_number(out, number as u64)
}

fn write_rest(out: &mut Vec<u8>, rest: &[u32]) -> Result<(), NoMemory>
    ensures { OnOk result (out.new.items ≡ out.old.items ++ flat_map further_text rest.now) }
{
    for number in rest {
        write_further(out, *number)?;
    }
    Ok(())
}

#[tactic(auto, unfolding(crate::specs::Values::numbers_text))]
fn write_numbers(out: &mut Vec<u8>, numbers: &[u32]) -> Result<(), NoMemory>
    ensures { OnOk result (out.new.items ≡ out.old.items ++ numbers_text numbers.now) }
{
    match numbers {
        [] => Ok(()),
        [first, rest @ ..] => {
            write_number(out, *first as u64)?;
            write_rest(out, rest)
        }
    }
}

/// A filter: `any`, `only` or `not` with its numbers.
#[tactic(auto, unfolding(crate::specs::Values::filter_text))]
pub(crate) fn write_filter(out: &mut Vec<u8>, filter: &Sigsel) -> Result<(), NoMemory>
    ensures { OnOk result (out.new.items ≡ out.old.items ++ filter_text filter.now) }
{
    match filter {
        Sigsel::Any => write_word(out, b"any"),
        Sigsel::Only(listed) => {
            write_word(out, b"only:")?;
            write_numbers(out, listed.as_slice())
        }
        Sigsel::Not(listed) => {
            write_word(out, b"not:")?;
            write_numbers(out, listed.as_slice())
        }
    }
}

/// A path: a name, or one over a link.
#[tactic(auto, unfolding(crate::specs::Values::path_text))]
pub(crate) fn write_path(out: &mut Vec<u8>, names: &Names, path: &Path) -> Result<(), NoMemory>
    ensures { OnOk result (out.new.items ≡ out.old.items ++ path_text names.now path.now) }
{
    match path {
        Path::Local(name) => write_bytes(out, name.bytes()),
        Path::Over { link, name } => {
            write_link(out, names, *link)?;
            write_byte(out, b'/')?;
            write_bytes(out, name.bytes())
        }
    }
}

/// A maker: `A1` for an actor, `P1` for the pump of a link.
#[tactic(auto, unfolding(crate::specs::Values::maker_text))]
pub(crate) fn write_maker(out: &mut Vec<u8>, by: By) -> Result<(), NoMemory>
    ensures { OnOk result (out.new.items ≡ out.old.items ++ maker_text by) }
{
    match by {
        By::Actor(number) => {
            write_byte(out, b'A')?;
            write_number(out, number as u64)
        }
        By::Pump(link) => {
            write_byte(out, b'P')?;
            write_number(out, link.0 as u64)
        }
    }
}

/// The position of an item: its step, and its place in that.
#[tactic(auto, unfolding(crate::specs::Values::position_text))]
pub(crate) fn write_position(out: &mut Vec<u8>, at: ItemAt) -> Result<(), NoMemory>
    ensures { OnOk result (out.new.items ≡ out.old.items ++ position_text at) }
{
    write_number(out, at.step)?;
    write_byte(out, b'.')?;
    write_number(out, at.place)
}

/// A reference to a step: `@` and its number.
#[tactic(auto, unfolding(crate::specs::Values::reference_text))]
pub(crate) fn write_reference(out: &mut Vec<u8>, step: u64) -> Result<(), NoMemory>
    ensures { OnOk result (out.new.items ≡ out.old.items ++ reference_text step) }
{
    write_byte(out, b'@')?;
    write_number(out, step)
}

/// The direction from a side: `>` from the first, `<` from the second.
pub(crate) fn write_side(out: &mut Vec<u8>, side: Side) -> Result<(), NoMemory>
    ensures { OnOk result (out.new.items ≡ out.old.items ++ side_text side) }
{
    match side {
        Side::First => write_byte(out, b'>'),
        Side::Second => write_byte(out, b'<'),
    }
}

/// The number of a swap, `?` where it isn't 1 to 9.
fn write_swapped(out: &mut Vec<u8>, place: u8) -> Result<(), NoMemory>
    ensures { OnOk result (out.new.items ≡ out.old.items ++ swapped_text place) }
{
    if 1 <= place && place <= 9 {
        write_number(out, place as u64)
    } else {
        write_byte(out, b'?')
    }
}

/// A verdict on a packet.
pub(crate) fn write_verdict(out: &mut Vec<u8>, verdict: Verdict) -> Result<(), NoMemory>
    ensures { OnOk result (out.new.items ≡ out.old.items ++ verdict_text verdict) }
{
    match verdict {
        Verdict::Deliver => write_word(out, b"deliver"),
        Verdict::Lose => write_word(out, b"lose"),
        Verdict::Repeat => write_word(out, b"repeat"),
        Verdict::Swap(place) => {
            write_word(out, b"swap")?;
            write_swapped(out, place)
        }
    }
}

/// Why a peer is no more.
pub(crate) fn write_reason(out: &mut Vec<u8>, reason: Reason) -> Result<(), NoMemory>
    ensures { OnOk result (out.new.items ≡ out.old.items ++ reason_text reason) }
{
    match reason {
        Reason::Closed => write_word(out, b"closed"),
        Reason::Lost => write_word(out, b"lost"),
        Reason::Dead => write_word(out, b"dead"),
    }
}

/// What became of a signal that was sent.
pub(crate) fn write_sent(out: &mut Vec<u8>, answer: SentTo) -> Result<(), NoMemory>
    ensures { OnOk result (out.new.items ≡ out.old.items ++ sent_text answer) }
{
    match answer {
        SentTo::Queued => write_word(out, b"queued"),
        SentTo::Link => write_word(out, b"link"),
        SentTo::Dead => write_word(out, b"dead"),
    }
}

/// What a detach did.
pub(crate) fn write_detached(out: &mut Vec<u8>, answer: Detached) -> Result<(), NoMemory>
    ensures { OnOk result (out.new.items ≡ out.old.items ++ detached_text answer) }
{
    match answer {
        Detached::Pending => write_word(out, b"pending"),
        Detached::Queued => write_word(out, b"queued"),
        Detached::None => write_word(out, b"none"),
    }
}

/// Why a call was refused.
pub(crate) fn write_refusal(out: &mut Vec<u8>, reason: Refusal) -> Result<(), NoMemory>
    ensures { OnOk result (out.new.items ≡ out.old.items ++ refusal_text reason) }
{
    match reason {
        Refusal::NotOpen { .. } => write_word(out, b"not-open"),
        Refusal::IsOpen { .. } => write_word(out, b"is-open"),
        Refusal::NoPeer => write_word(out, b"no-peer"),
        Refusal::NoSignal => write_word(out, b"no-signal"),
        Refusal::NoRef => write_word(out, b"no-ref"),
    }
}
