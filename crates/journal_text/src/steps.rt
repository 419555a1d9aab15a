//! The lines of a step.
ghost use Rattle.std.specs.Prelude.{◌≡◌, ◌++◌, codes, decimal, length, Some, OnOk, OnErr};
ghost use Rattle.journal_text.specs.Values.{maker_text};
ghost use Rattle.sha2.specs.Sha256.{sha256};
ghost use Rattle.journal_text.specs.Steps.{head_text, step_text, step_text_at};
ghost use Rattle.journal_text.specs.Text.{count_text};
ghost use Rattle.journal_text.specs.Known.{signal_in, FitsStep, IsKnown, digest_by, digest_in};

use crate::digests::{DigestBy, Digests, Known};
use crate::digits::{write_byte, write_number, write_word};
use crate::effects::write_effects;
use crate::heads::write_head;
use crate::words::write_maker;
use journal::{By, Head, Journal, Step};
use linx_base::{Names, NoMemory};

/// The room that most steps' lines fit in.
const LINES_ROOM: usize = 256;

/// A step's first line: its position, its maker and its head.
fn write_first_line(
    out: &mut Vec<u8>,
    names: &Names,
    position: u64,
    by: By,
    head: &Head,
    known: Known<'_>,
) -> Result<(), NoMemory>
    requires { IsKnown known (signal_in head.now) }
    ensures { OnOk result (out.new.items ≡ out.old.items
        ++ (decimal position ++ codes " " ++ maker_text by ++ codes " "
        ++ head_text (digest_in known.entry) names.now head.now
        ++ codes "\n")) }
{
    write_number(out, position)?;
    write_byte(out, b' ')?;
    write_maker(out, by)?;
    write_byte(out, b' ')?;
    write_head(out, names, head, known)?;
    write_byte(out, b'\n')
}

/// The lines of the step at a position; the digests of its signals are next in their list.
#[tactic(auto, unfolding(crate::specs::Steps::step_text))]
pub(crate) fn write_lines(
    out: &mut Vec<u8>,
    names: &Names,
    digests: &Digests,
    next: &mut usize,
    position: u64,
    step: &Step,
) -> Result<(), NoMemory>
    requires { FitsStep digests.now position (Some step.now) }
    ensures { OnOk result (out.new.items ≡ out.old.items ++ step_text (digest_by digests.now.by) names.now position step.now) }
{
    let known = digests.of_head(next, position, step);
    write_first_line(out, names, position, step.by, &step.head, known)?;
    write_effects(out, names, digests, next, position, step)
}

/// Appends the lines of the step at position k, from 1; nothing where k is no position. A refusal
/// leaves the buffer as it was.
pub fn write_step(out: &mut Vec<u8>, journal: &Journal, k: u64) -> Result<(), NoMemory>
    ensures ok { OnOk result (out.new.items ≡ out.old.items ++ step_text_at sha256 journal.now.log k) }
    ensures err { OnErr result (out.new.items ≡ out.old.items) }
{
    let Some(step) = journal.step(k) else {
        return Ok(());
    };
    let alloc = *out.allocator();
    let mut lines = Vec::with_capacity(alloc, LINES_ROOM)?;
    let digests = Digests::none(alloc, DigestBy::Sha256);
    write_lines(&mut lines, journal.names(), &digests, &mut 0, k, step)?;
    out.extend_from_slice(&lines)?;
    Ok(())
}

/// Appends the line `journal N` with the number of steps. A refusal leaves the buffer as it was.
#[tactic(auto, unfolding(crate::specs::Text::count_text))]
pub fn write_count(out: &mut Vec<u8>, journal: &Journal) -> Result<(), NoMemory>
    ensures ok { OnOk result (out.new.items
        ≡ out.old.items ++ count_text (length journal.now.log.steps)) }
    ensures err { OnErr result (out.new.items ≡ out.old.items) }
{
    let mut line = Vec::new(*out.allocator());
    write_word(&mut line, b"journal ")?;
    write_number(&mut line, journal.len())?;
    write_byte(&mut line, b'\n')?;
    out.extend_from_slice(&line)?;
    Ok(())
}
