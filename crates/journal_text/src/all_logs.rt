//! The logs of all incarnations, in order of opening. The journal is read once for its digests,
//! once to collect, once to write, however many incarnations there are.
ghost use Rattle.std.specs.Prelude.{◌≡◌, ◌++◌, flat_map, OnOk, OnErr, IfOk};
ghost use Rattle.journal_text.specs.Blocks.{log_text, logs_text, title_text};
ghost use Rattle.journal.specs.History.{opening_name};
ghost use Rattle.journal_text.specs.Collected.{AreLogs, Collects, opened_log};
ghost use Rattle.journal_text.specs.Known.{Fits, digest_by};
ghost use Rattle.journal_text.specs.Values.{first_bytes};
ghost use Rattle.sha2.specs.Sha256.{sha256};

use crate::collecting::Logs;
use crate::digests::{DigestBy, Digests};
use crate::digits::write_bytes;
use crate::entries::write_title;
use crate::owners::Owners;
use journal::{Effect, Journal};
use linx_base::{Inc, NoMemory};
use std::alloc::Global;

/// The lines of all logs of a journal, which come with these digests.
pub(crate) fn collect(alloc: Global, journal: &Journal, digests: &Digests) -> Result<Logs, NoMemory>
    requires { Fits digests.now journal.now.log.steps }
    ensures by { IfOk result (λ logs. logs.by ≡ digests.now.by) }
    ensures collects { IfOk result (λ logs.
        Collects journal.now.log.names journal.now.log.steps journal.now.log.steps logs) }
{
    let mut owners = Owners::new(alloc);
    let mut logs = Logs::new(alloc, digests.by);
    let mut next = 0;
    for done in 0..journal.len() {
        let step = journal.step_after(done);
        let owner = owners.endpoint(step.by);
        logs.note(alloc, journal, digests, &mut next, owner, done + 1, step)?;
        owners.note(step)?;
    }
    Ok(logs)
}

/// The logs of a journal that was read of a text: by the first bytes of long data.
pub fn logs_again(alloc: Global, journal: &Journal) -> Result<Logs, NoMemory>
    ensures { IfOk result (AreLogs first_bytes journal.now.log) }
{
    collect(alloc, journal, &Digests::none(alloc, DigestBy::FirstBytes))
}

/// Appends the first line of the log of an incarnation. After a refusal the buffer holds some front
/// of it.
pub fn write_log_title(
    out: &mut Vec<u8>,
    journal: &Journal,
    logs: &Logs,
    inc: Inc,
) -> Result<(), NoMemory>
    requires { Collects journal.now.log.names journal.now.log.steps journal.now.log.steps logs.now }
    ensures { OnOk result (out.new.items ≡ out.old.items
        ++ title_text journal.now.log.names inc (opening_name journal.now.log.steps inc)) }
{
    write_title(out, journal.names(), inc, logs.name(inc))
}

/// The log of an incarnation: its first line, and the lines behind it.
#[tactic(auto, unfolding(crate::specs::Blocks::log_text))]
pub(crate) fn write_block(
    out: &mut Vec<u8>,
    journal: &Journal,
    logs: &Logs,
    inc: Inc,
) -> Result<(), NoMemory>
    requires { Collects journal.now.log.names journal.now.log.steps journal.now.log.steps logs.now }
    ensures { OnOk result (out.new.items ≡ out.old.items ++ log_text (digest_by logs.now.by) journal.now.log inc) }
{
    write_log_title(out, journal, logs, inc)?;
    write_bytes(out, logs.lines(inc))
}

fn write_if_opened(
    out: &mut Vec<u8>,
    journal: &Journal,
    logs: &Logs,
    effect: &Effect,
) -> Result<(), NoMemory>
    requires { Collects journal.now.log.names journal.now.log.steps journal.now.log.steps logs.now }
    ensures { OnOk result (out.new.items ≡ out.old.items ++ opened_log (digest_by logs.now.by) journal.now.log effect.now) }
{
    match effect {
        Effect::Opened(inc) => write_block(out, journal, logs, *inc),
        _ => Ok(()),
    }
}

fn write_opened(
    out: &mut Vec<u8>,
    journal: &Journal,
    logs: &Logs,
    effects: &[Effect],
) -> Result<(), NoMemory>
    requires { Collects journal.now.log.names journal.now.log.steps journal.now.log.steps logs.now }
    ensures { OnOk result (out.new.items ≡ out.old.items
        ++ flat_map (opened_log (digest_by logs.now.by) journal.now.log) effects.now) }
{
    for effect in effects {
        write_if_opened(out, journal, logs, effect)?;
    }
    Ok(())
}

/// The blocks of all opened incarnations, in order of opening.
fn write_blocks(out: &mut Vec<u8>, journal: &Journal, logs: &Logs) -> Result<(), NoMemory>
    requires { Collects journal.now.log.names journal.now.log.steps journal.now.log.steps logs.now }
    ensures { OnOk result (out.new.items ≡ out.old.items
        ++ logs_text (digest_by logs.now.by) journal.now.log) }
{
    for done in 0..journal.len() {
        write_opened(
            out,
            journal,
            logs,
            journal.step_after(done).effects.as_slice(),
        )?;
    }
    Ok(())
}

/// The logs, with these digests at hand. After a refusal the buffer holds some front of them.
pub(crate) fn write_logs_with(
    out: &mut Vec<u8>,
    journal: &Journal,
    digests: &Digests,
) -> Result<(), NoMemory>
    requires { Fits digests.now journal.now.log.steps }
    ensures { OnOk result (out.new.items ≡ out.old.items ++ logs_text (digest_by digests.now.by) journal.now.log) }
{
    let logs = collect(*out.allocator(), journal, digests)?;
    write_blocks(out, journal, &logs)
}

/// Appends the logs of all opened incarnations in order of opening. A refusal leaves the buffer as
/// it was.
pub fn write_logs(out: &mut Vec<u8>, journal: &Journal) -> Result<(), NoMemory>
    ensures ok { OnOk result (out.new.items
        ≡ out.old.items ++ logs_text sha256 journal.now.log) }
    ensures err { OnErr result (out.new.items ≡ out.old.items) }
{
    let alloc = *out.allocator();
    let digests = Digests::of(alloc, journal)?;
    let mut blocks = Vec::new(alloc);
    write_logs_with(&mut blocks, journal, &digests)?;
    out.extend_from_slice(&blocks)?;
    Ok(())
}
