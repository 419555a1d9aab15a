//! The run of a text, and whether it is the text's.

ghost use Rattle.std.specs.Prelude.{◌≡◌, IfErr, IfOk, Ok};
ghost use Rattle.journal_read.specs.Reading.{read_in};
ghost use Rattle.text_replay.specs.Replays.{IsReplayed, IsStopIn, IsStopOf, IsTextOfRun, IsToldRun};
ghost use Rattle.text_replay.specs.Replays.{SpellsScript};
ghost use Rattle.text_replay.specs.Stops.{IsPlayStop, IsScriptStop, IsTextStop, IsTextWith};

use crate::front::told_front;
use crate::laws::{filled_are_none, others_are_none};
use crate::lines::other_line;
use crate::stop::ReplayStop;
use fabric::StopCause;
use journal::Journal;
use journal_read::{Unread, read};
use linx_base::TryCopy;
use order_lines::Ordered;
use order_rules::Rule;
use orders::play_in_order;
use script_lang::{Script, ScriptError};
use stage::Stage;
use std::alloc::Global;

/// The script that bytes spell; its own lines `order` mean nothing here.
fn script_of(alloc: Global, bytes: &[u8]) -> Result<Script, ReplayStop>
    ensures spelled { IfOk result (λ script. SpellsScript bytes.now script) }
    ensures unspelled { IfErr result (λ stop. IsScriptStop bytes.now stop) }
{
    match order_lines::read(alloc, bytes) {
        Ok(ordered) => {
            let Ordered {
                script,
                front: _front,
            } = ordered;
            Ok(script)
        }
        Err(ScriptError::Bad { line, fault }) => Err(ReplayStop::Bad { line, fault }),
        Err(ScriptError::NoMemory) => Err(ReplayStop::NoMemory),
    }
}

/// What a text tells, read with the names of a script.
fn read_told(alloc: Global, script: &Script, text: &[u8]) -> Result<Journal, ReplayStop>
    ensures read { IfOk result (λ told. read_in script.now.names text.now ≡ Ok told.log.steps) }
    ensures unread { IfErr result (λ stop. IsStopIn script.now text.now stop) }
{
    match read(alloc, script.names().copy()?, text) {
        Ok(told) => Ok(told),
        Err(Unread::Bad { line }) => Err(ReplayStop::Unread { line }),
        Err(Unread::Full { line }) => Err(ReplayStop::Full { line }),
        Err(Unread::NoMemory) => Err(ReplayStop::NoMemory),
    }
}

/// The journal of a script's run in the order that a journal tells, which isn't needed behind that.
fn play(alloc: Global, script: Script, told: Journal) -> Result<Journal, ReplayStop>
    ensures whole { IfOk result (λ journal. IsToldRun script told.log.steps journal.log) }
    ensures stopped { IfErr result (λ stop. IsPlayStop script told.log.steps stop) }
{
    let front = told_front(alloc, &script, &told)?;
    drop(told);
    let mut rule = Rule::Rounds(0);
    let mut stage = Stage::new(alloc, script)?;
    let played = play_in_order(alloc, &mut stage, front.as_slice(), &mut rule);
    let journal = stage.into_journal();
    match played {
        Ok(()) => Ok(journal),
        Err(StopCause::JournalFull) => Err(ReplayStop::JournalFull),
        Err(StopCause::NoMemory) => Err(ReplayStop::NoMemory),
    }
}

/// How many steps a journal has whose text this is.
fn compare(alloc: Global, text: &[u8], journal: &Journal) -> Result<u64, ReplayStop>
    ensures same { IfOk result (λ steps. IsTextWith journal.now.log text.now steps) }
    ensures other { IfErr result (λ stop. IsTextStop journal.now.log text.now stop) }
{
    let run = journal_text::text(alloc, journal)?;
    match other_line(text, &run) {
        None => Ok(journal.len()),
        Some(line) => Err(ReplayStop::Other { line }),
    }
}

/// How many steps a run of a script has whose text this is.
fn replay_of(alloc: Global, script: Script, text: &[u8]) -> Result<u64, ReplayStop>
    ensures same { IfOk result (λ steps. IsTextOfRun script text.now steps) }
    ensures stopped { IfErr result (λ stop. IsStopIn script text.now stop) }
{
    others_are_none();
    filled_are_none();
    let told = read_told(alloc, &script, text)?;
    let journal = play(alloc, script, told)?;
    compare(alloc, text, &journal)
}

/// HOW MANY STEPS THE RUN HAS, of the script that these bytes spell, whose text this is; or why there
/// is no such run.
pub fn replay(alloc: Global, bytes: &[u8], text: &[u8]) -> Result<u64, ReplayStop>
    ensures same { IfOk result (λ steps. IsReplayed bytes.now text.now steps) }
    ensures stopped { IfErr result (λ stop. IsStopOf bytes.now text.now stop) }
{
    let script = script_of(alloc, bytes)?;
    match replay_of(alloc, script, text) {
        Ok(steps) => Ok(steps),
        Err(stop) => Err(stop),
    }
}
