//! The check of a text, behind whose script it stands.

ghost use Rattle.std.specs.Prelude.{◌≡◌, ◌≤◌, ◌<◌, IfErr, IfOk, OnOk, Ok, None, length};
ghost use Rattle.journal_read.specs.Reading.{read_in};
ghost use Rattle.script_lang.specs.Fits.{IsScript};
ghost use Rattle.text_check.specs.Checks.{IsChecked, IsLegalText, IsStopIn, IsStopOf, SpellsScript};
ghost use Rattle.text_check.specs.Parts.{HasLogs, IsJudged, IsJudgeStop, IsLogStop, IsReadStop};
ghost use Rattle.text_check.specs.Parts.{IsScriptStop};

use crate::stop::CheckStop;
use journal::Journal;
use journal_check::first_illegal;
use journal_read::{Unread, read};
use journal_told::with_told;
use linx_base::TryCopy;
use order_lines::Ordered;
use script_lang::{Script, ScriptError};
use stage::nodes_of;
use std::alloc::Global;
use text_logs::first_other;

/// The script that bytes spell; its lines `order` mean nothing here.
fn script_of(alloc: Global, bytes: &[u8]) -> Result<Script, CheckStop>
    ensures spelled { IfOk result (λ script. SpellsScript bytes.now script) }
    ensures unspelled { IfErr result (λ stop. IsScriptStop bytes.now stop) }
{
    match order_lines::read(alloc, bytes) {
        Ok(ordered) => {
            let Ordered {
                script,
                front: _front,
            } = ordered;
            Ok(script)
        }
        Err(ScriptError::Bad { line, fault }) => Err(CheckStop::Bad { line, fault }),
        Err(ScriptError::NoMemory) => Err(CheckStop::NoMemory),
    }
}

/// What a text tells, read with the names of a script.
fn read_told(alloc: Global, script: &Script, text: &[u8]) -> Result<Journal, CheckStop>
    ensures read { IfOk result (λ told. read_in script.now.names text.now ≡ Ok told.log.steps) }
    ensures names { IfOk result (λ told. told.log.names ≡ script.now.names) }
    ensures unread { IfErr result (λ stop. IsReadStop script.now.names text.now stop) }
{
    match read(alloc, script.names().copy()?, text) {
        Ok(told) => Ok(told),
        Err(Unread::Bad { line }) => Err(CheckStop::Unread { line }),
        Err(Unread::Full { line }) => Err(CheckStop::Full { line }),
        Err(Unread::NoMemory) => Err(CheckStop::NoMemory),
    }
}

/// Whether the steps that were read are legal, with what their attaches tell.
fn judge(alloc: Global, script: &Script, told: &Journal) -> Result<(), CheckStop>
    requires few { length told.now.log.steps < 4294967295 }
    ensures legal { OnOk result (IsJudged script.now told.now.log.steps) }
    ensures illegal { IfErr result (λ stop. IsJudgeStop script.now told.now.log.steps stop) }
{
    let whole = with_told(alloc, told)?;
    let actors = nodes_of(alloc, script.actors())?;
    let nodes = script.names().nodes.len() as u32;
    match first_illegal(alloc, &whole, nodes, script.links(), actors.as_slice())? {
        None => Ok(()),
        Some(fault) => Err(CheckStop::Illegal(fault)),
    }
}

/// Whether a text has the logs of what was read of it.
fn compare(alloc: Global, text: &[u8], told: &Journal) -> Result<(), CheckStop>
    ensures same { OnOk result (HasLogs text.now told.now.log) }
    ensures other { IfErr result (λ stop. IsLogStop text.now told.now.log stop) }
{
    match first_other(alloc, text, told)? {
        None => Ok(()),
        Some(line) => Err(CheckStop::Log { line }),
    }
}

/// How many steps a text has that is that of a legal run of a script.
fn check_of(alloc: Global, script: &Script, text: &[u8]) -> Result<u64, CheckStop>
    requires short { length text.now < 4294967295 }
    ensures legal { IfOk result (λ steps. IsLegalText script.now text.now steps) }
    ensures stopped { IfErr result (λ stop. IsStopIn script.now text.now stop) }
{
    let told = read_told(alloc, script, text)?;
    judge(alloc, script, &told)?;
    compare(alloc, text, &told)?;
    Ok(told.len())
}

/// HOW MANY STEPS THE TEXT HAS, that is that of a legal run of the script which these bytes spell; or
/// why it is that of none. It takes the memory of two such journals and of the logs.
pub fn check(alloc: Global, bytes: &[u8], text: &[u8]) -> Result<u64, CheckStop>
    requires short { length text.now < 4294967295 }
    ensures legal { IfOk result (λ steps. IsChecked bytes.now text.now steps) }
    ensures stopped { IfErr result (λ stop. IsStopOf bytes.now text.now stop) }
{
    let script = script_of(alloc, bytes)?;
    match check_of(alloc, &script, text) {
        Ok(steps) => Ok(steps),
        Err(stop) => Err(stop),
    }
}
