//! What bytes tell: the script of a run, and the journal of its text.
ghost use Rattle.std.specs.Prelude.{◌≡◌, ◌≢◌, Ok, Err, IfErr, IfOk};
ghost use Rattle.text_charts.specs.Told.{read_stop, script_told, steps_told};
ghost use Rattle.text_charts.specs.declared.stop.ChartStop.TheVariants.{NoMemory as OutOfMemory};
ghost use Rattle.text_names.specs.Numbering.{names_in};

use crate::stop::ChartStop;
use journal::Journal;
use journal_read::{Unread, read};
use linx_base::TryCopy;
use order_lines::Ordered;
use script_lang::{Script, ScriptError};
use std::alloc::Global;
use text_alone::read_alone;

/// The script that bytes spell; its lines `order` mean nothing here.
#[tactic(auto, using(crate::proofs::Readings::front_left, crate::proofs::Readings::script_bad))]
pub(crate) fn script_told(alloc: Global, bytes: &[u8]) -> Result<Script, ChartStop>
    ensures spelled { IfOk result (λ script. script_told bytes.now ≡ Ok script) }
    ensures unspelled { IfErr result (λ stop. stop ≢ OutOfMemory
        → script_told bytes.now ≡ Err stop) }
{
    match order_lines::read(alloc, bytes) {
        Ok(ordered) => {
            let Ordered {
                script,
                front: _front,
            } = ordered;
            Ok(script)
        }
        Err(ScriptError::Bad { line, fault }) => Err(ChartStop::Bad { line, fault }),
        Err(ScriptError::NoMemory) => Err(ChartStop::NoMemory),
    }
}

/// Why a text that isn't read has no chart.
fn read_stop(unread: Unread) -> ChartStop
    ensures { result ≡ read_stop unread }
{
    match unread {
        Unread::Bad { line } => ChartStop::Unread { line },
        Unread::Full { line } => ChartStop::Full { line },
        Unread::NoMemory => ChartStop::NoMemory,
    }
}

/// What a text tells by itself.
#[tactic(auto, using(crate::proofs::Readings::steps_within, crate::proofs::Readings::stop_within))]
pub(crate) fn read_by_itself(alloc: Global, text: &[u8]) -> Result<Journal, ChartStop>
    ensures read { IfOk result (λ told. steps_told (names_in text.now) text.now
        ≡ Ok told.log.steps) }
    ensures names { IfOk result (λ told. told.log.names ≡ names_in text.now) }
    ensures unread { IfErr result (λ stop. stop ≢ OutOfMemory
        → steps_told (names_in text.now) text.now ≡ Err stop) }
{
    match read_alone(alloc, text) {
        Ok(told) => Ok(told),
        Err(unread) => Err(read_stop(unread)),
    }
}

/// What a text tells, read with the names of a script.
#[tactic(auto, using(crate::proofs::Readings::steps_within, crate::proofs::Readings::stop_within))]
pub(crate) fn read_behind(alloc: Global, script: &Script, text: &[u8]) -> Result<Journal, ChartStop>
    ensures read { IfOk result (λ told. steps_told script.now.names text.now
        ≡ Ok told.log.steps) }
    ensures unread { IfErr result (λ stop. stop ≢ OutOfMemory
        → steps_told script.now.names text.now ≡ Err stop) }
{
    match read(alloc, script.names().copy()?, text) {
        Ok(told) => Ok(told),
        Err(unread) => Err(read_stop(unread)),
    }
}
