//! From bytes to a script.

ghost use Rattle.std.specs.Prelude.{◌≡◌, ◌≤◌, length, IfOk, IfErr, OnOk};
ghost use Rattle.script_lang.specs.Limits.{script_limit};
ghost use Rattle.script_lang.specs.Reading.{script_of, IsBadOf};

use crate::reading::Reading;
use crate::script::Script;
use crate::script_error::ScriptError;
use script_words::first_line;
use std::alloc::Global;

/// The script that the bytes spell, at most 1,048,576. Where they spell none, `Bad` has the first
/// bad line, from 1, with the first kind that holds for it and the word that it is about.
#[tactic(auto, unfolding(crate::specs::Reading::script_of))]
pub fn parse(alloc: Global, bytes: &[u8]) -> Result<Script, ScriptError>
    ensures read { IfOk result (λ script. script_of bytes.now ≡ Ok script) }
    ensures bad { IfErr result (λ e. IsBadOf (script_of bytes.now) e) }
    ensures short { OnOk result (length bytes.now ≤ script_limit) }
{
    let mut reading = Reading::new(alloc);
    let mut rest = bytes;
    let mut line = 0;
    while !rest.is_empty() {
        let (next, behind) = first_line(rest);
        line += 1;
        reading = match reading.take_line(alloc, bytes.len() - rest.len(), next) {
            Ok(reading) => reading,
            Err(error) => return Err(ScriptError::at(line, error)),
        };
        rest = behind;
    }
    reading.finish(line)
}
