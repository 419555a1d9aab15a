//! Commands again and again.

ghost use Rattle.std.specs.Prelude.{◌≡◌, ◌++◌, OnOk};
ghost use Rattle.script_lang.specs.Copies.{copies};

use crate::actor_script::Commands;
use linx_base::{NoMemory, TryCopy};
use script_words::Command;

/// Adds one copy of a block of commands.
fn add_block(commands: &mut Commands, block: &[Command]) -> Result<(), NoMemory>
    ensures { OnOk result (commands.new ≡ commands.old ++ block.now) }
{
    for command in block {
        commands.push(command.copy()?)?;
    }
    Ok(())
}

/// Adds so many copies of a block of commands. After a refusal some of them are there.
pub fn add_copies(commands: &mut Commands, times: u32, block: &[Command]) -> Result<(), NoMemory>
    ensures { OnOk result (commands.new ≡ commands.old ++ copies times block.now) }
{
    for _ in 0..times {
        add_block(commands, block)?;
    }
    Ok(())
}
