//! A script with its orders.

ghost use Rattle.std.specs.Prelude.{◌≡◌, ◌≤◌, length, IfErr, IfOk, OnOk, Ok};
ghost use Rattle.order_lines.specs.Faults.{IsBadOf};
ghost use Rattle.order_lines.specs.Fronts.{makers_of, ordered_of};
ghost use Rattle.order_lines.specs.Lines.{without_orders};
ghost use Rattle.script_lang.specs.Limits.{script_limit};
ghost use Rattle.script_lang.specs.Reading.{script_of};

use crate::front::front_of;
use crate::lines::without_orders;
use crate::turns::Makers;
use linx_base::NoMemory;
use script_lang::{Script, ScriptError, parse};
use std::alloc::Global;

/// A script, and the makers whose turns come first. The numbers of the links come behind those of
/// the actors.
#[derive(Drop)]
pub struct Ordered {
    pub script: Script,
    pub front: Vec<u32>,
}

/// The makers of a script.
fn makers_of(script: &Script) -> Makers
    ensures { result ≡ makers_of script.now }
{
    Makers {
        actors: script.actors().len() as u32,
        links: script.links().len() as u32,
    }
}

/// The script of a text in which orders are comments.
fn script_in(alloc: Global, bytes: &[u8]) -> Result<Script, ScriptError>
    ensures read { IfOk result (λ script. script_of (without_orders bytes.now) ≡ Ok script) }
    ensures bad { IfErr result (λ e. IsBadOf (script_of (without_orders bytes.now)) e) }
    ensures short { OnOk result (length bytes.now ≤ script_limit) }
{
    match without_orders(alloc, bytes) {
        Ok(plain) => parse(alloc, plain.as_slice()),
        Err(NoMemory) => Err(ScriptError::NoMemory),
    }
}

/// The script that bytes spell, and what their lines `order` list. Where they spell none, `Bad` has
/// the first bad line of the script, from 1, or else the first bad one of the orders.
pub fn read(alloc: Global, bytes: &[u8]) -> Result<Ordered, ScriptError>
    ensures read { IfOk result (λ it. ordered_of bytes.now
        ≡ Ok (record { script = it.script; front = it.front.items })) }
    ensures bad { IfErr result (λ e. IsBadOf (ordered_of bytes.now) e) }
    ensures short { OnOk result (length bytes.now ≤ script_limit) }
{
    let script = script_in(alloc, bytes)?;
    let front = front_of(alloc, makers_of(&script), bytes)?;
    Ok(Ordered { script, front })
}
