//! The server: it doubles the numbers of two questions, and closes.
ghost use Rattle.std.specs.Prelude.{◌≡◌, IfOk};
ghost use Rattle.linx_api.specs.Asked.{IsRunning};

use crate::calls::receive;
use crate::signals::{DOUBLE, DOUBLED, signal_with, value_of};
use anyhow::{Result, ensure};
use linx_api::Endpoint;
use linx_base::Name;
use node_kernel::StepAnswer;
use std::alloc::Global;
use std::sync::Wait;

/// The name by which clients find it.
pub const NAME: &str = "doubler";

/// Answers one question, whoever asks it.
fn answer_one<'a, R: Wait>(rt: &R, alloc: Global, end: Endpoint<'a>) -> Result<Endpoint<'a>>
    requires { IsRunning end }
    ensures { IfOk result (λ end. IsRunning end) }
{
    // linx_receive: the next question, and beside it who sent it, as linx_sender would tell.
    let (end, question) = receive(rt, alloc, end, DOUBLE)?;
    // A new signal with the doubled number.
    let doubled = value_of(&question.signal)?.wrapping_mul(2);
    let reply = signal_with(alloc, DOUBLED, doubled)?;
    // linx_send: to who asked. The signal moves away, and can't be touched any more.
    let (end, answer) = end.send(rt, reply, question.from);
    ensure!(matches!(&answer, Ok(StepAnswer::Sent(_))));
    Ok(end)
}

/// What the server does from its first call to its last, and what it has to tell then.
pub fn serve<R: Wait>(rt: &R, alloc: Global, end: Endpoint<'_>) -> Result<String>
    requires { IsRunning end }
{
    // linx_open: from here on a hunt for this name finds the endpoint.
    let (end, answer) = end.open(rt, Name::of(alloc, NAME.as_bytes())?);
    ensure!(matches!(&answer, Ok(StepAnswer::Opened(_))));
    // A question of each client, in whichever order they come.
    let end = answer_one(rt, alloc, end)?;
    let end = answer_one(rt, alloc, end)?;
    // linx_close: whoever attached to the endpoint is told of its end.
    let (_, answer) = end.close(rt);
    ensure!(matches!(&answer, Ok(StepAnswer::Closed)));
    Ok(format!(in alloc; "{NAME}: answered two questions")?)
}
