//! A client: it finds the server, asks it one question, and waits until it is told of its end.
ghost use Rattle.std.specs.Prelude.{◌≡◌, IfOk};
ghost use Rattle.linx_api.specs.Asked.{IsRunning};

use crate::calls::receive;
use crate::server;
use crate::signals::{DOUBLE, DOUBLED, ENDED, FOUND, signal_with, value_of};
use anyhow::{Context, Result, ensure};
use linx_api::Endpoint;
use linx_base::{Name, Path, Peer};
use node_kernel::StepAnswer;
use std::alloc::Global;
use std::sync::Wait;

/// Finds the server.
fn find<'a, R: Wait>(rt: &R, alloc: Global, end: Endpoint<'a>) -> Result<(Endpoint<'a>, Peer)>
    requires { IsRunning end }
    ensures { IfOk result (λ found. IsRunning found.0) }
{
    // linx_hunt: asks for an endpoint on this node by its name, and hands over the signal that is to
    // come from it. Where no endpoint has the name yet, the hunt waits until one opens.
    let path = Path::Local(Name::of(alloc, server::NAME.as_bytes())?);
    let (end, answer) = end.hunt(rt, path, signal_with(alloc, FOUND, 0)?);
    ensure!(matches!(&answer, Ok(StepAnswer::Hunted(_))));
    // linx_receive: that signal comes from the server, and so tells who it is.
    let (end, found) = receive(rt, alloc, end, FOUND)?;
    Ok((end, found.from))
}

/// What a client does from its first call to its last, and what it has to tell then.
pub fn ask<R: Wait>(
    rt: &R,
    alloc: Global,
    end: Endpoint<'_>,
    name: &str,
    value: u32,
) -> Result<String>
    requires { IsRunning end }
{
    // linx_open: the client gets its signals at this endpoint.
    let (end, answer) = end.open(rt, Name::of(alloc, name.as_bytes())?);
    ensure!(matches!(&answer, Ok(StepAnswer::Opened(_))));
    let (end, server) = find(rt, alloc, end)?;
    // linx_attach: hands over the signal that is to come when the server has ended. The server waits
    // for this client's question, so it hasn't ended yet.
    let (end, answer) = end.attach(rt, server, signal_with(alloc, ENDED, 0)?);
    ensure!(matches!(&answer, Ok(StepAnswer::Attached(_))));
    // linx_send: the question.
    let (end, answer) = end.send(rt, signal_with(alloc, DOUBLE, value)?, server);
    ensure!(matches!(&answer, Ok(StepAnswer::Sent(_))));
    // linx_receive: the answer to it.
    let (end, reply) = receive(rt, alloc, end, DOUBLED)?;
    let doubled = value_of(&reply.signal)?;
    // linx_receive: the signal of the attach. It comes behind all that the server sent.
    let (end, notice) = receive(rt, alloc, end, ENDED)?;
    // Its last byte is the reason: 0 for an endpoint that was closed.
    let reason = notice.signal.bytes().last().context("no reason")?;
    // linx_close: the client is done.
    let (_, answer) = end.close(rt);
    ensure!(matches!(&answer, Ok(StepAnswer::Closed)));
    Ok(format!(in alloc;
        "{name}: the double of {value} is {doubled}; the server ended, for reason {reason}"
    )?)
}
