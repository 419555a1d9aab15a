//! What the trunks are told of an actor's call at its open endpoint, before it is made, and that
//! this stays.

ghost use Rattle.std.specs.Prelude.{◌≡◌, IsTrue, IfOk, OnErr, OnOk};
ghost use Rattle.node_kernel.specs.Nodes.{find_at, is_living, is_open};
ghost use Rattle.run_trunks.specs.States.{kept, undone};
ghost use Rattle.fabric.specs.Calls.{IsKnown};
ghost use Rattle.fabric.specs.Tellings.{IsHeardBy, MayTell, MayTellHunt, MayTellSend};
ghost use Rattle.fabric.specs.Tellings.{asked_over, sent_over, told_of_call};

use crate::call::Call;
use linx_base::{Inc, LinkNo, NoMemory, NodeNo, Path, Peer, Signal};
use node_kernel::Kernel;
use run_trunks::RunTrunks;

/// Which trunks hear of a call.
#[derive(Clone, Copy)]
pub(crate) enum Hearing {
    Nobody,
    /// That of one link.
    One(LinkNo),
    /// Those of the links of a node.
    Several,
}

/// The trunks hear of a call at an open endpoint of a node: each side of the node of a close, and
/// one of a signal over its link to a peer that is known to be alive, or of a hunt. A refusal undoes
/// the event.
pub(crate) fn tell_call(
    trunks: &mut RunTrunks,
    kernel: &Kernel,
    node: NodeNo,
    at: Inc,
    call: &Call,
    living: bool,
) -> Result<Hearing, NoMemory>
    requires is_open { IsTrue (is_open kernel.now.endpoints at) }
    requires known { IsKnown kernel.now call.now living }
    requires node { node ≡ kernel.now.node }
    requires rests { trunks.old.was ≡ trunks.old.is }
    requires may { MayTell trunks.old kernel.now at call.now }
    ensures is { OnOk result
        (trunks.new.is ≡ told_of_call trunks.old.links kernel.now at call.now trunks.old.is) }
    ensures heard { IfOk result (IsHeardBy trunks.new) }
    ensures was { trunks.new.was ≡ trunks.old.was }
    ensures links { trunks.new.links ≡ trunks.old.links }
    ensures err { OnErr result (trunks.new ≡ undone trunks.old) }
{
    match call {
        Call::Close | Call::End => {
            trunks.closed(node, at)?;
            Ok(Hearing::Several)
        }
        Call::Send(to, signal) => tell_send(trunks, kernel, node, at, *to, signal, living),
        Call::Hunt(path, _) => tell_hunt(trunks, kernel, node, path),
        Call::Attach(..) | Call::Detach(_) => Ok(Hearing::Nobody),
    }
}

/// They hear of a signal to a living peer over a link.
fn tell_send(
    trunks: &mut RunTrunks,
    kernel: &Kernel,
    node: NodeNo,
    from: Inc,
    to: Peer,
    signal: &Signal,
    living: bool,
) -> Result<Hearing, NoMemory>
    requires is_open { IsTrue (is_open kernel.now.endpoints from) }
    requires known { living ≡ is_living kernel.now to }
    requires node { node ≡ kernel.now.node }
    requires rests { trunks.old.was ≡ trunks.old.is }
    requires may { MayTellSend trunks.old kernel.now from (is_living kernel.now to) to }
    ensures is { OnOk result (trunks.new.is ≡ sent_over trunks.old.links kernel.now from
        (is_living kernel.now to) to signal.now trunks.old.is) }
    ensures heard { IfOk result (IsHeardBy trunks.new) }
    ensures was { trunks.new.was ≡ trunks.old.was }
    ensures links { trunks.new.links ≡ trunks.old.links }
    ensures err { OnErr result (trunks.new ≡ undone trunks.old) }
{
    let _number = signal.number();
    let _bytes = signal.bytes();
    if !living {
        return Ok(Hearing::Nobody);
    }
    match to {
        Peer::Here(_) => Ok(Hearing::Nobody),
        Peer::There { link, inc, .. } => {
            let Some(name) = kernel.name_of(from) else {
                unreachable!()
            };
            let Some(side) = trunks.side_on(link, node) else {
                unreachable!()
            };
            trunks.sent(link, side, from, name, inc, signal)?;
            Ok(Hearing::One(link))
        }
    }
}

/// They hear of a hunt over a link that finds nothing.
fn tell_hunt(
    trunks: &mut RunTrunks,
    kernel: &Kernel,
    node: NodeNo,
    path: &Path,
) -> Result<Hearing, NoMemory>
    requires node { node ≡ kernel.now.node }
    requires rests { trunks.old.was ≡ trunks.old.is }
    requires may { MayTellHunt trunks.old kernel.now path.now }
    ensures is { OnOk result (trunks.new.is ≡ asked_over trunks.old.links kernel.now
        (find_at kernel.now path.now) path.now trunks.old.is) }
    ensures heard { IfOk result (IsHeardBy trunks.new) }
    ensures was { trunks.new.was ≡ trunks.old.was }
    ensures links { trunks.new.links ≡ trunks.old.links }
    ensures err { OnErr result (trunks.new ≡ undone trunks.old) }
{
    if kernel.find(path).is_some() {
        return Ok(Hearing::Nobody);
    }
    match path {
        Path::Local(_) => Ok(Hearing::Nobody),
        Path::Over { link, name } => {
            let Some(side) = trunks.side_on(*link, node) else {
                unreachable!()
            };
            trunks.asked(*link, side, name)?;
            Ok(Hearing::One(*link))
        }
    }
}

/// What they are now stays, where those alone have changed that heard of a call.
pub(crate) fn keep_told(trunks: &mut RunTrunks, hearing: Hearing)
    requires { IsHeardBy trunks.old hearing }
    ensures { trunks.new ≡ kept trunks.old }
{
    match hearing {
        Hearing::Nobody => (),
        Hearing::One(link) => trunks.keep(link),
        Hearing::Several => trunks.keep_all(),
    }
}
