//! What a packet or a tick brought, run again at the kernel of its node.
ghost use Rattle.std.specs.Prelude.{◌≡◌, ◌∷◌, ◌<◌, ◌≤◌, [], length, IfOk, OnOk};
ghost use Rattle.journal.specs.declared.effect.Effect.TheVariants.{Arrived};
ghost use Rattle.node_kernel.specs.Calls.{after_arrival};
ghost use Rattle.fabric.specs.Brings.{after_brought};
ghost use Rattle.link_check.specs.Told.{kernel_in};
ghost use Rattle.journal_check.specs.Brought.{effects_brought, side_reached, told_by};
ghost use Rattle.journal_check.specs.Brought.{told_by_first};
ghost use Rattle.journal_check.specs.Tables.{kernels_with};

use journal::{Effect, Effects, Head};
use linx_base::{Inc, LinkNo, NoMemory, NodeNo, Peer, Side, SigNote, TryCopy};
use node_kernel::Kernel;
use std::alloc::Global;

/// The link of a packet or a tick, with the side where the packet arrives or that ticks.
pub(crate) fn side_reached(head: &Head) -> Option<(LinkNo, Side)>
    ensures { result ≡ side_reached head.now }
{
    match head {
        Head::Wire(link, from, _) => Some((*link, from.other())),
        Head::Tick(link, side) => Some((*link, *side)),
        _ => None,
    }
}

/// A signal arrives over a link.
fn arrive(
    kernel: &mut Kernel,
    at: Inc,
    from: Peer,
    note: &SigNote,
    step: u64,
) -> Result<Effects, NoMemory>
    ensures effects { IfOk result (λ effects. effects ≡ Arrived at from note.now ∷ []) }
    ensures after { OnOk result (kernel.new ≡ after_arrival kernel.old at from note.now step) }
{
    let signal = note.signal()?;
    match kernel.arrived(at, from, signal, step) {
        Ok(effects) => Ok(effects),
        Err(_) => Err(NoMemory),
    }
}

/// What begins with an effect is brought to a node of this number over a link.
fn bring_first(
    alloc: Global,
    kernel: &mut Kernel,
    at: NodeNo,
    link: LinkNo,
    first: &Effect,
    step: u64,
) -> Result<Effects, NoMemory>
    ensures effects { IfOk result (λ effects. effects
        ≡ effects_brought at kernel.old link (told_by_first first.now)) }
    ensures after { OnOk result (kernel.new
        ≡ after_brought kernel.old link (told_by_first first.now) step) }
{
    match first {
        Effect::Up(_, _, own, other) => { Effects::one(alloc, Effect::Up(at, link, *own, *other)) }
        Effect::Down(_, _, session) => kernel.down(link, *session, step),
        Effect::Arrived(to, peer, note) => match peer {
            Peer::There { session, inc, .. } => {
                let from = Peer::There {
                    link,
                    session: *session,
                    inc: *inc,
                };
                arrive(kernel, *to, from, note, step)
            }
            Peer::Here(_) => Ok(Effects::new(alloc)),
        },
        Effect::Met(_, peer, name) => match peer {
            Peer::There { session, inc, .. } => {
                kernel.met(link, *session, *inc, name.copy()?, step)
            }
            Peer::Here(_) => Ok(Effects::new(alloc)),
        },
        Effect::Gone(_, peer) => match peer {
            Peer::There { session, inc, .. } => {
                let gone = Peer::There {
                    link,
                    session: *session,
                    inc: *inc,
                };
                kernel.gone(gone, step)
            }
            Peer::Here(_) => Ok(Effects::new(alloc)),
        },
        _ => Ok(Effects::new(alloc)),
    }
}

/// What effects tell is brought to a node of this number over a link. The effects that its kernel
/// has of it.
fn bring(
    alloc: Global,
    kernel: &mut Kernel,
    at: NodeNo,
    link: LinkNo,
    noted: &[Effect],
    step: u64,
) -> Result<Effects, NoMemory>
    ensures effects { IfOk result (λ effects. effects
        ≡ effects_brought at kernel.old link (told_by noted.now)) }
    ensures after { OnOk result (kernel.new
        ≡ after_brought kernel.old link (told_by noted.now) step) }
{
    match noted.first() {
        Some(first) => bring_first(alloc, kernel, at, link, first, step),
        None => Ok(Effects::new(alloc)),
    }
}

/// The same, at the node of this number, of all of these.
pub(crate) fn bring_to(
    alloc: Global,
    kernels: &mut [Kernel],
    at: NodeNo,
    link: LinkNo,
    noted: &[Effect],
    step: u64,
) -> Result<Effects, NoMemory>
    requires above { 0 < at.0 }
    requires within { at.0 ≤ length kernels.old }
    ensures effects { IfOk result (λ effects. effects
        ≡ effects_brought at (kernel_in kernels.old at) link (told_by noted.now)) }
    ensures after { OnOk result (kernels.new
        ≡ kernels_with kernels.old step at link (told_by noted.now)) }
{
    let home = (at.0 - 1) as usize;
    bring(alloc, &mut kernels[home], at, link, noted, step)
}
