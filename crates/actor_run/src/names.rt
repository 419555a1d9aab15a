//! The names that commands speak of.
ghost use Rattle.std.specs.Prelude.{◌≡◌, ◌<◌, IfSome, IfNone, Some, false, length, slice_get};
ghost use Rattle.std.specs.Option.{option_copied};
ghost use Rattle.script_words.specs.declared.command.Command.TheVariants.{Keep};
ghost use Rattle.actor_run.specs.Asking.{is_keep};
ghost use Rattle.actor_run.specs.Knowing.{target_name, peer_name, reference_name, name_in};

use linx_base::Name;
use script_lang::{ActorScript, Command, Target};

/// What a name of a script stands for.
#[derive(Clone, Copy, Debug, PartialEq, Eq, Hash)]
pub enum NameKind {
    /// A peer that is kept.
    OfPeers,
    /// The reference of an attach.
    OfReferences,
}

fn target_name(to: &Target) -> Option<&Name>
    ensures { option_copied result ≡ target_name to.now }
{
    match to {
        Target::Kept(name) => Some(name),
        _ => None,
    }
}

fn peer_name(command: &Command) -> Option<&Name>
    ensures { option_copied result ≡ peer_name command.now }
{
    match command {
        Command::Send { to, .. } => target_name(to),
        Command::Forward(to) => target_name(to),
        Command::Attach { to, .. } => target_name(to),
        Command::Keep(name) => Some(name),
        _ => None,
    }
}

fn reference_name(command: &Command) -> Option<&Name>
    ensures { option_copied result ≡ reference_name command.now }
{
    match command {
        Command::Attach { r, .. } => Some(r),
        Command::Detach(r) => Some(r),
        _ => None,
    }
}

/// The name of this kind that a command speaks of.
pub(crate) fn name_in(kind: NameKind, command: &Command) -> Option<&Name>
    ensures { option_copied result ≡ name_in kind command.now }
{
    match kind {
        NameKind::OfPeers => peer_name(command),
        NameKind::OfReferences => reference_name(command),
    }
}

/// The name of the keep at a place, if one stands there.
pub(crate) fn keep_at(script: &ActorScript, place: usize) -> Option<&Name>
    ensures keep { IfSome result (λ name.
        slice_get script.now.commands place ≡ Some (Keep name.now)) }
    ensures within { IfSome result (λ _. place < length script.now.commands) }
    ensures none { IfNone result (is_keep (slice_get script.now.commands place) ≡ false) }
{
    if place >= script.commands.len() {
        return None;
    }
    match &script.commands.as_slice()[place] {
        Command::Keep(name) => Some(name),
        _ => None,
    }
}
