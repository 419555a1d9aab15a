//! What is called at a side of a link that a node may have.
ghost use Rattle.std.specs.Prelude.{◌≡◌, Some, IsOk, OnOk};
ghost use Rattle.linx_base.specs.declared.identity.Side.{Side as AnySide};
ghost use Rattle.trunk.specs.Calls.{HasNumbersFor, MayCall, SaysNothing, makes};
ghost use Rattle.trunk_moves.specs.Trunks.{does};

use linx_base::{NoMemory, Side};
use trunk::{SideCall, Trunk};

/// A side is called, where there is one.
pub(crate) fn call_side_if(
    trunk: &mut Trunk,
    side: Option<Side>,
    call: SideCall<'_>,
) -> Result<(), NoMemory>
    requires may { (at : AnySide) → side ≡ Some at → MayCall call at trunk.old.is }
    requires numbers { (at : AnySide) → side ≡ Some at → HasNumbersFor call at trunk.old.is }
    ensures is { OnOk result (trunk.new.is ≡ does side (makes call.entry) trunk.old.is) }
    ensures was { trunk.new.was ≡ trunk.old.was }
    ensures free { ((at : AnySide) → side ≡ Some at → SaysNothing call.entry at trunk.old.is)
        → IsOk result }
{
    match side {
        Some(side) => trunk.call(side, call),
        None => Ok(()),
    }
}
