//! What happens at a trunk: one function an event. After a refusal the event is to be undone.
ghost use Rattle.std.specs.Prelude.{◌≡◌, ◌<◌, length, IfOk, IsOk, OnOk};
ghost use Rattle.linx_base.specs.Sides.{other_of};
ghost use Rattle.carrier.specs.Events.{HasNextAt, flight_from, handed_by, link_told_by};
ghost use Rattle.rlnh_end.specs.declared.heard.Heard.{Heard as AnyHeard};
ghost use Rattle.trunk.specs.Calls.{HasNumbersFor, IsNamed, MayCall, SaysNothing, makes};
ghost use Rattle.trunk.specs.Events.{IsReading, delivered, ticked_at, told_by, HasNumbersLeft};
ghost use Rattle.trunk.specs.Keeping.{KeepsTrunk};
ghost use Rattle.trunk.specs.Parts.{HasOnlyGrownAt};

use crate::call::SideCall;
use crate::parts::Parts;
use crate::up::TrunkUp;
use carrier::{Handed, TickedSide};
use linx_base::{NoMemory, Session, Side};

/// The packet at place k from a side comes to the other one.
pub(crate) fn deliver(
    parts: &mut Parts,
    from: Side,
    k: usize,
    keep: bool,
) -> Result<TrunkUp, NoMemory>
    requires within { k < length (flight_from from parts.old.is.link) }
    requires grown { HasOnlyGrownAt from parts.old }
    requires counted { HasNextAt (other_of from) parts.old.is.link }
    requires left { HasNumbersLeft (other_of from) parts.old.is }
    requires keeps { KeepsTrunk parts.old.is }
    ensures is_read { OnOk result
        ((heard : AnyHeard) × IsReading (handed_by from k parts.old.is.link) heard) }
    ensures is { OnOk result ((heard : AnyHeard)
        → IsReading (handed_by from k parts.old.is.link) heard
        → parts.new.is ≡ delivered from k keep heard parts.old.is) }
    ensures up { IfOk result (λ up. (heard : AnyHeard)
        → IsReading (handed_by from k parts.old.is.link) heard
        → up ≡ told_by from k heard parts.old.is) }
    ensures was { parts.new.was ≡ parts.old.was }
{
    let side = from.other();
    match parts.bring(from, k, keep)? {
        Handed::Nothing => Ok(TrunkUp::Nothing),
        Handed::WentUp { session, peer } => {
            parts.begin(side, peer)?;
            parts.send_out(side)?;
            Ok(TrunkUp::WentUp { session, peer })
        }
        Handed::WentDown { session } => {
            let next = parts.mine(side);
            parts.begin_session(side, next)?;
            Ok(TrunkUp::WentDown { session })
        }
        Handed::Got(message) => {
            let up = parts.hear(side, &message)?;
            parts.send_out(side)?;
            Ok(up)
        }
    }
}

/// A side is ticked.
pub(crate) fn tick(parts: &mut Parts, side: Side) -> Result<TickedSide, NoMemory>
    requires counted { HasNextAt side parts.old.is.link }
    requires keeps { KeepsTrunk parts.old.is }
    ensures is { OnOk result (parts.new.is ≡ ticked_at side parts.old.is) }
    ensures ticked { IfOk result (λ ticked. ticked ≡ link_told_by side parts.old.is.link) }
    ensures was { parts.new.was ≡ parts.old.was }
{
    match parts.beat(side)? {
        TickedSide::Stays => Ok(TickedSide::Stays),
        TickedSide::WentDown { session } => {
            let next = parts.mine(side);
            parts.begin_session(side, next)?;
            Ok(TickedSide::WentDown { session })
        }
    }
}

/// A side is called: it boots again, or says what the call asks for, where it is up.
pub(crate) fn call(parts: &mut Parts, side: Side, call: SideCall<'_>) -> Result<(), NoMemory>
    requires may { MayCall call side parts.old.is }
    requires numbers { HasNumbersFor call side parts.old.is }
    requires keeps { KeepsTrunk parts.old.is }
    ensures is { OnOk result (parts.new.is ≡ makes call.entry side parts.old.is) }
    ensures was { parts.new.was ≡ parts.old.was }
    ensures free { SaysNothing call.entry side parts.old.is → IsOk result }
    ensures named { IsNamed call.entry }
{
    call.bytes_of_name();
    match call {
        SideCall::Restarted(boot) => {
            parts.boot_again(side, boot)?;
            parts.begin_session(side, Session::of(boot, 1))?;
            Ok(())
        }
        _ => {
            if !parts.is_up(side) {
                return Ok(());
            }
            parts.say(side, call)?;
            parts.send_out(side)?;
            Ok(())
        }
    }
}
