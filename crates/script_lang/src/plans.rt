ghost use Rattle.std.specs.Prelude.{◌≡◌, ◌<◌, [], ◌∷◌, length, OnOk, OnErr, slice_get};
ghost use Rattle.script_lang.specs.Parts.{planned_at, plan_in};

use linx_base::{NoMemory, Side, Verdict};
use script_words::Verdicts;

/// The plans of a link, one for each direction, named by the side that sends.
#[derive(Drop)]
pub struct Plans {
    pub from_first: Verdicts,
    pub from_second: Verdicts,
}

/// The verdicts of one direction, of the link in this place.
pub(crate) fn plan_at(plans: &[Plans], place: usize, from: Side) -> &[Verdict]
    requires { place < length plans.now }
    ensures { result.now ≡ plan_in (slice_get plans.now place) from }
{
    let plans = &plans[place];
    match from {
        Side::First => plans.from_first.as_slice(),
        Side::Second => plans.from_second.as_slice(),
    }
}

/// Adds a verdict to the plan of one direction, of the link in this place.
pub(crate) fn plan_more(
    plans: &mut Vec<Plans>,
    place: usize,
    from: Side,
    verdict: Verdict,
) -> Result<(), NoMemory>
    requires { place < length plans.old.items }
    ensures ok { OnOk result
        (plans.new.items ≡ planned_at plans.old.items place from (verdict ∷ [])) }
    ensures err { OnErr result (plans.new.items ≡ plans.old.items) }
{
    let plans = &mut plans[place];
    match from {
        Side::First => plans.from_first.push(verdict)?,
        Side::Second => plans.from_second.push(verdict)?,
    }
    Ok(())
}
