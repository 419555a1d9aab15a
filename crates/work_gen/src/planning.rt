//! The verdicts that a link's plans have.

ghost use Rattle.std.specs.Prelude.{◌≡◌, OnOk};
ghost use Rattle.script_lang.specs.Parts.{with_verdicts};
ghost use Rattle.work_gen.specs.Generated.{plan_of, nth_verdict};
ghost use Rattle.work_gen.specs.Building.{IsUnplanned};

use linx_base::{LinkNo, NoMemory, Side, Verdict};
use script_lang::Script;

/// The verdicts of a direction.
const VERDICTS: u32 = 200;

/// The j-th verdict of a direction of link k.
fn nth_verdict(n: u32, k: u32, from: Side, j: u32) -> Verdict
    ensures { result ≡ nth_verdict n k from j }
{
    let shift = match from {
        Side::First => 0,
        Side::Second => 1,
    };
    match (u64::from(n) + 3 * u64::from(j) + u64::from(k) + shift) % 10 {
        0 => Verdict::Lose,
        3 => Verdict::Repeat,
        6 => Verdict::Swap(2),
        _ => Verdict::Deliver,
    }
}

/// Adds the verdicts of a direction of link k, which has no plan as yet.
pub(crate) fn add_plan(script: &mut Script, n: u32, k: u32, from: Side) -> Result<(), NoMemory>
    requires { IsUnplanned script.old k from }
    ensures { OnOk result
        (script.new ≡ with_verdicts script.old (record { 0 = k }) from (plan_of n k from)) }
{
    for done in 0..VERDICTS {
        script.add_verdict(LinkNo(k), from, nth_verdict(n, k, from, done + 1))?;
    }
    Ok(())
}
