//! A call that waits. Each call of an [`Endpoint`] makes one step, and gives the endpoint back.
ghost use Rattle.std.specs.Prelude.{◌≡◌, IfOk};
ghost use Rattle.linx_api.specs.Asked.{IsRunning};

use anyhow::{Result, bail};
use linx_api::Endpoint;
use linx_base::Item;
use node_kernel::StepAnswer;
use sigsel::Sigsel;
use std::alloc::Global;
use std::sync::Wait;
use std::thread;

/// Waits for the first signal of this number: linx_receive. Signals of other numbers stay in the
/// queue.
pub fn receive<'a, R: Wait>(
    rt: &R,
    alloc: Global,
    end: Endpoint<'a>,
    signal_number: u32,
) -> Result<(Endpoint<'a>, Item)>
    requires { IsRunning end }
    ensures { IfOk result (λ received. IsRunning received.0) }
{
    let mut end = end;
    for _ in rt.forever() {
        // A filter that selects one number, spelled as LINX spells it: the count, and the numbers.
        let filter = Sigsel::of_list(alloc, &[1, i64::from(signal_number)])?;
        // One look into the queue.
        let (back, answer) = end.receive(rt, filter);
        end = back;
        match answer {
            // It was there, and is the caller's now.
            Ok(StepAnswer::Took(item)) => return Ok((end, item)),
            // It isn't there yet. The others may take their turns.
            Ok(StepAnswer::NotYet) => thread::yield_now(),
            // The endpoint isn't open, or nobody is left who could send, or there is no memory.
            _ => bail!("no signal {signal_number} will come"),
        }
    }
    unreachable!()
}
