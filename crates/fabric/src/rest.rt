//! Whether an actor waits in vain, by its standing and its node's kernel.
ghost use Rattle.std.specs.Prelude.{◌≡◌, IfSome, IsTrue};
ghost use Rattle.node_kernel.specs.Nodes.{is_open};
ghost use Rattle.fabric.specs.Standings.{vain_with};

use crate::standing::Standing;
use node_kernel::Kernel;

/// Whether an actor that stands so waits in vain: nothing that it waits for is in its queue.
pub(crate) fn is_vain(standing: &Standing, kernel: &Kernel) -> bool
    requires { IfSome standing.now.endpoint (λ at. IsTrue (is_open kernel.now.endpoints at)) }
    ensures { result ≡ vain_with kernel.now standing.now.waits standing.now.endpoint }
{
    let Some(filter) = &standing.waits else {
        return false;
    };
    match standing.endpoint {
        Some(at) => !kernel.holds(at, filter),
        None => false,
    }
}
