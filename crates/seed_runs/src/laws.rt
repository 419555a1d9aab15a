//! What follows from the definition of a seed's run alone. This function does nothing; its contract
//! is the law, which stands on that of orders.

ghost use Rattle.seed_runs.specs.Laws.{SeedsDecide};

use orders::order_decides;

/// The bytes of a script and a seed decide a run: two whole ones have one journal, and so have two
/// that a full journal stopped; and there is none of each kind.
pub fn seeds_decide()
    ensures { SeedsDecide }
{
    order_decides();
}
