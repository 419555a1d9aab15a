//! What follows from the definitions of what a run answers alone. This function does nothing; its
//! contract is the law, which stands on that of orders.

ghost use Rattle.linx_commands.specs.Decided.{JournalsAreDecided};

use orders::order_decides;

/// A script, and the order in which the makers of its run made their steps, decide the journal, and
/// so the text; under `serial` the script alone does, and under `seed` the script and the number. A
/// script and a text decide the journal too. Memory and the streams are left aside.
pub fn journals_are_decided()
    ensures { JournalsAreDecided }
{
    order_decides();
}
