//! What follows from the definition of a run in an order alone. This function does nothing; its
//! contract is the law.

ghost use Rattle.orders.specs.Laws.{OrderDecides};

/// Two whole runs of one script in one order have one journal; so have two that a full journal
/// stopped, and no order has a run of either kind beside one of the other. Each whole run is also
/// the one in the order that lists the makers of its turns, as its journal tells them; a whole run
/// that no order made, as one by threads, comes again in that order, with the same journal; and a
/// run in rounds is one in the fixed order.
pub fn order_decides()
    ensures { OrderDecides }
{}
