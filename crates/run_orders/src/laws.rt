//! What follows from the definitions of a run of a script alone. This function does nothing; its
//! contract is the law.

ghost use Rattle.run_orders.specs.Laws.{OrdersDecide};

/// Two runs of a script whose steps were made by the same makers in the same order have one
/// journal; so have two runs in the fixed order, whole ones and those that a full journal stopped,
/// and no script has a run of either kind beside one of the other.
pub fn orders_decide()
    ensures { OrdersDecide }
{}
