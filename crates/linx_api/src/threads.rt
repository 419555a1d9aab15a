//! That the shared fabric may go from thread to thread.
ghost use denote.Param.Send.{IsSend};
ghost use Rattle.linx_api.specs.contracts.shared_fabric.SharedFabric as SharedFabric;

/// The shared fabric is `Send`, so that its lock is `Sync` and its passes are `Send`. The prover
/// doesn't find that by itself of so large a type: who gives passes to threads calls this before.
pub fn fabric_is_send()
    ensures { IsSend SharedFabric.the_row }
{}
