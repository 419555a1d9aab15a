//! What follows from the definitions of a run with trunks alone. These functions do nothing; their
//! contracts are the laws.

ghost use Rattle.run_states.specs.Laws.{RunsReachOneState};

/// Two runs of one journal that begin with the same trunks end with the same trunks, and the head
/// of a step leaves no choice of its effects.
pub fn runs_reach_one_state()
    ensures { RunsReachOneState }
{}
