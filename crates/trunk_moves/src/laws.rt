//! What follows from the definitions of a run with trunks alone. These functions do nothing; their
//! contracts are the laws.

ghost use Rattle.trunk_moves.specs.Grants.{TrunkRunsGrant};
ghost use Rattle.trunk_moves.specs.Laws.{TrunkRunsAreRuns, TrunkRunsKeepAll};

/// Each step that makes of the trunks what its kind makes of them is a move of a run with links;
/// every trunk is kept, and no side has more addresses in use than the run has steps.
pub fn trunk_runs_are_runs()
    ensures { TrunkRunsAreRuns }
{}

/// So every such run is legal, the sides of its links are what its history tells, and after each of
/// its steps it keeps what is promised of runs with links.
pub fn trunk_runs_keep_all()
    ensures { TrunkRunsKeepAll }
{}

/// And while a run has room for a step, that may hand to each side what trunks ask for: an endpoint
/// that opens or is open was not unpublished there, and has an address; a living peer can be sent
/// to; the next boot is above the side's own; and what is hunted is a name.
pub fn trunk_runs_grant()
    ensures { TrunkRunsGrant }
{}
