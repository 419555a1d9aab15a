//! What follows from the changes of the trunks alone. These functions do nothing; their contracts
//! are the laws.

ghost use Rattle.run_trunks.specs.Laws.{ChangesAreOfRuns, ChangesFollow, EventsRest};

/// Seen by the numbers of their links, new trunks are those before the first step of a run, what
/// the sides of a node do is what each of them does, and a change of one trunk is that alone.
pub fn changes_are_of_runs()
    ensures { ChangesAreOfRuns }
{}

/// A change of one trunk is what is read of it then, and two of them, one after the other, are one.
pub fn changes_follow()
    ensures { ChangesFollow }
{}

/// At the beginning of an event no packet was lost or exchanged. While the trunk of one link alone
/// has changed, to keep that one is to keep all.
pub fn events_rest()
    ensures { EventsRest }
{}
