//! What follows from the functions of a link, and of the runs over it, alone. These functions do
//! nothing; their contracts are the laws.

ghost use Rattle.run_settling.specs.Laws.{LinksComeToRest, RunsSettle};

/// Every link of a run settles in six ticks, whatever happened to it: all packets come, in order
/// and none lost, and whatever the nodes answer goes over the link; then a side ticks, and all
/// packets come; then the other ticks, and so on. After at most six ticks the link is quiet, and
/// all that was said was given.
pub fn runs_settle()
    ensures { RunsSettle }
{}

/// From every state that a run reaches, a link that isn't cut comes to rest: the packets in flight
/// come, in any order of the two sides, with all that the nodes answer, and come to an end; then a
/// side ticks, and all packets come; then the other ticks, and so on. After at most six ticks,
/// three of each side, it is quiet, both sides are up with each other, and all that was said was
/// given; or the journal is full. Where in each round either side may tick first, six rounds are
/// enough.
pub fn links_come_to_rest()
    ensures { LinksComeToRest }
{}
