//! What follows from the definitions of a run with links alone. These functions do nothing; their
//! contracts are the laws.

ghost use Rattle.link_laws.specs.Fits.{RunsFit};
ghost use Rattle.link_laws.specs.Runs.{RunsAreLegal, RunsKeepPromises};

/// Every run is legal: where each step is a move, which says what its node does and what its kind
/// makes of the sides of the links, every step keeps the laws of nodes, of rest, links, packets,
/// cuts and ticks; and after it each side of each link is what the history tells of it.
pub fn runs_are_legal()
    ensures { RunsAreLegal }
{}

/// So every run keeps its promises, before its first step and after each: what arrives over a link
/// is a front of what was sent, all of it, at an endpoint that is still open, once the sender's
/// close was told, and nothing after that; whoever is notified of a close has all that the peer
/// sent, and gets no more of it; sessions pair both ways and don't go back; whoever is met was not
/// closed before the paired session went up; no pending hunt names a living peer, over a link or on
/// its own node; each attach that is owed a notification is of a living peer, and its holder is
/// open; over a quiet link nothing vanishes; and links that rest are still.
pub fn runs_keep_promises()
    ensures { RunsKeepPromises }
{}

/// And in every run what a trunk may give next fits its node, and what a node asks of its side fits
/// that: whom a node meets is no living peer as yet, a signal arrives at an open endpoint from a
/// living peer, who goes was alive; a living peer can be sent to, and an open endpoint was not
/// unpublished.
pub fn runs_fit()
    ensures { RunsFit }
{}
