//! What follows from the functions of a link alone. These functions do nothing; their contracts are
//! the laws.

ghost use Rattle.std.specs.Prelude.{◌≡◌, true};
ghost use Rattle.carrier.specs.Events.{LinkState, is_quiet};
ghost use Rattle.carrier.specs.Keeping.{KeepsLink};
ghost use Rattle.carrier.specs.Laws.{CarrierPromises, EventsKeep, EventsTell, IsComplete};

/// What holds of every link holds at its beginning, and after each event: a packet that comes, from
/// any place, again and again, a tick, an offered message, a restart, a lost packet and two that
/// are exchanged.
pub fn events_keep()
    ensures { EventsKeep }
{}

/// So what was handed up in each session is a front of what the other side offered to it; the
/// sessions of a side rise, and their peers don't go back; a session in which something was handed
/// up and its peer have each other as their peers; nothing is handed up twice; and each packet in
/// flight was put in a session that is recorded.
pub fn links_keep_promises()
    ensures { (v : LinkState) → KeepsLink v → CarrierPromises v }
{}

/// And where nothing is in flight and neither end has work, both sides are up with each other, and
/// all that was offered was handed up.
pub fn quiet_is_complete()
    ensures { (v : LinkState) → KeepsLink v → is_quiet v ≡ true → IsComplete v }
{}

/// What is handed up of an event says where the session of its side goes and how the record of that
/// side grows, with no packet; the other side stays as it is.
pub fn events_tell()
    ensures { EventsTell }
{}
