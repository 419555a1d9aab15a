//! What follows from the functions of a trunk alone. These functions do nothing; their contracts
//! are the laws.

ghost use Rattle.std.specs.Prelude.{◌≡◌, true};
ghost use Rattle.trunk_record.specs.Trunks.{IsQuiet, IsTrunk};
ghost use Rattle.carrier.specs.Events.{is_quiet};
ghost use Rattle.trunk.specs.Events.{TrunkState};
ghost use Rattle.trunk.specs.Keeping.{KeepsTrunk};
ghost use Rattle.trunk.specs.Laws.{EndsAgree, EventsKeep, MessagesUnderstood, SidesAgree};
ghost use Rattle.trunk.specs.Laws.{SidesOffer};
ghost use Rattle.trunk.specs.Promises.{TrunkPromises};
ghost use Rattle.trunk.specs.Tells.{EventsTell};

/// What holds of every trunk holds at its beginning, and after each event: a packet that comes,
/// from any place, again and again, a tick, a restart, a lost packet and two that are exchanged,
/// and each call.
pub fn events_keep()
    ensures { EventsKeep }
{}

/// So whatever comes to a side is understood: it has one reading, which is never bad, and the reply
/// is at most one message.
pub fn messages_are_understood()
    ensures { MessagesUnderstood }
{}

/// The half of the link, the RLNH end and the record of a side tell the same of its session, its
/// peer, what it published and whom it met.
pub fn sides_agree()
    ensures { SidesAgree }
{}

/// What a call says goes by messages that the link takes: at most two for a signal, whose sender
/// may have to be published first, and at most one for any other call.
pub fn sides_offer()
    ensures { SidesOffer }
{}

/// What is recorded of both sides is what the layers above rest on.
pub fn trunks_keep_records()
    ensures { (t : TrunkState) → KeepsTrunk t → IsTrunk t.first.kept t.second.kept }
{}

/// What a side was given in a session is the meaning of a front of what the other side said in the
/// session that is its peer, and nothing where the two aren't bound both ways; an incarnation is
/// published once, and its unpublishing is the last word of it; a peer goes after all its signals,
/// lives where it was met and hasn't gone, and was published in the other side's session.
pub fn trunks_keep_promises()
    ensures { (t : TrunkState) → KeepsTrunk t → TrunkPromises t }
{}

/// And where the link is quiet, both sides are up with each other, and all that was said was given.
pub fn quiet_is_complete()
    ensures { (t : TrunkState) → KeepsTrunk t → is_quiet t.link ≡ true
        → IsQuiet t.first.kept t.second.kept }
{}

/// Then each RLNH end has met just whom the other one has published and not unpublished, and no
/// address is closing.
pub fn quiet_ends_agree()
    ensures { (t : TrunkState) → KeepsTrunk t → is_quiet t.link ≡ true → EndsAgree t }
{}

/// What is handed up of an event, and what a call says, tell how the record of its side grows; the
/// other side stays as it is.
pub fn events_tell()
    ensures { EventsTell }
{}
