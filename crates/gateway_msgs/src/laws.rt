//! What follows from the spelling alone, so for all that `front_of` finds and `read` reads.
ghost use Rattle.gateway_msgs.specs.Laws.{HasOneFront, NoneGoesOn, SpellsOneRequest};

/// No bytes spell two requests, nor one of two clients.
pub fn one_request()
    ensures { SpellsOneRequest }
{}

/// No request is a proper front of another.
pub fn none_goes_on()
    ensures { NoneGoesOn }
{}

/// Bytes begin with one thing only, so what `front_of` answers is the only answer.
pub fn one_front()
    ensures { HasOneFront }
{}
