//! What follows from the spelling alone, so for what `write` writes and `read` reads.

ghost use Rattle.ethcm_headers.specs.Laws.{EachIsSpelled, HasOneSpelling, SpellsOnePacket};

/// Every packet has a spelling, the one that `write` writes: so what is written is read again.
pub fn each_is_spelled()
    ensures { EachIsSpelled }
{}

/// No packet has two spellings.
pub fn one_spelling()
    ensures { HasOneSpelling }
{}

/// No bytes spell two packets.
pub fn one_packet()
    ensures { SpellsOnePacket }
{}
