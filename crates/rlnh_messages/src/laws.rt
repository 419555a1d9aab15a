//! What follows from the spelling alone, so for what `write` writes and `read` reads.

ghost use Rattle.rlnh_messages.specs.Laws.{EachIsSpelled, EachSignalGoes, HasOneSpelling};
ghost use Rattle.rlnh_messages.specs.Laws.{SpellsOneMessage};

/// Every message has a spelling, the one that `write` writes: so what is written is read again.
pub fn each_is_spelled()
    ensures { EachIsSpelled }
{}

/// No message has two spellings.
pub fn one_spelling()
    ensures { HasOneSpelling }
{}

/// No bytes spell two messages.
pub fn one_message()
    ensures { SpellsOneMessage }
{}

/// Every signal goes by a body, the one that `write_signal` writes, and its body is none that
/// `read_signal` refuses as `Bad`.
pub fn each_signal_goes()
    ensures { EachSignalGoes }
{}
