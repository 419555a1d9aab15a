//! Why a step can't be made.
ghost use Rattle.std.specs.Prelude.{◌≡◌, None};
ghost use Rattle.fabric.specs.Calls.{refusal_with};

use linx_base::{NoMemory, Signal};

/// Why no step can be made.
#[derive(Clone, Copy, Debug, PartialEq, Eq, Hash)]
pub enum StopCause {
    /// The journal takes no further step.
    JournalFull,
    NoMemory,
}

/// A step that wasn't made: nothing changed, and the hand comes back.
#[derive(Drop)]
pub struct StepStop {
    pub cause: StopCause,
    pub hand: Option<Signal>,
}

/// Memory was refused to a step, and its hand comes back.
pub(crate) fn no_memory(hand: Option<Signal>) -> StepStop
    ensures { result ≡ refusal_with hand }
{
    StepStop {
        cause: StopCause::NoMemory,
        hand,
    }
}

/// Where there was nothing in the hand.
impl From<NoMemory> for StepStop {
    ghost from_gives = { λ _ stop. stop ≡ refusal_with None };

    fn from(_: NoMemory) -> StepStop {
        no_memory(None)
    }
}
