//! Why a text isn't that of a run.

use linx_base::NoMemory;
use script_lang::Fault;
use std::alloc::AllocError;

/// Why a text isn't that of a run of a script.
#[derive(Clone, Copy, Debug, PartialEq, Eq, Hash)]
pub enum ReplayStop {
    /// The bytes are no script: the first bad line, from 1, and what is wrong with it.
    Bad { line: u32, fault: Fault },
    /// The text is no printed text with the names of the script: its first bad line, from 1.
    Unread { line: u64 },
    /// The first line, from 1, with which the text tells more signals than a journal holds.
    Full { line: u64 },
    /// The first line of the text, from 1, that isn't that of the run.
    Other { line: u64 },
    /// The makers of the text fill the journal before all is over.
    JournalFull,
    NoMemory,
}

impl From<NoMemory> for ReplayStop {
    ghost use Rattle.std.specs.Prelude.{◌≡◌};
    ghost use Rattle.text_replay.specs.declared.stop.ReplayStop.TheVariants.{NoMemory};

    ghost from_gives = { λ _ stop. stop ≡ NoMemory };

    fn from(_refusal: NoMemory) -> ReplayStop {
        ReplayStop::NoMemory
    }
}

impl From<AllocError> for ReplayStop {
    ghost use Rattle.std.specs.Prelude.{◌≡◌};
    ghost use Rattle.text_replay.specs.declared.stop.ReplayStop.TheVariants.{NoMemory};

    ghost from_gives = { λ _ stop. stop ≡ NoMemory };

    fn from(_refusal: AllocError) -> ReplayStop {
        ReplayStop::NoMemory
    }
}
