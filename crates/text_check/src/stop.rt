//! Why a text isn't that of a legal run.

use journal_check::Fault as LawFault;
use linx_base::NoMemory;
use script_lang::Fault;
use std::alloc::AllocError;

/// Why a text isn't that of a legal run of a script.
#[derive(Clone, Copy, Debug, PartialEq, Eq, Hash)]
pub enum CheckStop {
    /// The bytes are no script: the first bad line, from 1, and what is wrong with it.
    Bad { line: u32, fault: Fault },
    /// The text is no printed text with the names of the script: its first bad line, from 1.
    Unread { line: u64 },
    /// The first line, from 1, with which the text tells more signals than a journal holds.
    Full { line: u64 },
    /// The first step that isn't legal, and the first law that it breaks.
    Illegal(LawFault),
    /// The first line, from 1, that isn't that of the logs which the steps tell.
    Log { line: u64 },
    NoMemory,
}

impl From<NoMemory> for CheckStop {
    ghost use Rattle.std.specs.Prelude.{◌≡◌};
    ghost use Rattle.text_check.specs.declared.stop.CheckStop.TheVariants.{NoMemory};

    ghost from_gives = { λ _ stop. stop ≡ NoMemory };

    fn from(_refusal: NoMemory) -> CheckStop {
        CheckStop::NoMemory
    }
}

impl From<AllocError> for CheckStop {
    ghost use Rattle.std.specs.Prelude.{◌≡◌};
    ghost use Rattle.text_check.specs.declared.stop.CheckStop.TheVariants.{NoMemory};

    ghost from_gives = { λ _ stop. stop ≡ NoMemory };

    fn from(_refusal: AllocError) -> CheckStop {
        CheckStop::NoMemory
    }
}
