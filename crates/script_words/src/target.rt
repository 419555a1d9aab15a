use crate::line_error::LineError;
use crate::names::name;
use crate::words::is_text;
use linx_base::{Name, NoMemory, TryCopy};
use std::alloc::Global;

/// Whom a command speaks to.
#[derive(Drop)]
pub enum Target {
    /// The endpoint that the actor opened last.
    Me,
    /// The sender of the item that was taken last.
    Last,
    /// A peer that was given this name by `Keep`.
    Kept(Name),
}

impl Target {
    ghost use Rattle.script_words.specs.Gives.{Gives};
    ghost use Rattle.script_words.specs.Target.{target_of};

    /// Whom a word names.
    #[tactic(auto, unfolding(crate::specs::Target::target_of))]
    pub(crate) fn of(alloc: Global, word: &[u8]) -> Result<Target, LineError>
        ensures { Gives (λ t. t) result (target_of word.now) }
    {
        if is_text(word, b"self") {
            return Ok(Target::Me);
        }
        if is_text(word, b"last") {
            return Ok(Target::Last);
        }
        let name = name(alloc, word)?;
        Ok(Target::Kept(name))
    }
}

impl TryCopy for Target {
    fn copy(&self) -> Result<Target, NoMemory> {
        match self {
            Target::Me => Ok(Target::Me),
            Target::Last => Ok(Target::Last),
            Target::Kept(name) => Ok(Target::Kept(name.copy()?)),
        }
    }
}
