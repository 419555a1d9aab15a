//! What is wrong with words that ask for nothing.
ghost use Rattle.std.specs.Prelude.{◌≡◌, IfOk};
ghost use Rattle.command_words.specs.Misuses.{misuse_of, topic_misuse};

use crate::nearest::nearest;
use crate::word::{Word, called};
use linx_base::NoMemory;
use std::alloc::Global;

/// What is wrong with words that ask for nothing.
#[derive(Clone, Copy, Debug, PartialEq, Eq, Hash)]
pub enum Misuse {
    /// There are none.
    Wordless,
    /// The one at this place, from 0, is none of the table; and the nearest that is.
    Unknown(usize, Option<Word>),
    /// These aren't the arguments of the word.
    Arguments(Word),
}

/// What is wrong with the word of which help is asked.
fn topic_misuse(alloc: Global, topic: &str) -> Result<Misuse, NoMemory>
    ensures { IfOk result (λ wrong. wrong ≡ topic_misuse topic.now) }
{
    if called(topic).is_some() {
        return Ok(Misuse::Arguments(Word::Help));
    }
    Ok(Misuse::Unknown(1, nearest(alloc, topic)?))
}

impl Misuse {
    /// What is wrong with words that ask for nothing.
    pub fn of(alloc: Global, words: &[String]) -> Result<Misuse, NoMemory>
        ensures { IfOk result (λ wrong. wrong ≡ misuse_of words.now) }
    {
        let Some(first) = words.first() else {
            return Ok(Misuse::Wordless);
        };
        match (called(first.as_str()), words) {
            (None, _) => Ok(Misuse::Unknown(0, nearest(alloc, first.as_str())?)),
            (Some(Word::Help), [_, topic]) => topic_misuse(alloc, topic.as_str()),
            (Some(word), _) => Ok(Misuse::Arguments(word)),
        }
    }
}
