use crate::line_error::LineError;
use crate::names::{name, name_in};
use crate::words::cut;
use linx_base::Name;
use std::alloc::Global;

/// A path with the name of its link.
#[derive(Drop)]
pub enum Route {
    /// The name of an endpoint on the own node.
    Local(Name),
    /// The name of an endpoint behind a link.
    Over { link: Name, name: Name },
}

impl Route {
    ghost use Rattle.script_words.specs.Gives.{Gives};
    ghost use Rattle.script_words.specs.Route.{route_of};

    /// The path that a word spells.
    #[tactic(auto, unfolding(crate::specs::Route::route_of))]
    pub(crate) fn of(alloc: Global, word: &[u8]) -> Result<Route, LineError>
        ensures { Gives (λ r. r) result (route_of word.now) }
    {
        match cut(word, b'/') {
            None => {
                let name = name(alloc, word)?;
                Ok(Route::Local(name))
            }
            Some((link, behind)) => {
                let link = name_in(alloc, word, link)?;
                let name = name_in(alloc, word, behind)?;
                Ok(Route::Over { link, name })
            }
        }
    }
}
