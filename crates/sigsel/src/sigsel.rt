ghost use Rattle.std.specs.Prelude.{◌≡◌, ◌==◌, ◌↔◌, IsTrue, Contains};
ghost use Rattle.std.specs.List.{list_any};
ghost use Rattle.sigsel.specs.Selects.{Selects, selects};

use crate::numbers::Numbers;
use linx_base::{NoMemory, TryCopy};

/// Which signals a receive takes.
#[derive(Drop)]
pub enum Sigsel {
    /// Every signal.
    Any,
    /// The signals with a listed number.
    Only(Numbers),
    /// The signals whose number isn't listed.
    Not(Numbers),
}

fn lists(listed: &[u32], number: u32) -> bool
    ensures contains { IsTrue result ↔ Contains listed.now number }
    ensures computes { result ≡ list_any (λ n. n == number) listed.now }
{
    listed.contains(&number)
}

impl Sigsel {
    /// Whether the filter selects signals of this number. It takes no memory.
    pub fn selects(&self, number: u32) -> bool
        ensures selects { IsTrue result ↔ Selects self.now number }
        ensures computes { result ≡ selects self.now number }
    {
        match self {
            Sigsel::Any => true,
            Sigsel::Only(listed) => lists(listed.as_slice(), number),
            Sigsel::Not(listed) => !lists(listed.as_slice(), number),
        }
    }
}

impl TryCopy for Sigsel {
    fn copy(&self) -> Result<Sigsel, NoMemory> {
        match self {
            Sigsel::Any => Ok(Sigsel::Any),
            Sigsel::Only(listed) => Ok(Sigsel::Only(listed.copy()?)),
            Sigsel::Not(listed) => Ok(Sigsel::Not(listed.copy()?)),
        }
    }
}
