//! The names of the load.

ghost use Rattle.std.specs.Prelude.{◌≡◌, [], ◌∷◌, IfOk, IsTrue};
ghost use Rattle.linx_base.specs.NameText.{is_name, is_name_byte};
ghost use Rattle.work_gen.specs.Generated.{numbered};

use itoa::Buffer;
use linx_base::{Name, NameError, NoMemory};
use std::alloc::Global;

/// The name that these bytes spell.
pub(crate) fn name_of(alloc: Global, text: &[u8]) -> Result<Name, NoMemory>
    requires { IsTrue (is_name text.now) }
    ensures { IfOk result (λ name. name ≡ text.now) }
{
    match Name::of(alloc, text) {
        Ok(name) => Ok(name),
        Err(NameError::BadName) => unreachable!(),
        Err(NameError::NoMemory) => Err(NoMemory),
    }
}

/// The name of a letter and a number.
#[tactic(auto, using(crate::proofs::Names::numbered_is_name))]
pub(crate) fn numbered_name(alloc: Global, letter: u8, number: u32) -> Result<Name, NoMemory>
    requires { IsTrue (is_name_byte letter) }
    ensures { IfOk result (λ name. name ≡ numbered (letter ∷ []) number) }
{
    let mut buffer = Buffer::new();
    let mut text = Vec::from_slice(alloc, &[letter])?;
    text.extend_from_slice(buffer.format(number).as_bytes())?;
    let name = name_of(alloc, &text)?;
    Ok(name)
}
