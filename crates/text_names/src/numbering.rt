//! The names of a text, each at its number.
ghost use Rattle.std.specs.Prelude.{◌≡◌, ◌++◌, option_map, OnOk, IfOk};
ghost use Rattle.text_names.specs.Numbering.{told_name, highest, nobody, name_at, behind_name};
ghost use Rattle.text_names.specs.Numbering.{numbered_names};

use crate::told_names::Numbered;
use linx_base::{Name, NameError, NameList, NoMemory, TryCopy};
use std::alloc::Global;

/// The name of this number, if a line tells it.
fn told_name(told: &[Numbered], number: u32) -> Option<&Name>
    ensures { option_map (λ n. n.now) result ≡ told_name number told.now }
{
    match told.iter().find(|t| t.number == number) {
        Some(numbered) => Some(&numbered.name),
        None => None,
    }
}

/// The highest number that is told, or 0.
fn highest(told: &[Numbered]) -> u32
    ensures { result ≡ highest told.now }
{
    let mut most = 0;
    for numbered in told {
        most = most.max(numbered.number);
    }
    most
}

/// What stands in the place of a name that no line has.
fn nobody(alloc: Global) -> Result<Name, NoMemory>
    ensures { IfOk result (λ name. name ≡ nobody) }
{
    match Name::of(alloc, b"-") {
        Ok(name) => Ok(name),
        Err(NameError::BadName) => unreachable!(),
        Err(NameError::NoMemory) => Err(NoMemory),
    }
}

/// The name of a number, if it is told, or the next of the others; and the others behind it.
fn next_name<'a>(
    alloc: Global,
    told: &[Numbered],
    number: u32,
    others: &'a [Name],
) -> Result<(Name, &'a [Name]), NoMemory>
    ensures name { IfOk result (λ next.
        next.0 ≡ name_at (told_name number told.now) others.now) }
    ensures behind { IfOk result (λ next.
        next.1.now ≡ behind_name (told_name number told.now) others.now) }
{
    match told_name(told, number) {
        Some(name) => Ok((name.copy()?, others)),
        None => match others {
            [name, behind @ ..] => Ok((name.copy()?, behind)),
            [] => Ok((nobody(alloc)?, others)),
        },
    }
}

/// Adds copies of names at the end.
fn add_all(names: &mut NameList, more: &[Name]) -> Result<(), NoMemory>
    ensures { OnOk result (names.new ≡ names.old ++ more.now) }
{
    for name in more {
        names.push(name.copy()?)?;
    }
    Ok(())
}

/// The names whose numbers are told, each at its number, and the others in the places between and
/// behind them.
pub(crate) fn numbered_names(
    alloc: Global,
    told: &[Numbered],
    others: &[Name],
) -> Result<NameList, NoMemory>
    ensures { IfOk result (λ names. names ≡ numbered_names told.now others.now) }
{
    let mut names = NameList::new(alloc);
    let mut rest = others;
    for number in 0..highest(told) {
        let (name, behind) = next_name(alloc, told, number + 1, rest)?;
        names.push(name)?;
        rest = behind;
    }
    add_all(&mut names, rest)?;
    Ok(names)
}
