ghost use Rattle.std.specs.Prelude.{◌≡◌, false, true, IsTrue, IfOk, IfErr, map, pos};
ghost use Rattle.std.specs.List.{list_all};
ghost use Rattle.sigsel.specs.Spelling.{spelling_of, IsCounted, has_count, is_number};
ghost use Rattle.sigsel.specs.Spelling.{lists_numbers};
ghost use Rattle.sigsel.specs.declared.spelling.SelError.TheVariants.{NoMemory as OutOfMemory};

use crate::numbers::Numbers;
use crate::sigsel::Sigsel;
use linx_base::NoMemory;
use std::alloc::Global;
use std::error::Error;
use std::fmt;

/// Why a list spells no filter.
#[derive(Clone, Copy, Debug, PartialEq, Eq, Hash)]
pub enum SelError {
    BadCount,
    BadNumber,
    NoMemory,
}

impl fmt::Display for SelError {
    ghost use Rattle.std.specs.Prelude.{Some};
    ghost use Rattle.sigsel.specs.Failures.{sel_error_text};

    ghost output = { λ error. Some (sel_error_text error) };

    fn fmt<W: fmt::Write>(&self, f: &mut fmt::Formatter<W>) -> fmt::Result {
        f.write_str(match self {
            SelError::BadCount => "the count isn't that of the numbers",
            SelError::BadNumber => "not a signal number",
            SelError::NoMemory => "out of memory",
        })
    }
}

impl Error for SelError {}

impl From<NoMemory> for SelError {
    ghost from_gives = { λ _ e. e ≡ OutOfMemory };

    fn from(_refusal: NoMemory) -> SelError {
        SelError::NoMemory
    }
}

fn fits_number(value: i64) -> bool
    ensures { result ≡ is_number value }
{
    0 <= value && value <= 4_294_967_295
}

fn are_numbers(values: &[i64]) -> bool
    ensures { result ≡ list_all is_number values.now }
{
    values.iter().all(|value| fits_number(*value))
}

/// The values as signal numbers.
fn numbers_of(alloc: Global, values: &[i64]) -> Result<Vec<u32>, NoMemory>
    requires { IsTrue (list_all is_number values.now) }
    ensures { IfOk result (λ numbers. map pos numbers.items ≡ values.now) }
{
    let mut numbers = Vec::with_capacity(alloc, values.len())?;
    for value in values {
        numbers.push(*value as u32)?;
    }
    Ok(numbers)
}

impl Sigsel {
    /// The filter that a list spells: a count first, then the listed numbers.
    pub fn of_list(alloc: Global, list: &[i64]) -> Result<Sigsel, SelError>
        ensures ok { IfOk result (λ filter. (list.now ≡ spelling_of filter) × IsCounted filter) }
        ensures bad_count { has_count list.now ≡ false → result ≡ Err SelError.BadCount }
        ensures bad_count_only { IfErr result
            (λ e. e ≡ SelError.BadCount → has_count list.now ≡ false) }
        ensures bad_number { has_count list.now ≡ true → lists_numbers list.now ≡ false
            → result ≡ Err SelError.BadNumber }
        ensures bad_number_only { IfErr result
            (λ e. e ≡ SelError.BadNumber
            → (has_count list.now ≡ true) × (lists_numbers list.now ≡ false)) }
    {
        let Some((count, rest)) = list.split_first() else {
            return Err(SelError::BadCount);
        };
        if count.unsigned_abs() != rest.len() as u64 {
            return Err(SelError::BadCount);
        }
        if !are_numbers(rest) {
            return Err(SelError::BadNumber);
        }
        let listed = Numbers::of(numbers_of(alloc, rest)?)?;
        if *count == 0 {
            return Ok(Sigsel::Any);
        }
        if *count > 0 {
            Ok(Sigsel::Only(listed))
        } else {
            Ok(Sigsel::Not(listed))
        }
    }
}
