//! Words and numbers as they are spelled, each at the end of a buffer. After a refusal the buffer
//! holds some front of it, which the callers throw away.

ghost use Rattle.std.specs.Prelude.{◌≡◌, ◌++◌, codes, decimal, OnOk};
ghost use Rattle.outcome_tally.specs.Report.{count_line, first_text, times_line, times_text};

use crate::times::Times;
use itoa::Buffer;
use linx_base::NoMemory;

/// A text.
pub(crate) fn write_text(out: &mut Vec<u8>, text: &str) -> Result<(), NoMemory>
    ensures { OnOk result (out.new.items ≡ out.old.items ++ text.now) }
{
    out.extend_from_slice(text.as_bytes())?;
    Ok(())
}

/// A number in decimal digits.
pub(crate) fn write_number(out: &mut Vec<u8>, number: u64) -> Result<(), NoMemory>
    ensures { OnOk result (out.new.items ≡ out.old.items ++ decimal number) }
{
    let mut buffer = Buffer::new();
    out.extend_from_slice(buffer.format(number).as_bytes())?;
    Ok(())
}

/// A word and a number.
#[tactic(auto, unfolding(crate::specs::Report::count_line))]
pub(crate) fn write_count(out: &mut Vec<u8>, word: &str, number: u64) -> Result<(), NoMemory>
    ensures { OnOk result (out.new.items ≡ out.old.items ++ count_line word.now number) }
{
    write_text(out, word)?;
    write_text(out, " ")?;
    write_number(out, number)?;
    write_text(out, "\n")
}

/// The first seed, if there is one.
fn write_first(out: &mut Vec<u8>, first: Option<u64>) -> Result<(), NoMemory>
    ensures { OnOk result (out.new.items ≡ out.old.items ++ first_text first) }
{
    match first {
        None => Ok(()),
        Some(seed) => {
            write_text(out, " seed ")?;
            write_number(out, seed)
        }
    }
}

/// In how many runs, and the first of them.
#[tactic(auto, unfolding(crate::specs::Report::times_text))]
pub(crate) fn write_times(out: &mut Vec<u8>, times: Times) -> Result<(), NoMemory>
    ensures { OnOk result (out.new.items ≡ out.old.items ++ times_text times) }
{
    write_number(out, times.runs)?;
    write_first(out, times.first)?;
    write_text(out, "\n")
}

/// A word, and in how many runs it came.
#[tactic(auto, unfolding(crate::specs::Report::times_line))]
pub(crate) fn write_times_of(out: &mut Vec<u8>, word: &str, times: Times) -> Result<(), NoMemory>
    ensures { OnOk result (out.new.items ≡ out.old.items ++ times_line word.now times) }
{
    write_text(out, word)?;
    write_text(out, " ")?;
    write_times(out, times)
}
