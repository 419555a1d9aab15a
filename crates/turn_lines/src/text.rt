//! The lines of rows of turns.

ghost use Rattle.std.specs.Prelude.{◌≡◌, ◌<◌, ◌++◌, ◌∷◌, decimal, flat_map, length, IfOk, OnOk};
ghost use Rattle.turn_lines.specs.Text.{in_lines, line_text, maker_text, order_text, row_text};
ghost use Rattle.turn_lines.specs.Text.{word_text};
ghost use Rattle.turn_lines.specs.Turns.{turn_makers};

use crate::rows::{Row, rows_told};
use itoa::Buffer;
use journal::{By, Journal};
use linx_base::NoMemory;
use std::alloc::Global;

/// The most words behind the first one of a line.
const WORDS_MOST: usize = 16;

fn write_text(out: &mut Vec<u8>, text: &str) -> Result<(), NoMemory>
    ensures { OnOk result (out.new.items ≡ out.old.items ++ text.now) }
{
    out.extend_from_slice(text.as_bytes())?;
    Ok(())
}

fn write_number(out: &mut Vec<u8>, number: u64) -> Result<(), NoMemory>
    ensures { OnOk result (out.new.items ≡ out.old.items ++ decimal number) }
{
    let mut buffer = Buffer::new();
    out.extend_from_slice(buffer.format(number).as_bytes())?;
    Ok(())
}

fn write_maker(out: &mut Vec<u8>, maker: By) -> Result<(), NoMemory>
    ensures { OnOk result (out.new.items ≡ out.old.items ++ maker_text maker) }
{
    match maker {
        By::Actor(number) => {
            write_text(out, "A")?;
            write_number(out, u64::from(number))
        }
        By::Pump(link) => {
            write_text(out, "P")?;
            write_number(out, u64::from(link.0))
        }
    }
}

/// The word of a row.
#[tactic(auto, unfolding(crate::specs::Text::row_text))]
fn write_row(out: &mut Vec<u8>, row: &Row) -> Result<(), NoMemory>
    ensures { OnOk result (out.new.items ≡ out.old.items ++ row_text row.now) }
{
    write_maker(out, row.maker)?;
    if row.times == 1 {
        Ok(())
    } else {
        write_text(out, "*")?;
        write_number(out, row.times)
    }
}

/// The same behind a space.
fn write_word(out: &mut Vec<u8>, row: &Row) -> Result<(), NoMemory>
    ensures { OnOk result (out.new.items ≡ out.old.items ++ word_text row.now) }
{
    write_text(out, " ")?;
    write_row(out, row)
}

/// The words of rows.
fn write_words(out: &mut Vec<u8>, rows: &[Row]) -> Result<(), NoMemory>
    ensures { OnOk result (out.new.items ≡ out.old.items ++ flat_map word_text rows.now) }
{
    for row in rows {
        write_word(out, row)?;
    }
    Ok(())
}

/// The line of a few rows.
#[tactic(auto, unfolding(crate::specs::Text::line_text))]
fn write_line(out: &mut Vec<u8>, rows: &[Row]) -> Result<(), NoMemory>
    ensures { OnOk result (out.new.items ≡ out.old.items ++ line_text rows.now) }
{
    write_text(out, "order")?;
    write_words(out, rows)?;
    write_text(out, "\n")
}

/// The rows of the first line, and those behind it.
#[tactic(auto, using(crate::proofs::Lines::full_line, crate::proofs::Lines::last_line))]
fn first_line(rows: &[Row]) -> (&[Row], &[Row])
    requires { 0 < length rows.now }
    ensures lines { in_lines 0 rows.now ≡ result.0.now ∷ in_lines 0 result.1.now }
    ensures advances { length result.1.now < length rows.now }
{
    if rows.len() > WORDS_MOST {
        rows.split_at(WORDS_MOST)
    } else {
        rows.split_at(rows.len())
    }
}

/// The lines of rows.
fn write_lines(out: &mut Vec<u8>, rows: &[Row]) -> Result<(), NoMemory>
    ensures { OnOk result (out.new.items
        ≡ out.old.items ++ flat_map line_text (in_lines 0 rows.now)) }
{
    let mut rest = rows;
    'lines: while !rest.is_empty() {
        let (line, behind) = first_line(rest);
        write_line(out, line)?;
        rest = behind;
    }
    Ok(())
}

/// The lines `order` that list the turns of a journal.
pub fn order_lines(alloc: Global, journal: &Journal) -> Result<Vec<u8>, NoMemory>
    ensures { IfOk result (λ text. text.items
        ≡ order_text (turn_makers journal.now.log.steps)) }
{
    let rows = rows_told(alloc, journal)?;
    let mut text = Vec::new(alloc);
    write_lines(&mut text, rows.as_slice())?;
    Ok(text)
}
