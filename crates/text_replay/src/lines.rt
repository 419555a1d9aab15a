//! The first line in which a text is another.

ghost use Rattle.std.specs.Prelude.{◌≡◌, ◌≤◌, ◌+◌, ◌<◌, ◌^◌, length};
ghost use Rattle.script_words.specs.Lines.{lines_of};
ghost use Rattle.text_replay.specs.Lines.{is_heading, number_behind, other_from, other_line};
ghost use Rattle.text_replay.specs.Lines.{or_else, steps_behind};

use script_words::first_line;

/// What begins the line that announces the steps.
const HEADING: &[u8] = b"journal ";

/// The lines behind the heading of a text, and the number of the first of them.
#[derive(Clone, Copy)]
struct Behind<'a> {
    first: u64,
    lines: &'a [u8],
}

fn is_heading(line: &[u8]) -> bool
    ensures { result ≡ is_heading line.now }
{
    line.starts_with(HEADING)
}

/// The lines of the steps of a text.
fn steps_behind(text: &[u8]) -> Behind<'_>
    ensures first { result.first ≡ number_behind 1 (lines_of text.now) }
    ensures lines { lines_of result.lines.now ≡ steps_behind (lines_of text.now) }
    ensures few { result.first + length result.lines.now ≤ 1 + length text.now }
{
    let mut rest = text;
    let mut first = 1;
    'lines: while !rest.is_empty() {
        let (line, behind) = first_line(rest);
        first += 1;
        rest = behind;
        if is_heading(line) {
            break 'lines;
        }
    }
    Behind { first, lines: rest }
}

/// The first line, from this number on, in which two texts differ.
fn other_from(first: u64, text: &[u8], run: &[u8]) -> Option<u64>
    requires { first + length text.now < 2 ^ 64 }
    ensures { result ≡ other_from first (lines_of text.now) (lines_of run.now) }
{
    let mut lines = text;
    let mut others = run;
    let mut number = first;
    'lines: while !lines.is_empty() {
        if others.is_empty() {
            return Some(number);
        }
        let (line, lines_behind) = first_line(lines);
        let (other, others_behind) = first_line(others);
        if line != other {
            return Some(number);
        }
        number += 1;
        lines = lines_behind;
        others = others_behind;
    }
    if others.is_empty() {
        None
    } else {
        Some(number)
    }
}

fn or_else(one: Option<u64>, other: Option<u64>) -> Option<u64>
    ensures { result ≡ or_else one other }
{
    match one {
        Some(line) => Some(line),
        None => other,
    }
}

/// The first line of a text that isn't that of a run's text.
pub(crate) fn other_line(text: &[u8], run: &[u8]) -> Option<u64>
    ensures { result ≡ other_line text.now run.now }
{
    let steps = steps_behind(text);
    let others = steps_behind(run);
    or_else(
        other_from(steps.first, steps.lines, others.lines),
        other_from(1, text, run),
    )
}
