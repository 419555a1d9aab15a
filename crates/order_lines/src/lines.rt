//! Which lines say an order, and the text in which these are comments.

ghost use Rattle.std.specs.Prelude.{◌≡◌, ◌++◌, ◌<◌, length, IfOk, OnOk};
ghost use Rattle.order_lines.specs.Lines.{behind_blanks, ends_word, is_order_line, plain_line};
ghost use Rattle.order_lines.specs.Lines.{without_orders};
ghost use Rattle.script_words.specs.Lines.{is_space};

use linx_base::NoMemory;
use script_words::first_line;
use std::alloc::Global;

/// The word that begins such a line.
const ORDER: &[u8] = b"order";

fn is_blank(byte: u8) -> bool
    ensures { result ≡ is_space byte }
{
    byte == b' ' || byte == b'\t'
}

/// The line behind the blanks at its beginning.
fn behind_blanks(line: &[u8]) -> &[u8]
    ensures { result.now ≡ behind_blanks line.now }
{
    let mut text = line;
    'blanks: while !text.is_empty() && is_blank(text[0]) {
        text = &text[1..];
    }
    text
}

/// Whether a word is over before this text.
fn ends_word(text: &[u8]) -> bool
    ensures { result ≡ ends_word text.now }
{
    match text {
        [] => true,
        [next, ..] => is_blank(*next) || *next == b'\n' || *next == b'\r',
    }
}

/// Whether the first word of a line is `order`.
#[tactic(auto, unfolding(crate::specs::Lines::is_order_line))]
pub(crate) fn is_order_line(line: &[u8]) -> bool
    ensures { result ≡ is_order_line line.now }
{
    let text = behind_blanks(line);
    text.starts_with(ORDER) && ends_word(&text[ORDER.len()..])
}

/// A line of the text in which orders are comments.
fn push_plain(plain: &mut Vec<u8>, line: &[u8]) -> Result<(), NoMemory>
    requires some { 0 < length line.now }
    ensures { OnOk result (plain.new.items ≡ plain.old.items ++ plain_line line.now) }
{
    if is_order_line(line) {
        plain.push(b'#')?;
        plain.extend_from_slice(&line[1..])?;
    } else {
        plain.extend_from_slice(line)?;
    }
    Ok(())
}

/// A text in which each line that says an order is a comment.
pub(crate) fn without_orders(alloc: Global, bytes: &[u8]) -> Result<Vec<u8>, NoMemory>
    ensures { IfOk result (λ plain. plain.items ≡ without_orders bytes.now) }
{
    let mut plain = Vec::with_capacity(alloc, bytes.len())?;
    let mut rest = bytes;
    'lines: while !rest.is_empty() {
        let (line, behind) = first_line(rest);
        push_plain(&mut plain, line)?;
        rest = behind;
    }
    Ok(plain)
}
