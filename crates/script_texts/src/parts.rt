//! The parts of an input.

ghost use Rattle.std.specs.Prelude.{◌≡◌, ◌≤◌, ◌+◌, option_map, IfSome, length};
ghost use Rattle.std.specs.Str.{bytes_eq};
ghost use Rattle.script_texts.specs.Places.{is_between, script_in, text_in, text_place};

use script_words::first_line;

/// The line between a script and a printed text.
const BETWEEN: &[u8] = b"text\n";

/// What stands before the first line `text` of an input, and what stands behind it.
#[derive(Clone, Copy)]
pub struct Parts<'a> {
    /// All of the input where it has no such line.
    pub script: &'a [u8],
    pub text: Option<&'a [u8]>,
}

fn is_between(line: &[u8]) -> bool
    ensures { result ≡ is_between line.now }
{
    line == BETWEEN
}

/// How many bytes stand before the first line `text`.
fn text_place(bytes: &[u8]) -> Option<usize>
    ensures place { result ≡ text_place bytes.now }
    ensures within { IfSome result (λ place. place + 5 ≤ length bytes.now) }
{
    let mut rest = bytes;
    'lines: while !rest.is_empty() {
        let (line, behind) = first_line(rest);
        if is_between(line) {
            return Some(bytes.len() - rest.len());
        }
        rest = behind;
    }
    None
}

/// The parts of an input.
pub fn parted(bytes: &[u8]) -> Parts<'_>
    ensures script { result.script.now ≡ script_in bytes.now }
    ensures text { option_map (λ text. text.now) result.text ≡ text_in bytes.now }
{
    match text_place(bytes) {
        None => Parts {
            script: bytes,
            text: None,
        },
        Some(place) => Parts {
            script: &bytes[..place],
            text: Some(&bytes[place + BETWEEN.len()..]),
        },
    }
}
