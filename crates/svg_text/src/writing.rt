//! How bytes, numbers and words are written. What is written goes to the end of a buffer; after a
//! refusal the buffer holds some front of it, which the callers throw away.
ghost use Rattle.std.specs.Prelude.{◌≡◌, ◌++◌, ◌∷◌, [], flat_map, decimal, OnOk, ◌<◌, false};
ghost use Rattle.std.specs.Fmt.{digit_glyph};
ghost use Rattle.svg_text.specs.Xml.{character_text, is_character};
ghost use Rattle.svg_text.specs.Texts.{anchor_text};
ghost use Rattle.svg_text.specs.Words.{has_character, numbered, byte_text, words_text, point_text};
ghost use Rattle.svg_text.specs.Words.{anchor_name, stroke_text, strokes_text, effect_text};
ghost use Rattle.svg_text.specs.Words.{place_text};

use crate::shape::{Anchor, Point, Stroke};
use itoa::Buffer;
use linx_base::NoMemory;

/// Any bytes.
pub(crate) fn write(out: &mut Vec<u8>, text: &[u8]) -> Result<(), NoMemory>
    ensures { OnOk result (out.new.items ≡ out.old.items ++ text.now) }
{
    out.extend_from_slice(text)?;
    Ok(())
}

/// A number in decimal digits.
pub(crate) fn write_number(out: &mut Vec<u8>, number: u64) -> Result<(), NoMemory>
    ensures { OnOk result (out.new.items ≡ out.old.items ++ decimal number) }
{
    let mut buffer = Buffer::new();
    write(out, buffer.format(number).as_bytes())
}

/// The end of a line, or a printing character of ASCII, but for the backslash.
fn has_own_character(byte: u8) -> bool
    ensures { result ≡ has_character byte }
{
    (byte == b'\n' || (b' ' <= byte && byte <= b'~')) && byte != b'\\'
}

/// A character of a text.
fn write_character(out: &mut Vec<u8>, byte: u8) -> Result<(), NoMemory>
    ensures { OnOk result (out.new.items ≡ out.old.items ++ character_text byte) }
{
    match byte {
        b'&' => write(out, b"&amp;"),
        b'<' => write(out, b"&lt;"),
        b'>' => write(out, b"&gt;"),
        b'"' => write(out, b"&quot;"),
        _ => write(out, &[byte]),
    }
}

/// The hexadecimal digit of a number below 16.
fn digit(number: u8) -> u8
    requires { number < 16 }
    ensures { result ≡ digit_glyph false number }
{
    if number < 10 {
        b'0' + number
    } else {
        b'a' + (number - 10)
    }
}

/// A byte that has no character of its own.
fn write_numbered(out: &mut Vec<u8>, byte: u8) -> Result<(), NoMemory>
    ensures { OnOk result (out.new.items ≡ out.old.items ++ numbered byte) }
{
    write(out, &[b'\\', b'x', digit(byte / 16 % 16), digit(byte % 16)])
}

fn write_byte(out: &mut Vec<u8>, byte: u8) -> Result<(), NoMemory>
    ensures { OnOk result (out.new.items ≡ out.old.items ++ byte_text byte) }
{
    if has_own_character(byte) {
        write_character(out, byte)
    } else {
        write_numbered(out, byte)
    }
}

/// Words: a byte that has no character is shown by its number.
pub(crate) fn write_words(out: &mut Vec<u8>, words: &[u8]) -> Result<(), NoMemory>
    ensures { OnOk result (out.new.items ≡ out.old.items ++ words_text words.now) }
{
    for byte in words {
        write_byte(out, *byte)?;
    }
    Ok(())
}

/// Which part of words stands at their point.
#[tactic(auto, unfolding(crate::specs::Words::anchor_name))]
fn write_anchor_name(out: &mut Vec<u8>, anchor: Anchor) -> Result<(), NoMemory>
    ensures { OnOk result (out.new.items ≡ out.old.items ++ anchor_name anchor) }
{
    match anchor {
        Anchor::Start => write(out, b"start"),
        Anchor::Middle => write(out, b"middle"),
        Anchor::End => write(out, b"end"),
    }
}

/// Which part of words stands at their point.
#[tactic(auto, unfolding(crate::specs::Texts::anchor_text))]
pub(crate) fn write_anchor(out: &mut Vec<u8>, anchor: Anchor) -> Result<(), NoMemory>
    ensures { OnOk result (out.new.items ≡ out.old.items ++ anchor_text anchor) }
{
    write(out, b" text-anchor=\"")?;
    write_anchor_name(out, anchor)?;
    write(out, b"\"")
}

fn write_point(out: &mut Vec<u8>, point: Point) -> Result<(), NoMemory>
    ensures { OnOk result (out.new.items ≡ out.old.items ++ point_text point) }
{
    write_number(out, point.x as u64)?;
    write(out, b" ")?;
    write_number(out, point.y as u64)
}

fn write_stroke(out: &mut Vec<u8>, stroke: Stroke) -> Result<(), NoMemory>
    ensures { OnOk result (out.new.items ≡ out.old.items ++ stroke_text stroke) }
{
    match stroke {
        Stroke::Move(point) => {
            write(out, b"M")?;
            write_point(out, point)
        }
        Stroke::Line(point) => {
            write(out, b"L")?;
            write_point(out, point)
        }
        Stroke::Curve(first, second, point) => {
            write(out, b"C")?;
            write_point(out, first)?;
            write(out, b" ")?;
            write_point(out, second)?;
            write(out, b" ")?;
            write_point(out, point)
        }
        Stroke::Close => write(out, b"Z"),
    }
}

/// The strokes of a path.
pub(crate) fn write_strokes(out: &mut Vec<u8>, strokes: &[Stroke]) -> Result<(), NoMemory>
    ensures { OnOk result (out.new.items ≡ out.old.items ++ strokes_text strokes.now) }
{
    for stroke in strokes {
        write_stroke(out, *stroke)?;
    }
    Ok(())
}

fn write_further(out: &mut Vec<u8>, effect: u64) -> Result<(), NoMemory>
    ensures { OnOk result (out.new.items ≡ out.old.items ++ effect_text effect) }
{
    if effect == 0 {
        return Ok(());
    }
    write(out, b".")?;
    write_number(out, effect)
}

/// The place of a line: the number of its step, and which effect it is.
#[tactic(auto, unfolding(crate::specs::Words::place_text))]
pub(crate) fn write_place(out: &mut Vec<u8>, step: u64, effect: u64) -> Result<(), NoMemory>
    ensures { OnOk result (out.new.items ≡ out.old.items ++ place_text step effect) }
{
    write(out, b"s")?;
    write_number(out, step)?;
    write_further(out, effect)
}
