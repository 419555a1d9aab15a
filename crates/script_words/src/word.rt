ghost use Rattle.std.specs.Prelude.{◌≡◌, ◌==◌, ◌<◌, ◌≤◌, ◌-◌, ◌++◌, [], ◌∷◌, length, take};
ghost use Rattle.std.specs.Prelude.{replicate};
ghost use Rattle.script_words.specs.Faults.{word_limit};
ghost use Rattle.script_words.specs.Failures.{shown, shown_byte};

use arrayvec::ArrayString;
use std::fmt;
use std::marker::Model;

/// The most bytes of a word that are kept.
const WORD_MOST: usize = 64;

/// The front of a word of a line, at most 64 bytes, which lie in the value itself. Contracts see
/// these bytes.
#[derive(Clone, Copy, PartialEq, Eq, Hash)]
pub struct Word {
    /// The bytes, and zeros behind them.
    bytes: [u8; 64],
    len: u8,
}

impl Model for Word {
    ghost use Rattle.std.specs.Prelude.{◌≡◌, ◌≤◌, ◌-◌, ◌++◌, List, ℕ, length, take, drop};
    ghost use Rattle.std.specs.Prelude.{replicate};
    ghost use Rattle.std.proofs.Common.{sym, ◌∙◌, ap, arith, length-take-le, take-append-drop};

    ghost Value = { List ℕ };

    ghost view = { λ w. take w.len w.bytes };

    ghost invariant = { λ w. (w.len ≤ 64) × (length w.bytes ≡ 64)
        × (drop w.len w.bytes ≡ replicate (64 - w.len) 0) };

    ghost inverse = { λ v. record {
      bytes = v ++ replicate (64 - length v) 0;
      len = length v;
    } };

    ghost inverse_ok = { λ w h i. record {
      bytes =
          (ap (λ (k : ℕ). take w.len w.bytes ++ replicate (64 - k) 0)
          (length-take-le w.len w.bytes (omega (arith, h.0, h.1)))
          ∙ ap (λ (zeros : List ℕ). take w.len w.bytes ++ zeros) (sym h.2)
          ∙ take-append-drop w.len w.bytes) i;
      len = length-take-le w.len w.bytes (omega (arith, h.0, h.1)) i;
    } };
}

/// The first bytes of a word, at most 64.
fn front_of(word: &[u8]) -> &[u8]
    ensures front { result.now ≡ take word_limit word.now }
    ensures few { length result.now ≤ word_limit }
{
    if word.len() > WORD_MOST {
        &word[..WORD_MOST]
    } else {
        word
    }
}

/// At most 64 bytes, with zeros behind them.
fn padded(front: &[u8]) -> [u8; 64]
    requires { length front.now ≤ 64 }
    ensures { result ≡ front.now ++ replicate (64 - length front.now) 0 }
{
    let mut bytes = [0; 64];
    bytes[..front.len()].copy_from_slice(front);
    bytes
}

/// A printable byte, or `?` in place of another.
fn shown_byte(byte: u8) -> u8
    ensures shown { result ≡ shown_byte byte }
    ensures ascii { result < 128 }
{
    if b' ' <= byte && byte <= b'~' {
        byte
    } else {
        b'?'
    }
}

/// Writes a byte behind a text.
fn push_shown(text: &mut ArrayString<64>, byte: u8)
    requires { length text.old.bytes < 64 }
    ensures { text.new.bytes ≡ text.old.bytes ++ shown_byte byte ∷ [] }
{
    let _ = text.try_push(char::from(shown_byte(byte)));
}

/// The bytes as text, with `?` for each that isn't printable.
fn shown_text(bytes: &[u8]) -> ArrayString<64>
    requires { length bytes.now ≤ 64 }
    ensures { result.bytes ≡ shown bytes.now }
{
    let mut text = ArrayString::new();
    for byte in bytes {
        push_shown(&mut text, *byte);
    }
    text
}

impl Word {
    /// The front of a word.
    #[tactic(auto, using(crate::proofs::Padding::padding))]
    pub(crate) fn of(word: &[u8]) -> Word
        ensures { result ≡ take word_limit word.now }
    {
        let front = front_of(word);
        Word {
            bytes: padded(front),
            len: front.len() as u8,
        }
    }

    /// The bytes that were kept of the word: the first 64 at most.
    pub fn bytes(&self) -> &[u8]
        ensures bytes { result.now ≡ self.now }
        ensures few { length result.now ≤ word_limit }
    {
        &self.bytes[..self.len as usize]
    }

    /// Whether the word has no bytes.
    pub fn is_empty(&self) -> bool
        ensures { result ≡ (length self.now == 0) }
    {
        self.len == 0
    }

    /// The bytes as text, with `?` for each that isn't printable.
    pub fn text(&self) -> ArrayString<64>
        ensures { result.bytes ≡ shown self.now }
    {
        shown_text(self.bytes())
    }
}

impl fmt::Debug for Word {
    fn fmt<W: fmt::Write>(&self, f: &mut fmt::Formatter<W>) -> fmt::Result {
        fmt::Debug::fmt(&self.text(), f)
    }
}
