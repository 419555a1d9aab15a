ghost use Rattle.std.specs.Prelude.{◌≡◌, ◌+◌, ◌≤◌, ◌++◌, [], ◌∷◌, ◌*◌, length, decimal, take};
ghost use Rattle.command_words.specs.Lines.{line_most, name_most, named_list, printable, shown};

use crate::word::Word;
use arrayvec::ArrayVec;
use itoa::Buffer;
use std::marker::Model;

/// The most bytes of a line.
const MOST: usize = 512;

/// The most bytes that are shown of what a user wrote.
const SHOWN_MOST: usize = 64;

/// A line that is made without memory. Contracts see its bytes.
#[derive(Drop)]
pub struct Line {
    text: ArrayVec<u8, MOST>,
}

impl Model for Line {
    ghost use Rattle.std.specs.Prelude.{List, ℕ};

    ghost Value = { List ℕ };

    ghost view = { λ line. line.text.items };
}

/// A byte where it is a printable character of ASCII, else `?`.
fn printable(byte: u8) -> u8
    ensures { result ≡ printable byte }
{
    if (b' '..=b'~').contains(&byte) {
        byte
    } else {
        b'?'
    }
}

/// The first bytes, as many as are shown.
fn cut(bytes: &[u8]) -> &[u8]
    ensures cut { result.now ≡ take 64 bytes.now }
    ensures few { length result.now ≤ 64 }
{
    if bytes.len() <= SHOWN_MOST {
        bytes
    } else {
        &bytes[..SHOWN_MOST]
    }
}

impl Line {
    /// Without bytes.
    pub fn new() -> Line
        ensures { result ≡ [] }
    {
        Line {
            text: ArrayVec::new(),
        }
    }

    /// The bytes.
    pub fn bytes(&self) -> &[u8]
        ensures { result.now ≡ self.now }
    {
        self.text.as_slice()
    }

    /// A text at the end, for which the line has room.
    pub fn push(&mut self, text: &str)
        requires room { length self.old + length text.now ≤ line_most }
        ensures text { self.new ≡ self.old ++ text.now }
    {
        let _ = self.text.try_extend_from_slice(text.as_bytes());
    }

    /// A number at the end, in decimal digits.
    pub fn push_number(&mut self, number: u64)
        requires room { length self.old + 20 ≤ line_most }
        ensures digits { self.new ≡ self.old ++ decimal number }
        ensures few { length self.new ≤ length self.old + 20 }
    {
        let mut buffer = Buffer::new();
        self.push(buffer.format(number));
    }

    fn push_byte(&mut self, byte: u8)
        requires room { length self.old + 1 ≤ line_most }
        ensures { self.new ≡ self.old ++ byte ∷ [] }
    {
        let _ = self.text.try_push(byte);
    }

    /// The first 64 bytes of what a user wrote, with `?` for each that can't be printed.
    pub fn push_shown(&mut self, word: &str)
        requires room { length self.old + 64 ≤ line_most }
        ensures shown { self.new ≡ self.old ++ shown word.now }
        ensures few { length self.new ≤ length self.old + 64 }
    {
        let cut = cut(word.as_bytes());
        for byte in cut {
            self.push_byte(printable(*byte));
        }
    }

    /// The names of words, each behind a space.
    pub fn push_names(&mut self, words: &[Word])
        requires room { length self.old + name_most * length words.now ≤ line_most }
        ensures names { self.new ≡ self.old ++ named_list words.now }
        ensures few { length self.new ≤ length self.old + name_most * length words.now }
    {
        for word in words {
            self.push(" ");
            self.push(word.name());
        }
    }

    /// Two texts at the end.
    pub fn push_pair(&mut self, one: &str, two: &str)
        requires room { length self.old + length one.now + length two.now ≤ line_most }
        ensures pair { self.new ≡ self.old ++ one.now ++ two.now }
    {
        self.push(one);
        self.push(two);
    }

    /// A text between two others at the end.
    pub fn push_between(&mut self, before: &str, text: &str, after: &str)
        requires room { length self.old + length before.now + length text.now + length after.now
            ≤ line_most }
        ensures between { self.new ≡ self.old ++ before.now ++ text.now ++ after.now }
    {
        self.push(before);
        self.push(text);
        self.push(after);
    }

    /// A text and a number at the end.
    pub fn push_numbered(&mut self, text: &str, number: u64)
        requires room { length self.old + length text.now + 20 ≤ line_most }
        ensures numbered { self.new ≡ self.old ++ text.now ++ decimal number }
        ensures few { length self.new ≤ length self.old + length text.now + 20 }
    {
        self.push(text);
        self.push_number(number);
    }

    /// A text and the names of words at the end.
    pub fn push_listed(&mut self, text: &str, words: &[Word])
        requires room { length self.old + length text.now + name_most * length words.now
            ≤ line_most }
        ensures listed { self.new ≡ self.old ++ text.now ++ named_list words.now }
        ensures few { length self.new
            ≤ length self.old + length text.now + name_most * length words.now }
    {
        self.push(text);
        self.push_names(words);
    }
}
