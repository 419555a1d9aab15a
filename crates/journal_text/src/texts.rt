//! Texts that are kept by number while they grow.
ghost use Rattle.std.specs.Prelude.{◌≡◌, []};
ghost use Rattle.journal_text.specs.Texts.{kept};

use std::alloc::Global;
use std::collections::HashMap;
use std::marker::Model;

/// Bytes that grow at their end.
#[derive(Drop)]
pub(crate) struct Text {
    pub(crate) bytes: Vec<u8>,
}

impl Model for Text {
    ghost use Rattle.std.specs.Prelude.{List, ℕ};

    ghost Value = { List ℕ };

    ghost view = { λ t. t.bytes.items };
}

impl Text {
    /// One with no bytes.
    pub(crate) fn new(alloc: Global) -> Text
        ensures { result ≡ [] }
    {
        Text {
            bytes: Vec::new(alloc),
        }
    }

    /// The digits.
    pub(crate) fn bytes(&self) -> &[u8]
        ensures { result.now ≡ self.now }
    {
        self.bytes.as_slice()
    }
}

pub(crate) type Texts = HashMap<u64, Text>;

/// The text of a number.
pub(crate) fn kept_at(texts: &Texts, number: u64) -> &[u8]
    ensures { result.now ≡ kept texts.now number }
{
    match texts.get(&number) {
        Some(text) => text.bytes(),
        None => &[],
    }
}
