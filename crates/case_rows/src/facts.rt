//! What of a text is looked at where it isn't told whole.

use anyhow::Result;
use std::alloc::Global;
use std::str;

/// A fact of a text.
#[derive(Drop)]
pub enum Fact {
    /// Of the part whose first line begins so, the lines that begin with one of these.
    Part {
        first: String,
        kinds: String,
        lines: Vec<u8>,
    },
    /// So many lines end so.
    Count {
        count: usize,
        end: String,
    },
}

/// Whether a line begins with these words.
fn begins(line: &str, words: &str) -> bool {
    match line.strip_prefix(words) {
        Some(behind) => behind.is_empty() || behind.starts_with(' '),
        None => false,
    }
}

/// Whether a line ends with these words.
fn ends(line: &str, words: &str) -> bool {
    match line.strip_suffix(words) {
        Some(before) => before.is_empty() || before.ends_with(' '),
        None => false,
    }
}

/// Whether a line is of one of some kinds, which `|` stands between; without a kind any is.
fn is_of_kind(line: &str, kinds: &str) -> bool {
    kinds.is_empty() || kinds.split('|').any(|kind| begins(line, kind.trim()))
}

/// Whether a word is the one that is wanted, or one of those that are.
fn is_word(word: Option<&str>, wanted: &str) -> bool {
    match word {
        Some(word) => wanted.split('|').any(|one| one == word),
        None => false,
    }
}

/// Whether a line has the words that are wanted.
fn is_line(line: &str, wanted: &str) -> bool {
    let mut words = line.split(' ');
    let are_same = wanted.split(' ').all(|word| is_word(words.next(), word));
    are_same && words.next().is_none()
}

/// Whether a line is the next one that is wanted.
fn is_next(wanted: Option<&str>, line: &str) -> bool {
    match wanted {
        Some(wanted) => is_line(line, wanted),
        None => false,
    }
}

/// Whether the lines of some kinds, in the part that begins so, are these and no others.
fn has_part(text: &str, first: &str, kinds: &str, lines: &str) -> bool {
    let mut wanted = lines.lines();
    let mut is_within = false;
    for line in text.lines() {
        if begins(line, "log") || begins(line, "journal") {
            is_within = begins(line, first.trim());
        }
        if is_within && is_of_kind(line, kinds) && !is_next(wanted.next(), line) {
            return false;
        }
    }
    wanted.next().is_none()
}

/// Whether a fact is one of a text.
fn holds(fact: &Fact, text: &str) -> bool {
    match fact {
        Fact::Part {
            first,
            kinds,
            lines,
        } => match str::from_utf8(lines.as_slice()) {
            Ok(lines) => has_part(text, first.as_str(), kinds.as_str(), lines),
            Err(_) => false,
        },
        Fact::Count { count, end } => {
            text.lines().filter(|line| ends(line, end.as_str())).count() == *count
        }
    }
}

/// What a fact is about.
fn about(alloc: Global, fact: &Fact) -> Result<String> {
    match fact {
        Fact::Part { first, kinds, .. } => Ok(format!(in alloc; "the lines{kinds} of {first}")?),
        Fact::Count { count, end } => Ok(format!(in alloc; "{count} lines that end with {end}")?),
    }
}

/// The first of some facts that a text lacks.
pub fn lacks(alloc: Global, facts: &[Fact], text: &[u8]) -> Result<Option<String>> {
    let Ok(text) = str::from_utf8(text) else {
        return Ok(Some(String::from_str(alloc, "it is no text")?));
    };
    for fact in facts {
        if !holds(fact, text) {
            return Ok(Some(about(alloc, fact)?));
        }
    }
    Ok(None)
}
