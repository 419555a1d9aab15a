//! The pages of the help.
ghost use Rattle.std.specs.Prelude.{◌≡◌, ◌++◌, flat_map, IfOk, OnOk};
ghost use Rattle.command_words.specs.Pages.{example_lines, example_title, help_page, page_foot};
ghost use Rattle.command_words.specs.Pages.{page_head, page_of, pages_line, word_page};

use crate::word::{Said, WORDS, Word};
use linx_base::NoMemory;
use std::alloc::Global;

/// A page of the help.
#[derive(Clone, Copy, Debug, PartialEq, Eq, Hash)]
pub enum Page {
    /// That of all words.
    All,
    /// That of a word.
    Of(Word),
    /// The version.
    Version,
}

/// What stands above the words.
#[tactic(auto, unfolding(crate::specs::Pages::page_head))]
fn head() -> &'static str
    ensures { result.now ≡ page_head }
{
    "linx_sim plays a script of nodes, links and actors by the rules of Enea LINX, and\n\
    writes everything that happened.\n\n"
}

/// What stands below the words.
#[tactic(auto, unfolding(crate::specs::Pages::page_foot))]
fn foot() -> &'static str
    ensures { result.now ≡ page_foot }
{
    "\n\
    FILE is a script, under order a printed text, under replay and check both, under\n\
    chart a text or both; without it, or where it is -, standard input is read.\n\
    `linx_sim help WORD` says more of a word.\n\n\
    exit status:\n  \
    0  done\n  \
    1  the words ask for nothing\n  \
    2  the bytes are no script\n  \
    3  the script can't be read\n  \
    4  the text can't be written\n  \
    5  the journal is full before the run is over\n  \
    6  memory was refused\n  \
    7  what is sought isn't found, or the text is no run's, or no legal run's\n  \
    8  the bytes are no printed text, or one that is too large\n  \
    9  a stream ended within a frame or a request\n  \
    11 the bytes of a stream are no frame or request, or break the rules\n\n\
    The manual is docs/use/linx_sim.1, or `man linx_sim` once it is installed.\n"
}

/// The lines of a word on the page of all.
#[tactic(auto, unfolding(crate::specs::Pages::pages_line))]
fn push_line(text: &mut Vec<u8>, word: Word) -> Result<(), NoMemory>
    ensures { OnOk result (text.new.items ≡ text.old.items ++ pages_line word) }
{
    let Said { usage, line, .. } = word.said();
    text.extend_from_slice(b"  ")?;
    text.extend_from_slice(usage.as_bytes())?;
    text.extend_from_slice(b"\n      ")?;
    text.extend_from_slice(line.as_bytes())?;
    text.extend_from_slice(b"\n")?;
    Ok(())
}

/// The lines of words.
fn push_lines(text: &mut Vec<u8>, words: &[Word]) -> Result<(), NoMemory>
    ensures { OnOk result (text.new.items ≡ text.old.items ++ flat_map pages_line words.now) }
{
    for word in words {
        push_line(text, *word)?;
    }
    Ok(())
}

/// The page of all words.
#[tactic(auto, unfolding(crate::specs::Pages::help_page))]
fn push_all(text: &mut Vec<u8>) -> Result<(), NoMemory>
    ensures { OnOk result (text.new.items ≡ text.old.items ++ help_page) }
{
    text.extend_from_slice(head().as_bytes())?;
    push_lines(text, &WORDS)?;
    text.extend_from_slice(foot().as_bytes())?;
    Ok(())
}

/// What stands above an example.
#[tactic(auto, unfolding(crate::specs::Pages::example_title))]
fn example_title() -> &'static str
    ensures { result.now ≡ example_title }
{
    "\nexample:\n  "
}

/// The example of a word.
#[tactic(auto, unfolding(crate::specs::Pages::example_lines))]
fn push_example(text: &mut Vec<u8>, example: &str) -> Result<(), NoMemory>
    ensures { OnOk result (text.new.items ≡ text.old.items ++ example_lines example.now) }
{
    text.extend_from_slice(example_title().as_bytes())?;
    text.extend_from_slice(example.as_bytes())?;
    text.extend_from_slice(b"\n")?;
    Ok(())
}

/// The page of a word.
#[tactic(auto, unfolding(crate::specs::Pages::word_page))]
fn push_word(text: &mut Vec<u8>, word: Word) -> Result<(), NoMemory>
    ensures { OnOk result (text.new.items ≡ text.old.items ++ word_page word) }
{
    let Said {
        usage,
        paragraph,
        example,
        ..
    } = word.said();
    text.extend_from_slice(b"linx_sim ")?;
    text.extend_from_slice(usage.as_bytes())?;
    text.extend_from_slice(b"\n\n")?;
    text.extend_from_slice(paragraph.as_bytes())?;
    push_example(text, example)
}

impl Page {
    /// The text of a page.
    pub fn text(self, alloc: Global) -> Result<Vec<u8>, NoMemory>
        ensures { IfOk result (λ text. text.items ≡ page_of self) }
    {
        let mut text = Vec::new(alloc);
        match self {
            Page::All => push_all(&mut text)?,
            Page::Of(word) => push_word(&mut text, word)?,
            Page::Version => text.extend_from_slice(b"linx_sim 1.0\n")?,
        }
        Ok(text)
    }
}
