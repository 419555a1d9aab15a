//! What one line says of a row.

use crate::block::Block;
use crate::facts::Fact;
use crate::row::{Given, Pace, Row, Text, Wanted};
use crate::spelling::{number, push_spelled, size};
use anyhow::{Context, Result, bail};
use linx_files::MakeFault;
use linx_outside::OpenFault;

/// Why a file can't be opened.
fn open_fault(why: &str) -> Result<OpenFault> {
    match why {
        "missing" => Ok(OpenFault::Missing),
        "a-folder" => Ok(OpenFault::Folder),
        "not-allowed" => Ok(OpenFault::NotAllowed),
        "other" => Ok(OpenFault::Other),
        _ => bail!("no file can't be opened for this reason"),
    }
}

/// Why a file can't be made.
fn make_fault(why: &str) -> Result<MakeFault> {
    match why {
        "a-folder" => Ok(MakeFault::Folder),
        "not-allowed" => Ok(MakeFault::NotAllowed),
        "other" => Ok(MakeFault::Other),
        _ => bail!("no file can't be made for this reason"),
    }
}

/// A name, and what is said of it.
fn name_and_more(said: &str) -> Result<(&str, &str)> {
    said.split_once(' ')
        .context("a word is missing behind a name")
}

impl Pace {
    /// The calls that fail.
    fn fail(&mut self, said: &str) -> Result<()> {
        let (first, last) = said.split_once(' ').context("the last call is missing")?;
        self.first_bad = number(first)?;
        self.last_bad = number(last)?;
        Ok(())
    }
}

impl Given {
    /// A file that can be made.
    fn keep(&mut self, said: &str) -> Result<()> {
        let (name, room) = name_and_more(said)?;
        self.keeps.push_str(name)?;
        self.keeps_room = size(room)?;
        Ok(())
    }

    /// A file that can't be opened.
    fn not_open(&mut self, said: &str) -> Result<()> {
        let (name, why) = name_and_more(said)?;
        self.file.push_str(name)?;
        self.unopened = Some(open_fault(why)?);
        Ok(())
    }

    /// A file that can't be made.
    fn not_make(&mut self, said: &str) -> Result<()> {
        let (name, why) = name_and_more(said)?;
        self.keeps.push_str(name)?;
        self.unmade = Some(make_fault(why)?);
        Ok(())
    }

    /// A command line.
    fn under(&mut self, said: &str) -> Result<()> {
        let mut line = String::new(*self.words.allocator());
        line.push_str(said)?;
        self.words.push(line)?;
        Ok(())
    }

    /// What a line says of what is given, by its first word.
    fn say(&mut self, what: &str, said: &str) -> Result<()> {
        match what {
            "words" => self.under(said)?,
            "called" => self.called.push_str(said)?,
            "unread" => self.unread = true,
            "unopened" => self.not_open(said)?,
            "keeps" => self.keep(said)?,
            "unmade" => self.not_make(said)?,
            "reads" => self.reads.most = size(said)?,
            "bad-reads" => self.reads.fail(said)?,
            "writes" => self.writes.most = size(said)?,
            "bad-writes" => self.writes.fail(said)?,
            "room" => self.room = size(said)?,
            "line-room" => self.line_room = size(said)?,
            _ => bail!("no line of a row begins so"),
        }
        Ok(())
    }
}

impl Wanted {
    /// A part of the text.
    fn part(&mut self, said: &str) -> Result<()> {
        let alloc = *self.facts.allocator();
        let (first, kinds) = said.split_once('|').unwrap_or((said, ""));
        let fact = Fact::Part {
            first: String::from_str(alloc, first)?,
            kinds: String::from_str(alloc, kinds)?,
            lines: Vec::new(alloc),
        };
        self.looked_at = Text::Facts;
        self.facts.push(fact)?;
        Ok(())
    }

    /// A count of lines.
    fn count(&mut self, said: &str) -> Result<()> {
        let (count, end) = said
            .split_once(' ')
            .context("the end of the lines is missing")?;
        let fact = Fact::Count {
            count: size(count)?,
            end: String::from_str(*self.facts.allocator(), end)?,
        };
        self.looked_at = Text::Facts;
        self.facts.push(fact)?;
        Ok(())
    }

    /// The exit status.
    fn exit(&mut self, said: &str) -> Result<()> {
        self.exit = said.parse().ok().context("no exit status")?;
        Ok(())
    }

    /// The line on standard error.
    fn line(&mut self, said: &str, is_front: bool) -> Result<()> {
        self.is_line_front = is_front;
        push_spelled(&mut self.line, said)?;
        if !is_front {
            self.line.push(b'\n')?;
        }
        Ok(())
    }
}

impl Row {
    /// A line that says how the program ends, and begins no block; others say what it is given.
    fn say_one(&mut self, what: &str, said: &str) -> Result<()> {
        match what {
            "exit" => self.wanted.exit(said),
            "line" => self.wanted.line(said, false),
            "line-front" => self.wanted.line(said, true),
            "count" => self.wanted.count(said),
            _ => self.given.say(what, said),
        }
    }

    /// What a line says of the row, by its first word, and the block that it begins.
    pub(crate) fn say(&mut self, what: &str, said: &str) -> Result<Block> {
        match what {
            "input" => Ok(Block::Input),
            "text" => Ok(Block::Text),
            "file" => {
                self.given.file.push_str(said)?;
                Ok(Block::File)
            }
            "front" => {
                self.wanted.looked_at = Text::Front;
                Ok(Block::Text)
            }
            "kept" => {
                self.wanted.is_made = true;
                Ok(Block::Kept)
            }
            "part" => {
                self.wanted.part(said)?;
                Ok(Block::Part)
            }
            _ => {
                self.say_one(what, said)?;
                Ok(Block::Nothing)
            }
        }
    }
}
