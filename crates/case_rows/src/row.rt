//! A row: what the program is given, and how it ends.

use crate::facts::Fact;
use linx_files::MakeFault;
use linx_outside::OpenFault;
use std::alloc::Global;

/// The most bytes of a text that is looked at.
const TEXT_MOST: usize = 262_144;

/// How bytes come and go: so many a call, of which these fail, one each time.
#[derive(Clone, Copy)]
pub struct Pace {
    pub most: usize,
    pub first_bad: u64,
    pub last_bad: u64,
}

/// What the program is given.
#[derive(Drop)]
pub struct Given {
    /// The command lines, as they are spelled.
    pub words: Vec<String>,
    /// The name by which it is called.
    pub called: String,
    /// Memory is refused for the words.
    pub unread: bool,
    pub input: Vec<u8>,
    pub reads: Pace,
    /// The name of the file that can be read.
    pub file: String,
    pub content: Vec<u8>,
    pub unopened: Option<OpenFault>,
    /// The name of the file that can be made.
    pub keeps: String,
    pub keeps_room: usize,
    pub unmade: Option<MakeFault>,
    pub writes: Pace,
    pub room: usize,
    pub line_room: usize,
}

/// How the text is looked at.
#[derive(Clone, Copy, PartialEq, Eq)]
pub enum Text {
    /// It is this one.
    Whole,
    /// It begins so.
    Front,
    /// Some of its lines are.
    Facts,
}

/// How the program ends.
#[derive(Drop)]
pub struct Wanted {
    pub exit: u8,
    pub line: Vec<u8>,
    /// Only the front of its line is told.
    pub is_line_front: bool,
    pub text: Vec<u8>,
    pub looked_at: Text,
    pub facts: Vec<Fact>,
    /// What the file has that was made.
    pub kept: Vec<u8>,
    pub is_made: bool,
}

/// A row, with its name.
#[derive(Drop)]
pub struct Row {
    pub name: String,
    pub given: Given,
    pub wanted: Wanted,
}

impl Pace {
    /// As many as there are, and no call fails.
    fn whole() -> Pace {
        Pace {
            most: TEXT_MOST,
            first_bad: 0,
            last_bad: 0,
        }
    }
}

impl Given {
    /// Nothing.
    fn nothing(alloc: Global) -> Given {
        Given {
            words: Vec::new(alloc),
            called: String::new(alloc),
            unread: false,
            input: Vec::new(alloc),
            reads: Pace::whole(),
            file: String::new(alloc),
            content: Vec::new(alloc),
            unopened: None,
            keeps: String::new(alloc),
            keeps_room: 0,
            unmade: None,
            writes: Pace::whole(),
            room: TEXT_MOST,
            line_room: TEXT_MOST,
        }
    }
}

impl Wanted {
    /// It ends with 0, and writes nothing.
    fn nothing(alloc: Global) -> Wanted {
        Wanted {
            exit: 0,
            line: Vec::new(alloc),
            is_line_front: false,
            text: Vec::new(alloc),
            looked_at: Text::Whole,
            facts: Vec::new(alloc),
            kept: Vec::new(alloc),
            is_made: false,
        }
    }
}

impl Row {
    /// A row of which nothing is said yet.
    pub(crate) fn named(alloc: Global, name: &str) -> anyhow::Result<Row> {
        Ok(Row {
            name: String::from_str(alloc, name)?,
            given: Given::nothing(alloc),
            wanted: Wanted::nothing(alloc),
        })
    }
}
