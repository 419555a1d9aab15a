//! How a run ends.

use command_words::Misuse;
use journal::Journal;
use journal_check::Fault as LawFault;
use linx_files::MakeFault;
use linx_outside::OpenFault;
use script_lang::Fault;

/// What is wrong with a printed text that is read.
#[derive(Clone, Copy, Debug, PartialEq, Eq, Hash)]
pub enum TextFault {
    /// The first line, from 1, that no printed text has there.
    Bad { line: u64 },
    /// The first line, from 1, with which the steps note more bytes of signals than those of four
    /// full journals.
    Full { line: u64 },
    /// The text has more than 268,435,456 bytes.
    Long,
    /// A chart of it would have more than 6,000 rows.
    Rows,
    /// A chart of it would have more than 64 nodes, links or actors.
    Lanes,
    /// No line `text` stands behind the script.
    Missing,
    /// The first line, from 1, that isn't that of the logs which its steps tell.
    Log { line: u64 },
}

/// How a printed text shows that no run of a script has it.
#[derive(Clone, Copy, Debug, PartialEq, Eq, Hash)]
pub enum Unlike {
    /// The first line, from 1, that isn't that of the run which its turns make.
    Line { line: u64 },
    /// Its turns fill the journal before all is over.
    Filled,
}

/// How a run ended.
#[derive(Clone, Copy, Debug, PartialEq, Eq, Hash)]
pub enum Status {
    /// All actors have ended, no link stirs, and the text, or the summary, was written; or a page of
    /// the help was.
    Done,
    /// The words ask for nothing, and what is wrong with them.
    Usage(Misuse),
    /// The bytes are no script: the first bad line, from 1, and what is wrong with it.
    Script { line: u32, fault: Fault },
    /// The file that the words name can't be opened.
    Unopened(OpenFault),
    /// The file in which the words keep a journal can't be made.
    Unmade(MakeFault),
    /// A write into that file failed. A front of the journal's text was written.
    Unkept,
    /// The source failed.
    ReadFault,
    /// The sink failed. A front of the text, or of the summary, was written.
    WriteFault,
    /// An actor or a link had a turn to take while the journal was full.
    JournalFull,
    /// Memory was refused.
    NoMemory,
    /// The source of an echo or a gateway ended within the frame or the request that begins at this byte.
    Torn { at: u64 },
    /// The bytes of such a source from this one on begin no frame or request, or a frame that breaks
    /// the rules.
    BadStream { at: u64 },
    /// No run has what is sought.
    FoundNone,
    /// The bytes are no printed text, or one that is too large.
    Text(TextFault),
    /// No run of the script has the text.
    Unlike(Unlike),
    /// The text is that of no legal run: its first step that isn't, and the law that it breaks.
    Illegal(LawFault),
}

/// How a run ended, and its journal so far.
#[derive(Drop)]
pub struct Outcome {
    pub status: Status,
    pub journal: Journal,
}
