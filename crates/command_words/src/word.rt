//! The table of the words.
ghost use Rattle.std.specs.Prelude.{◌≡◌, ◌≤◌, length};
ghost use Rattle.command_words.specs.Words.{called, is_help_flag, is_version_flag, named, said_of};

/// A word of the command line, by what it asks for.
#[derive(Clone, Copy, Debug, PartialEq, Eq, Hash)]
pub enum Word {
    /// The run of a script with threads.
    Run,
    /// The run of a script in the fixed order.
    Serial,
    /// The run of a script in the order that a number decides.
    Seed,
    /// The first of some orders whose run shows what is sought.
    Find,
    /// What comes of a script in some orders.
    Seeds,
    /// The order of a printed run.
    Order,
    /// Whether a printed run is one of a script.
    Replay,
    /// Whether a printed run is legal.
    Check,
    /// The picture of a printed run.
    Chart,
    /// The run of a generated script.
    Gen,
    /// An echo over the program's streams.
    Stream,
    /// A gateway for clients over the program's streams.
    Gateway,
    /// The help.
    Help,
    /// The version.
    Version,
}

/// All words, in the order of the help.
pub const WORDS: [Word; 14] = [
    Word::Run,
    Word::Serial,
    Word::Seed,
    Word::Find,
    Word::Seeds,
    Word::Order,
    Word::Replay,
    Word::Check,
    Word::Chart,
    Word::Gen,
    Word::Stream,
    Word::Gateway,
    Word::Help,
    Word::Version,
];

/// What is said of a word: a row of the table.
#[derive(Drop)]
pub struct Said {
    pub name: &'static str,
    pub usage: &'static str,
    pub line: &'static str,
    pub paragraph: &'static str,
    pub example: &'static str,
}

impl Word {
    /// The row of the word.
    #[tactic(auto, unfolding(crate::specs::Words::said_of))]
    pub fn said(self) -> Said
        ensures name { result.name.now ≡ (said_of self).name }
        ensures usage { result.usage.now ≡ (said_of self).usage }
        ensures line { result.line.now ≡ (said_of self).line }
        ensures paragraph { result.paragraph.now ≡ (said_of self).paragraph }
        ensures example { result.example.now ≡ (said_of self).example }
    {
        match self {
            Word::Run => Said {
                name: "run",
                usage: "run [FILE]",
                line: "play a script with a thread for each actor and each link",
                paragraph: "Reads a script from FILE, or from standard input, plays it with a thread for each\n\
                    actor and each link, and writes the log of each endpoint and the journal of all\n\
                    steps. The threads take turns in any order, so the text may differ each time.\n",
                example: "linx_sim run examples/losses.linx",
            },
            Word::Serial => Said {
                name: "serial",
                usage: "serial [FILE]",
                line: "play a script in the fixed order of rounds",
                paragraph: "Reads a script from FILE, or from standard input, plays it in the fixed order of\n\
                    rounds, and writes the same kind of text as run. It is the same each time.\n",
                example: "linx_sim serial < examples/losses.linx",
            },
            Word::Seed => Said {
                name: "seed",
                usage: "seed S [FILE]",
                line: "play a script in the order that a number decides",
                paragraph: "Plays a script as serial does, but in an order that the number S decides, which has\n\
                    one to ten decimal digits and is at most 4294967295. The text is the same each time\n\
                    for one S; other numbers have other orders.\n",
                example: "linx_sim seed 7 examples/losses.linx",
            },
            Word::Find => Said {
                name: "find",
                usage: "find A B [progress] [in FILE] [not] WORD ..",
                line: "find the first number from A to B whose run has a line of these words",
                paragraph: "Plays a script as seed does, in the orders of the numbers A, A + 1, .. B, a million at\n\
                    most, and writes the first one whose text has a line that begins with these words, and\n\
                    the line. There are one to eight words; _ stands for any. What a line begins with is\n\
                    what stands behind the number and the maker of a step, or the + of an effect. With not\n\
                    it writes the first one whose text has no such line. Where there is none it exits 7.\n\
                    With progress a line on standard error says each second how many runs were made.\n",
                example: "linx_sim find 1 1000 in examples/losses.linx notified _ _ _ dead",
            },
            Word::Seeds => Said {
                name: "seeds",
                usage: "seeds A B [progress] [FILE]",
                line: "report what comes of a script in the orders of the numbers A to B",
                paragraph: "Plays a script as seed does, in the orders of the numbers A, A + 1, .. B, a million at\n\
                    most, and writes which outcomes came, how often and for which number first; and in how\n\
                    many runs a refusal, a none, a dead, closed or lost, or a down came. With progress a line\n\
                    on standard error says each second how many runs were made.\n",
                example: "linx_sim seeds 1 1000 examples/losses.linx",
            },
            Word::Order => Said {
                name: "order",
                usage: "order [FILE]",
                line: "write the order of a printed run, as lines of a script",
                paragraph: "Reads the text of a run from FILE, or from standard input, and writes whose turns its\n\
                    steps were, as lines of a script. With these lines its script makes the same run again\n\
                    under serial, byte for byte, also where run made it.\n",
                example: "linx_sim run examples/losses.linx | linx_sim order",
            },
            Word::Replay => Said {
                name: "replay",
                usage: "replay [FILE]",
                line: "play a printed run again, and tell whether it is the same",
                paragraph: "Reads a script, behind it a line `text`, and behind that the text of a run, all from FILE,\n\
                    or from standard input. It plays the script again with the turns that the text tells, and\n\
                    writes same and how many steps there are where the text is that of a run of this script,\n\
                    byte for byte. Else it exits 7 and names the first line that is another.\n",
                example: "(cat examples/link.linx; echo text; linx_sim run examples/link.linx) | linx_sim replay",
            },
            Word::Check => Said {
                name: "check",
                usage: "check [FILE]",
                line: "tell whether a printed run is legal",
                paragraph: "Reads a script, behind it a line `text`, and behind that the text of a run, all from FILE,\n\
                    or from standard input, and looks at each step by the laws of LINX, whoever made the\n\
                    text. It writes legal and how many steps there are where the text is that of a legal\n\
                    run of the script. Else it exits 7 and names the first step that isn't legal, and the\n\
                    law that it breaks.\n",
                example: "(cat examples/question.linx; echo text; linx_sim run examples/question.linx) | linx_sim check",
            },
            Word::Chart => Said {
                name: "chart",
                usage: "chart [map | OPTION ..] [FILE]",
                line: "draw a printed run as a picture, a page with one, or a map",
                paragraph: "Reads the text of a run from FILE, or from standard input, and writes a picture of it\n\
                    as SVG: a lane for each endpoint and link, a row for each step and what it did, and an\n\
                    arrow from each send to its arrival. It draws 6,000 rows at most. With map it writes a\n\
                    map of a long run: at most 240 rows, each of many steps. Else there may be options, in\n\
                    any order: with page it writes a page for a browser, where a click lights what belongs\n\
                    together; with plain the picture without the lines of the journal; with fold a run of\n\
                    steps of links that did nothing is one row; with steps A B it has only the rows of these\n\
                    steps; with of A1,P2 only those of actor 1 and link 2, and of what came to them or was\n\
                    sent to them. The text may stand behind its script and a line `text`, as check takes it:\n\
                    then nodes, links and actors have the names and places that the script gives them. A\n\
                    FILE whose name is that of an option is written with a path, as ./page.\n",
                example: "linx_sim serial examples/losses.linx | linx_sim chart > losses.svg",
            },
            Word::Gen => Said {
                name: "gen",
                usage: "gen N",
                line: "play the generated script of a number, and write its summary",
                paragraph: "Plays the generated script of the number N, which has one to ten decimal digits and\n\
                    is at most 4294967295, as run does, and writes ten lines of a word and a number\n\
                    each. Nothing is read.\n",
                example: "linx_sim gen 7",
            },
            Word::Stream => Said {
                name: "stream",
                usage: "stream",
                line: "serve one peer over a byte stream by an echo",
                paragraph: "Reads the frames of one peer from standard input, in whatever pieces they come, and\n\
                    writes what an endpoint with the name echo says to them to standard output. It\n\
                    sends each signal back to its sender. No socket is opened.\n",
                example: "socat -t 60 TCP-LISTEN:9000,bind=127.0.0.1,fork EXEC:'linx_sim stream'",
            },
            Word::Gateway => Said {
                name: "gateway",
                usage: "gateway N [--journal FILE]",
                line: "serve clients over a byte stream, each with the calls of LINX",
                paragraph: "Reads the requests of the clients 1 to N, which is at most 16, from standard input,\n\
                    in whatever pieces they come, and writes the replies to standard output. Each\n\
                    client has an endpoint and timers. No socket is opened. With --journal it makes\n\
                    FILE first, empties it if it is there, and writes the text of the session's\n\
                    journal into it at the end, as run writes one.\n",
                example: "socat TCP-LISTEN:9000,bind=127.0.0.1,fork EXEC:'linx_sim gateway 4'",
            },
            Word::Help => Said {
                name: "help",
                usage: "help [WORD]",
                line: "write this help, or that of a word",
                paragraph: "Writes what all words are for, or what one is for, to standard output. The same are\n\
                    --help, -h and WORD --help.\n",
                example: "linx_sim help serial",
            },
            Word::Version => Said {
                name: "version",
                usage: "version",
                line: "write the version",
                paragraph: "Writes the name of the program and its version to standard output. The same are\n\
                    --version and -V.\n",
                example: "linx_sim version",
            },
        }
    }

    /// How the word is used, which is short.
    pub fn usage(self) -> &'static str
        ensures usage { result.now ≡ (said_of self).usage }
        ensures short { length result.now ≤ 50 }
    {
        self.said().usage
    }

    /// The name of the word, which is short.
    pub fn name(self) -> &'static str
        ensures name { result.now ≡ (said_of self).name }
        ensures short { length result.now ≤ 15 }
    {
        self.said().name
    }
}

fn named_in(text: &str, words: &[Word]) -> Option<Word>
    ensures { result ≡ named text.now words.now }
{
    for word in words {
        if text == word.name() {
            return Some(*word);
        }
    }
    None
}

/// Whether a text asks for help: `--help`, or `-h`.
pub(crate) fn is_help_flag(text: &str) -> bool
    ensures { result ≡ is_help_flag text.now }
{
    text == "--help" || text == "-h"
}

fn is_version_flag(text: &str) -> bool
    ensures { result ≡ is_version_flag text.now }
{
    text == "--version" || text == "-V"
}

/// The word that a text is: by its name, or by a flag.
#[tactic(auto, unfolding(crate::specs::Words::called))]
pub(crate) fn called(text: &str) -> Option<Word>
    ensures { result ≡ called text.now }
{
    if is_help_flag(text) {
        return Some(Word::Help);
    }
    if is_version_flag(text) {
        return Some(Word::Version);
    }
    named_in(text, &WORDS)
}
