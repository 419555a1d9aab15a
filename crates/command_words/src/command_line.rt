//! The command line, as `clap` reads it: a word, and perhaps an argument and a file behind it. Flags,
//! and `-` for standard input, are read off the table, since clap would take `--` for the end of
//! flags; and so are the many words of a search.
ghost use Rattle.std.specs.Prelude.{◌≡◌, ◌≤◌, ◌⊎◌, length, IfErr, IfOk, None, false, option_map};
ghost use Rattle.std.specs.Prelude.{string_bytes};
ghost use Rattle.std.specs.List.{list_any};
ghost use Rattle.clap.specs.Words.{app_of, kind_of};
ghost use Rattle.command_words.specs.CommandLine.{is_dashed, request_from, three_words};
ghost use Rattle.command_words.specs.Requests.{request_of};

use crate::request::{Request, asked_alone, asked_with, asked_with_file, request_by};
use crate::word::called;
use clap::error::ErrorKind;
use clap::{Arg, Command, Error};
use std::alloc::{AllocError, Global};

/// What a word, an argument and a file ask for, of which each may be missing.
fn request_from(word: Option<&str>, argument: Option<&str>, file: Option<&str>) -> Option<Request>
    ensures { result ≡ request_from (option_map (λ w. w.now) word.entry)
        (option_map (λ a. a.now) argument.entry) (option_map (λ f. f.now) file.entry) }
{
    match (word, argument, file) {
        (None, _, _) => None,
        (Some(word), None, _) => asked_alone(called(word)?),
        (Some(word), Some(argument), None) => asked_with(called(word)?, argument),
        (Some(word), Some(argument), Some(file)) => asked_with_file(called(word)?, argument, file),
    }
}

/// The most words that clap reads.
const CLAP_MOST: usize = 3;

/// Whether a word begins with `-`.
fn has_dashed_word(words: &[String]) -> bool
    ensures { result ≡ list_any (λ word. is_dashed (string_bytes word)) words.now }
{
    words.iter().any(|word| word.starts_with('-'))
}

/// What clap is to find: a word, which must be there, and perhaps an argument and a file.
fn command_line<'a>(alloc: Global) -> Result<Command<'a>, AllocError>
    ensures { IfOk result (λ line. app_of line ≡ three_words) }
{
    let word = Arg::new(alloc, "word").required(true);
    let argument = Arg::new(alloc, "argument");
    let file = Arg::new(alloc, "file");
    Command::new(alloc, "linx_sim")
        .no_binary_name(true)
        .disable_help_flag(true)
        .disable_version_flag(true)
        .arg(word)?
        .arg(argument)?
        .arg(file)
}

/// What the words ask for, as clap reads them. Its refusals are errors.
fn reads(alloc: Global, words: &[String]) -> Result<Option<Request>, Error>
    requires few { length words.now ≤ 3 }
    requires plain { list_any (λ word. is_dashed (string_bytes word)) words.now ≡ false }
    ensures ok { IfOk result (λ request. request ≡ request_of words.now) }
    ensures err { IfErr result (λ error. (kind_of error ≡ ErrorKind.OutOfMemory)
        ⊎ (request_of words.now ≡ None)) }
{
    let matches = command_line(alloc)?.try_get_matches_from(words)?;
    let word = matches.get_str("word");
    let argument = matches.get_str("argument");
    let file = matches.get_str("file");
    Ok(request_from(word, argument, file))
}

impl Request {
    /// What the words of a command line ask for; `None` where they ask for nothing. `clap` reads
    /// them; where it can't, since there are more than three, one begins with `-` or memory is
    /// refused, the table does.
    pub fn of(alloc: Global, words: &[String]) -> Option<Request>
        ensures { result ≡ request_of words.now }
    {
        if words.len() > CLAP_MOST || has_dashed_word(words) {
            return request_by(words);
        }
        match reads(alloc, words) {
            Ok(request) => request,
            Err(error) => match error.kind() {
                ErrorKind::OutOfMemory => request_by(words),
                _ => None,
            },
        }
    }
}
