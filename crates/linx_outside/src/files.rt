ghost use Rattle.std.specs.Prelude.{◌≡◌, ℕ, List, Option, IfErr, IfOk, None, Some, Err};
ghost use Rattle.std.specs.Result.{result_ok};
ghost use Rattle.linx_outside.specs.Counts.{HasFaulted, NeverFalls, last_u64};
ghost use Rattle.linx_outside.specs.Opening.{opened};
ghost use Rattle.linx_outside.specs.Reading.{IfGot, IsGot, IfReadFailed};

use crate::adapters::ReadFrom;
use crate::source::{ReadAnswer, Source};
use std::fs::OpenFile;
use std::io::{ErrorKind, Read};
use std::{fs, io};

/// Why a file can't be opened.
#[derive(Clone, Copy, Debug, PartialEq, Eq, Hash)]
pub enum OpenFault {
    /// There is no file of this name.
    Missing,
    /// It is a folder.
    Folder,
    /// It may not be read.
    NotAllowed,
    /// It can't be opened for another reason.
    Other,
}

/// Files, each of which is opened by its name and read as a source.
pub trait Files {
    ghost use Rattle.linx_outside.specs.declared.files.OpenFault.{OpenFault};

    type File: Source + Drop;

    // The bytes of the file of a name, where they are told.
    ghost told: { Self → List ℕ → Option (List ℕ) };

    // The file of a name may be refused for this reason.
    ghost refuses: { Self → List ℕ → OpenFault → Type 0 };

    /// Opens the file of a name. None of its bytes has been given then.
    fn open(&self, name: &str) -> Result<Self::File, OpenFault>
        ensures told { IfOk result (λ file. Self.File.left file ≡ told self.now name.now) }
        ensures refused { IfErr result (λ why. refuses self.now name.now why) };
}

/// A file of the system. What it has is not told.
#[derive(Drop)]
pub struct SystemFile<T> {
    reader: ReadFrom<T>,
}

impl<T: Read + Drop> Source for SystemFile<T> {
    ghost left = { λ _. None };

    ghost faults = { λ file. file.reader.faults };

    ghost last_count = { Some last_u64 };

    ghost is_faultless = { λ _. ⊥ };

    fn read(&mut self, buffer: &mut [u8]) -> ReadAnswer {
        self.reader.read(buffer)
    }
}

/// The files of the system, by their paths.
#[derive(Drop)]
pub struct SystemFiles<'a, R> {
    system: &'a R,
}

impl<'a, R> SystemFiles<'a, R> {
    /// The files of this system.
    pub fn new(system: &'a R) -> SystemFiles<'a, R> {
        SystemFiles { system }
    }
}

/// Why an error of std keeps a file from being opened.
fn fault_of(error: io::Error) -> OpenFault {
    match error.kind() {
        ErrorKind::NotFound => OpenFault::Missing,
        ErrorKind::IsADirectory => OpenFault::Folder,
        ErrorKind::PermissionDenied => OpenFault::NotAllowed,
        _ => OpenFault::Other,
    }
}

impl<R: fs::Files> Files for SystemFiles<'_, R> {
    type File = SystemFile<R::File>;

    ghost told = { λ _ _. None };

    ghost refuses = { λ _ _ _. Unit {0} };

    fn open(&self, name: &str) -> Result<SystemFile<R::File>, OpenFault> {
        match fs::open(self.system, name) {
            Ok(file) => readable(file),
            Err(error) => Err(fault_of(error)),
        }
    }
}

/// A folder can be opened, but not be read.
fn readable<T: Read + OpenFile + Drop>(file: T) -> Result<SystemFile<T>, OpenFault> {
    match file.metadata() {
        Ok(data) if data.is_dir() => Err(OpenFault::Folder),
        _ => Ok(SystemFile {
            reader: ReadFrom::new(file),
        }),
    }
}

/// One file in memory, or why it can't be opened. There is none of another name.
#[derive(Clone, Copy)]
pub struct MemFile<'a> {
    pub name: &'a str,
    pub content: Result<&'a [u8], OpenFault>,
}

impl<'a> Files for MemFile<'a> {
    type File = ReadFrom<&'a [u8]>;

    ghost told = { λ file name. result_ok (opened file name) };

    ghost refuses = { λ file name why. opened file name ≡ Err why };

    fn open(&self, name: &str) -> Result<ReadFrom<&'a [u8]>, OpenFault> {
        if name != self.name {
            return Err(OpenFault::Missing);
        }
        match self.content {
            Ok(bytes) => Ok(ReadFrom::new(bytes)),
            Err(why) => Err(why),
        }
    }
}
