ghost use Rattle.std.specs.Prelude.{◌≡◌};
ghost use Rattle.linx_files.specs.Making.{make_fault_of};

use std::io::ErrorKind;

/// Why a file can't be made.
#[derive(Clone, Copy, Debug, PartialEq, Eq, Hash)]
pub enum MakeFault {
    /// There is no folder in which it would lie.
    NoFolder,
    /// A folder has its name.
    Folder,
    /// It may not be written.
    NotAllowed,
    /// It can't be made for another reason.
    Other,
}

impl MakeFault {
    /// Why an error of this kind keeps a file from being made.
    pub(crate) fn of(kind: ErrorKind) -> MakeFault
        ensures { result ≡ make_fault_of kind }
    {
        match kind {
            ErrorKind::NotFound | ErrorKind::NotADirectory => MakeFault::NoFolder,
            ErrorKind::IsADirectory => MakeFault::Folder,
            ErrorKind::PermissionDenied | ErrorKind::ReadOnlyFilesystem => MakeFault::NotAllowed,
            _ => MakeFault::Other,
        }
    }
}
