ghost use Rattle.std.specs.Prelude.{◌≡◌, ◌↔◌, false, List, ℕ, IsTrue, IfOk, IfErr};
ghost use Rattle.std.specs.List.{list_all};
ghost use Rattle.std.specs.Str.{bytes_eq};
ghost use Rattle.linx_base.specs.NameText.{is_name_byte, is_name};
ghost use Rattle.linx_base.specs.declared.name.NameError.TheVariants.{NoMemory as OutOfMemory};

use crate::blob::Blob;
use crate::identity::LinkNo;
use crate::memory::NoMemory;
use crate::sequence::Sequence;
use crate::try_copy::TryCopy;
use std::alloc::Global;
use std::error::Error;
use std::fmt;
use std::marker::Model;

/// The most bytes of a name.
const NAME_MOST: usize = 32;

/// Why bytes were no name.
#[derive(Clone, Copy, Debug, PartialEq, Eq, Hash)]
pub enum NameError {
    BadName,
    NoMemory,
}

impl fmt::Display for NameError {
    ghost use Rattle.std.specs.Prelude.{Some};
    ghost use Rattle.linx_base.specs.Failures.{name_error_text};

    ghost output = { λ error. Some (name_error_text error) };

    fn fmt<W: fmt::Write>(&self, f: &mut fmt::Formatter<W>) -> fmt::Result {
        f.write_str(match self {
            NameError::BadName => "not a name",
            NameError::NoMemory => "out of memory",
        })
    }
}

impl Error for NameError {}

impl From<NoMemory> for NameError {
    ghost from_gives = { λ _ e. e ≡ OutOfMemory };

    fn from(_refusal: NoMemory) -> NameError {
        NameError::NoMemory
    }
}

/// The name of a node, a link or an endpoint: 1 to 32 letters, digits, `_`, `-` or `.`. Contracts
/// see its bytes.
#[derive(Drop)]
pub struct Name {
    text: Blob,
}

impl Model for Name {
    ghost use Rattle.std.specs.Prelude.{List, ℕ, IsTrue};
    ghost use Rattle.std.specs.List.{list_all};
    ghost use Rattle.linx_base.specs.NameText.{is_name};

    ghost Value = { List ℕ };

    ghost view = { λ n. n.text };

    ghost invariant = { λ n. IsTrue (is_name n.text) };
}

fn is_letter_digit_or_mark(byte: u8) -> bool
    ensures { result ≡ is_name_byte byte }
{
    byte.is_ascii_alphanumeric() || byte == b'_' || byte == b'-' || byte == b'.'
}

fn are_name_bytes(bytes: &[u8]) -> bool
    ensures { result ≡ list_all is_name_byte bytes.now }
{
    bytes.iter().all(|byte| is_letter_digit_or_mark(*byte))
}

fn spells_name(bytes: &[u8]) -> bool
    ensures { result ≡ is_name bytes.now }
{
    let long_enough = 1 <= bytes.len();
    let short_enough = bytes.len() <= NAME_MOST;
    long_enough && short_enough && are_name_bytes(bytes)
}

impl Name {
    /// The name that these bytes spell: 1 to 32 letters, digits, `_`, `-` and `.` of ASCII.
    /// `BadName` comes exactly where they are no name.
    pub fn of(alloc: Global, bytes: &[u8]) -> Result<Name, NameError>
        ensures ok { IfOk result (λ name. (name ≡ bytes.now) × IsTrue (is_name bytes.now)) }
        ensures bad { is_name bytes.now ≡ false → result ≡ Err NameError.BadName }
        ensures bad_only { IfErr result (λ e. e ≡ NameError.BadName → is_name bytes.now ≡ false) }
    {
        if !spells_name(bytes) {
            return Err(NameError::BadName);
        }
        Ok(Name {
            text: Blob::of(alloc, bytes)?,
        })
    }

    /// The bytes of the name, 1 to 32 of them.
    pub fn bytes(&self) -> &[u8]
        ensures bytes { result.now ≡ self.now }
        ensures name { IsTrue (is_name self.now) }
    {
        self.text.bytes()
    }

    /// Whether both have the same bytes.
    pub fn same(&self, other: &Name) -> bool
        ensures same { IsTrue result ↔ (self.now ≡ other.now) }
        ensures computes { result ≡ bytes_eq self.now other.now }
    {
        self.text.same(&other.text)
    }
}

impl TryCopy for Name {
    fn copy(&self) -> Result<Name, NoMemory> {
        Ok(Name {
            text: self.text.copy()?,
        })
    }
}

/// Names in order.
pub type NameList = Sequence<Name>;

/// The names of the nodes and of the links, each in order of declaration.
#[derive(Drop)]
pub struct Names {
    pub nodes: NameList,
    pub links: NameList,
}

impl TryCopy for Names {
    fn copy(&self) -> Result<Names, NoMemory> {
        Ok(Names {
            nodes: self.nodes.copy()?,
            links: self.links.copy()?,
        })
    }
}

/// What a hunt looks for: a name on the own node, or one behind a link.
#[derive(Drop)]
pub enum Path {
    Local(Name),
    Over { link: LinkNo, name: Name },
}

impl TryCopy for Path {
    fn copy(&self) -> Result<Path, NoMemory> {
        match self {
            Path::Local(name) => Ok(Path::Local(name.copy()?)),
            Path::Over { link, name } => Ok(Path::Over {
                link: *link,
                name: name.copy()?,
            }),
        }
    }
}
