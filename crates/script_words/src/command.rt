use crate::filling::Filling;
use crate::target::Target;
use linx_base::{LinkNo, Name, NoMemory, NodeNo, Path, TryCopy};
use sigsel::Sigsel;

/// What an actor does, a command at a time. A signal has at most 65,532 data bytes.
#[derive(Drop)]
pub enum Command {
    /// Opens an endpoint of this name.
    Open(Name),
    /// Closes the endpoint.
    Close,
    /// Sends a new signal.
    Send {
        to: Target,
        number: u32,
        bytes: Filling,
    },
    /// Sends the buffer of the item that was taken last.
    Forward(Target),
    /// Receives what the filter selects, or finds none at rest. A list has 1 to 64 numbers.
    Recv(Sigsel),
    /// Asks for an endpoint by name, and gives the signal that answers.
    Hunt {
        path: Path,
        number: u32,
        bytes: Filling,
    },
    /// Attaches to a peer; `r` names the reference. The data has at most 65,531 bytes.
    Attach {
        to: Target,
        r: Name,
        number: u32,
        bytes: Filling,
    },
    /// Takes back the attach of this reference.
    Detach(Name),
    /// Gives this name to the sender of the item that was taken last.
    Keep(Name),
    /// Breaks a link.
    Cut(LinkNo),
    /// Makes a link whole.
    Mend(LinkNo),
    /// Restarts a node.
    Restart(NodeNo),
    /// Ends the link's plans and lets it come to rest.
    Settle(LinkNo),
}

impl TryCopy for Command {
    fn copy(&self) -> Result<Command, NoMemory> {
        match self {
            Command::Open(name) => Ok(Command::Open(name.copy()?)),
            Command::Close => Ok(Command::Close),
            Command::Send { to, number, bytes } => Ok(Command::Send {
                to: to.copy()?,
                number: *number,
                bytes: bytes.copy()?,
            }),
            Command::Forward(to) => Ok(Command::Forward(to.copy()?)),
            Command::Recv(filter) => Ok(Command::Recv(filter.copy()?)),
            Command::Hunt {
                path,
                number,
                bytes,
            } => Ok(Command::Hunt {
                path: path.copy()?,
                number: *number,
                bytes: bytes.copy()?,
            }),
            Command::Attach {
                to,
                r,
                number,
                bytes,
            } => Ok(Command::Attach {
                to: to.copy()?,
                r: r.copy()?,
                number: *number,
                bytes: bytes.copy()?,
            }),
            Command::Detach(r) => Ok(Command::Detach(r.copy()?)),
            Command::Keep(name) => Ok(Command::Keep(name.copy()?)),
            Command::Cut(link) => Ok(Command::Cut(*link)),
            Command::Mend(link) => Ok(Command::Mend(*link)),
            Command::Restart(node) => Ok(Command::Restart(*node)),
            Command::Settle(link) => Ok(Command::Settle(*link)),
        }
    }
}
