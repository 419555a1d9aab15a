//! The values that every layer of LINX speaks of: numbers of nodes, links, sessions and
//! incarnations, peers, names and paths, signals, and the messages and frames of a connection
//! manager. Each type keeps its own bounds, is seen by contracts as its content, and knows nothing
//! of any layer above. Bytes that never change are shared: a `Blob` is copied by one pointer.
#![tactic(auto)]

mod blob;
mod bytes;
mod frame;
mod identity;
mod item;
mod memory;
mod name;
mod pending;
mod sequence;
mod signal;
mod try_copy;
mod undo_list;
mod undo_queue;

pub use blob::Blob;
pub use bytes::Bytes;
pub use frame::{ConnKind, Frame, Frames, LinkDecl, Message, SentFrame, SentFrames, Verdict};
pub use identity::{AttRef, Inc, ItemAt, LinkNo, NodeNo, Peer, Session, Side};
pub use item::{Item, Kind};
pub use memory::NoMemory;
pub use name::{Name, NameError, NameList, Names, Path};
pub use pending::{MetPeer, PendingAttach, PendingHunt};
pub use sequence::Sequence;
pub use signal::{BufferError, Reason, SigNote, Signal};
pub use try_copy::TryCopy;
pub use undo_list::UndoList;
pub use undo_queue::UndoQueue;
