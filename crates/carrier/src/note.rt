use linx_base::{Message, Session};

/// What is recorded of a side.
#[derive(Drop)]
pub(crate) enum Note {
    /// A message was offered.
    Offered(Message),
    /// A message was handed up.
    Handed(Message),
    /// The session ended: this was its number, and this its peer where it has had one.
    Ended {
        session: Session,
        peer: Option<Session>,
    },
}
