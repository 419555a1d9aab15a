ghost use Rattle.std.specs.Prelude.{◌≡◌, ◌<◌};
ghost use Rattle.gateway_msgs.specs.Requests.{type_of};

use linx_base::{AttRef, Inc, Name, Signal};
use sigsel::Numbers;

/// The types of requests, each a request's fifth byte.
pub(crate) const OPEN: u8 = 1;

pub(crate) const CLOSE: u8 = 2;

pub(crate) const SEND: u8 = 3;

pub(crate) const RECEIVE: u8 = 4;

pub(crate) const HUNT: u8 = 5;

pub(crate) const ATTACH: u8 = 6;

pub(crate) const DETACH: u8 = 7;

pub(crate) const TIMER: u8 = 8;

pub(crate) const CANCEL: u8 = 9;

pub(crate) const MODIFY: u8 = 10;

pub(crate) const CLOCK: u8 = 11;

/// What a client asks for.
#[derive(Drop)]
pub enum Request {
    Open(Name),
    Close,
    Send { to: Inc, signal: Signal },
    /// The count of a filter, as its four bytes are, and its numbers.
    Receive { count: u32, numbers: Numbers },
    Hunt(Name),
    Attach(Inc),
    Detach(AttRef),
    /// A timer that is due after so many milliseconds.
    Timer { delay: u32, signal: Signal },
    Cancel { reference: u64 },
    Modify { reference: u64, delay: u32 },
    /// The moment that it is now. No client asks for it.
    Clock { moment: u64 },
}

impl Request {
    /// The type.
    pub fn kind(&self) -> u8
        ensures kind { result ≡ type_of self.now }
        ensures few { result < 128 }
    {
        match self {
            Request::Open(_) => OPEN,
            Request::Close => CLOSE,
            Request::Send { .. } => SEND,
            Request::Receive { .. } => RECEIVE,
            Request::Hunt(_) => HUNT,
            Request::Attach(_) => ATTACH,
            Request::Detach(_) => DETACH,
            Request::Timer { .. } => TIMER,
            Request::Cancel { .. } => CANCEL,
            Request::Modify { .. } => MODIFY,
            Request::Clock { .. } => CLOCK,
        }
    }
}
