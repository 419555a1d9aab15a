//! What follows from the words alone. These functions do nothing; their contracts are the laws.

ghost use Rattle.std.specs.Prelude.{ℕ, List};
ghost use Rattle.request_stream.specs.Answers.{HasOneAnswer, IsDecided};
ghost use Rattle.request_stream.specs.Laws.{HasOneFront, NoneGoesOn};

use crate::server::Server;

/// Where no request to a server is a proper front of another, bytes have one front: a request that
/// they begin with, or more is wanted, or neither.
pub fn one_front<V: Server>(_server: &V)
    ensures { NoneGoesOn (V.asks _server.now) → (room : ℕ) (bytes : List ℕ)
        → HasOneFront (V.asks _server.now) room bytes }
{}

/// Where what a server makes of a request is one thing, the bytes of a whole stream have one list of
/// answers, and end in one way, in whatever pieces they come.
pub fn one_answer<V: Server>(_server: &V)
    ensures { IsDecided V.asks V.replies V.refuses → (bytes : List ℕ)
        → HasOneAnswer V.asks V.replies V.refuses _server.now bytes }
{}
