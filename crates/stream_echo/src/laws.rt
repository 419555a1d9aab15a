//! What follows from the words alone. These functions do nothing; their contracts are the laws.

ghost use Rattle.request_stream.specs.Answers.{IsDecided};
ghost use Rattle.tcpcm_frames.specs.Frames.{IsSpelled};
ghost use Rattle.stream_echo.specs.Replying.{Echoes, Refuses};

/// What the echo makes of a frame is one thing, so the bytes of a stream have one list of answers
/// and one end, by the law `one_answer` of `request_stream`.
pub fn echo_is_decided()
    ensures { IsDecided (λ _ bytes. IsSpelled bytes) Echoes Refuses }
{}
