//! What follows from the words alone. These functions do nothing; their contracts are the laws.
ghost use Rattle.gateway_session.specs.Laws.{EachGoesOn, NoCallWhereFull, NoSignalWhereFull};
ghost use Rattle.gateway_session.specs.Whole.{EachTimerOverASession};

/// The steps of each request stand directly on those of the requests before it. So a session's
/// journal is the steps of the requests that were replied to, one after the other, and then those
/// that the one made that was stopped.
pub fn each_goes_on()
    ensures { EachGoesOn }
{}

/// No call is replied to while the journal is full: it stops the session.
pub fn no_call_where_full()
    ensures { NoCallWhereFull }
{}

/// Nor is a clock that has a timer's signal to send.
pub fn no_signal_where_full()
    ensures { NoSignalWhereFull }
{}

/// Of whatever comes behind a request: a timer that is gone sends no more, and so does one behind its
/// cancel, and behind its client's close. A clock sends what is due by its moment, and leaves what
/// is due later; so each timer is sent by the first clock that reaches it.
pub fn each_timer_over_a_session()
    ensures { EachTimerOverASession }
{}
