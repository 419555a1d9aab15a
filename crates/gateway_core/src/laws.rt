//! What follows for the timers of a gateway from what each request makes of it.
ghost use Rattle.gateway_core.specs.Timers.{EachTimerIsSentOnce};

/// Each timer's signal is sent at most once, by the first clock that reaches it, and never once it
/// was cancelled or its client closed, whatever is asked.
pub fn each_timer_is_sent_once()
    ensures { EachTimerIsSentOnce }
{}
