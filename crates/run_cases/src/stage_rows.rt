//! Turns in an order of the caller's own, rounds, and links that are settled. Each line is a turn,
//! and what comes of it: the last step with its maker stands behind, if a step was made.

use crate::played::Played;
use case_words::{follow_anew, front, number_text, text_of, yes_text};
use journal::{By, Head, Journal};
use stage::{Pump, Stage, Turn};
use std::alloc::Global;
use std::test::Fail;

fn word_of(head: &Head) -> &'static str {
    match head {
        Head::Open(_) => "open",
        Head::Close => "close",
        Head::Send(..) => "send",
        Head::Take(..) => "take",
        Head::TakeNone(_) => "none",
        Head::Waits(_) => "waits",
        Head::Hunt(..) => "hunt",
        Head::Cut(_) => "cut",
        Head::Settle(_) => "settle",
        Head::Wire(..) => "wire",
        Head::Ended => "ended",
        _ => "another",
    }
}

/// The actor that made a step, and its head.
fn step_text(alloc: Global, journal: &Journal, position: u64) -> Result<String, Fail> {
    let step = journal.step(position).ok_or("no such step")?;
    match step.by {
        By::Actor(actor) => Ok(format!(in alloc; "{actor} {}", word_of(&step.head))?),
        By::Pump(_) => text_of(alloc, "of a link"),
    }
}

fn turn_text(alloc: Global, played: &mut Played, actor: u32) -> Result<String, Fail> {
    let before = played.stage.journal().len();
    let word = match played.turn(actor)? {
        Turn::Moved => "moved",
        Turn::Waits => "waits",
        Turn::Ended => "ended",
    };
    let after = played.stage.journal().len();
    if after == before {
        return text_of(alloc, word);
    }
    let step = step_text(alloc, played.stage.journal(), after)?;
    Ok(format!(in alloc; "{word}, {step}")?)
}

fn pump_text(alloc: Global, played: &mut Played, link: u32) -> Result<String, Fail> {
    match played.pump(link)? {
        Pump::Moved => text_of(alloc, "moved"),
        Pump::NoWork => text_of(alloc, "no work"),
    }
}

fn round_text(alloc: Global, played: &mut Played) -> Result<String, Fail> {
    let is_over = played.round()?;
    text_of(alloc, if is_over { "over" } else { "goes on" })
}

/// The numbers of the makers that are ready.
fn ready_text(alloc: Global, stage: &Stage) -> Result<String, Fail> {
    let mut text = String::new(alloc);
    for place in 0..stage.maker_count() {
        if stage.is_ready(place + 1) {
            let number = format!(in alloc; "{} ", place + 1)?;
            text.push_str(number.as_str())?;
        }
    }
    text_of(alloc, text.trim_end())
}

/// What comes of a turn, or how many steps there are and who made one.
fn event_text(alloc: Global, played: &mut Played, event: &str) -> Result<String, Fail> {
    let (word, number) = front(event);
    match word {
        "turn" => turn_text(alloc, played, number.parse()?),
        "pump" => pump_text(alloc, played, number.parse()?),
        "round" => round_text(alloc, played),
        "ready" => ready_text(alloc, &played.stage),
        "over" => yes_text(alloc, played.stage.is_over()),
        "steps" => number_text(alloc, played.stage.journal().len()),
        "step" => step_text(alloc, played.stage.journal(), number.parse()?),
        _ => Err(Fail::from("no such turn")),
    }
}

/// The stage of a script goes through the turns.
fn follows(alloc: Global, script: &str, turns: &'static str) -> Result<(), Fail> {
    follow_anew(alloc, Played::new(alloc, script)?, &event_text, turns)
}

/// The hunt waits for the opening, and a receive says once that it waits.
#[test]
fn turns_in_an_order_of_the_callers_own(rt: HostRuntime) -> Result<(), Fail> {
    follows(
        rt.alloc(),
        "node n\nactor p n\nopen a\nrecv 1\nend\n\
            actor q n\nopen b\nhunt a\nrecv 251\nsend last 1\nend\n",
        "turn 2: moved, 2 open
        turn 2: moved, 2 hunt
        turn 1: moved, 1 open
        turn 1: waits, 1 waits
        turn 1: waits
        turn 2: moved, 2 take
        turn 1: waits
        turn 2: moved, 2 send
        turn 1: moved, 1 take
        turn 1: moved, 1 ended
        turn 1: ended
        turn 2: moved, 2 ended
        turn 2: ended
        over: yes",
    )
}

/// Each actor that hasn't ended has one turn in a round, by number.
#[test]
fn rounds_leave_nobody_out(rt: HostRuntime) -> Result<(), Fail> {
    follows(
        rt.alloc(),
        "node n\nactor p n\nopen a\nend\nactor q n\nopen b\nclose\nend\nactor r n\nend\n",
        "round: goes on
        round: goes on
        round: over
        step 1: 1 open
        step 2: 2 open
        step 3: 3 ended
        step 4: 1 ended
        step 5: 2 close
        step 6: 2 ended
        steps: 6",
    )
}

/// The plans lose packets of both sides; the first settle ends them. The pump's steps follow the
/// settle at once.
#[test]
fn a_settle_goes_on_until_the_link_is_quiet(rt: HostRuntime) -> Result<(), Fail> {
    follows(
        rt.alloc(),
        "node m\nnode n\nlink l m n\nplan l > L D L L\nplan l < L L\n\
            actor p m\nopen a\nsettle l\nhunt l/b\nend\nactor q n\nopen b\nend\n",
        "turn 2: moved, 2 open
        turn 1: moved, 1 open
        turn 1: moved, 1 wire
        pump 1: no work
        turn 1: moved, 1 hunt
        pump 1: moved",
    )
}

/// It is marked as settled, and nothing more.
#[test]
fn a_settle_of_a_cut_link_is_one_step(rt: HostRuntime) -> Result<(), Fail> {
    follows(
        rt.alloc(),
        "node m\nnode n\nlink l m n\nactor p m\ncut l\nsettle l\nend\nactor q n\nend\n",
        "turn 1: moved, 1 cut
        turn 1: moved, 1 settle
        steps: 2",
    )
}

/// Of two that wait in vain the first is at rest, and finds none; and then the other is.
#[test]
fn who_waits_in_vain_is_ready_once_at_rest(rt: HostRuntime) -> Result<(), Fail> {
    follows(
        rt.alloc(),
        "node n\nactor p n\nopen a\nrecv 1\nend\nactor q n\nopen b\nrecv 1\nend\n",
        "ready: 1 2
        turn 1: moved, 1 open
        turn 1: waits, 1 waits
        ready: 2
        turn 2: moved, 2 open
        turn 2: waits, 2 waits
        ready: 1
        turn 1: moved, 1 none
        ready: 1
        turn 1: moved, 1 ended
        ready: 2
        turn 2: moved, 2 none
        turn 2: moved, 2 ended
        ready:
        over: yes",
    )
}

/// A signal makes its receiver ready, also before that one has looked at it.
#[test]
fn who_waits_is_ready_where_something_came(rt: HostRuntime) -> Result<(), Fail> {
    follows(
        rt.alloc(),
        "node n\nactor p n\nopen a\nrecv 1\nend\n\
            actor q n\nopen b\nhunt a\nrecv 251\nsend last 1\nend\n",
        "turn 1: moved, 1 open
        turn 1: waits, 1 waits
        ready: 2
        turn 2: moved, 2 open
        turn 2: moved, 2 hunt
        turn 2: moved, 2 take
        ready: 2
        turn 2: moved, 2 send
        ready: 1 2",
    )
}

/// A link is ready while it stirs, and while it does no actor is at rest.
#[test]
fn a_link_is_ready_while_it_stirs(rt: HostRuntime) -> Result<(), Fail> {
    follows(
        rt.alloc(),
        "node m\nnode n\nlink l m n\nactor p m\nopen a\nrecv 1\nend\n\
            actor q n\nopen b\nsettle l\nend\n",
        "ready: 1 2 3
        turn 1: moved, 1 open
        turn 1: waits, 1 waits
        ready: 2 3
        turn 2: moved, 2 open
        turn 2: moved, 2 wire
        ready: 2
        turn 2: moved, 2 ended
        ready: 1",
    )
}
