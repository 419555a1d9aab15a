//! The watch of a link's end.

use case_words::{follow_sections, number_text, text_of};
use ethcm_session::{Alive, Watch};
use std::alloc::Global;
use std::test::Fail;

fn tick_text(alloc: Global, watch: &mut Watch) -> Result<String, Fail> {
    match watch.tick() {
        Alive::Yes => text_of(alloc, "alive"),
        Alive::Lost => text_of(alloc, "lost"),
    }
}

/// What a call, by its words, answers: a tick, a packet that was heard, or the end of an event.
fn answer(alloc: Global, watch: &mut Watch, call: &str) -> Result<String, Fail> {
    match call {
        "tick" => return tick_text(alloc, watch),
        "heard" => watch.heard(),
        "keep" => watch.keep(),
        "undo" => watch.undo(),
        "ticks" => {}
        _ => return Err(Fail::from("no such call")),
    }
    number_text(alloc, u64::from(watch.ticks()))
}

/// A call that isn't a tick answers the ticks since the peer was heard.
#[test]
fn a_watch_is_lost_at_the_third_tick(rt: HostRuntime) -> Result<(), Fail> {
    follow_sections(
        rt.alloc(),
        &|_alloc| Watch::new(),
        &answer,
        "# lost at the third tick and at the sixth
        tick: alive
        tick: alive
        tick: lost
        tick: alive
        tick: alive
        tick: lost

        # not lost where the peer is heard between
        tick: alive
        tick: alive
        heard: 0
        tick: alive
        tick: alive
        heard: 0
        tick: alive
        tick: alive
        heard: 0
        tick: alive
        tick: alive
        heard: 0

        # an undone tick is not counted
        tick: alive
        keep: 1
        tick: alive
        ticks: 2
        undo: 1
        tick: alive
        ticks: 2
        undo: 1
        tick: alive
        ticks: 2
        undo: 1
        tick: alive
        ticks: 2
        undo: 1",
    )
}
