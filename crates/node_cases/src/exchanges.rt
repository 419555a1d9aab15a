//! Exchanges at a node, each line a call of its kernel and what is answered: effects as
//! `docs/use/text.md` spells them, or an item by its sender, its kind, its signal and its position.
//! A peer over a link is spelled by the link, the session and the incarnation, as `1:1.5:2.77`.

use crate::kernel_lines::answer;
use case_words::follow_anew;
use linx_base::NodeNo;
use node_kernel::Kernel;
use std::alloc::Global;
use std::test::Fail;

/// A new kernel answers so.
fn answers(alloc: Global, lines: &'static str) -> Result<(), Fail> {
    follow_anew(alloc, Kernel::new(alloc, NodeNo(1)), &answer, lines)
}

#[test]
fn a_full_kernel_hands_the_name_back(rt: HostRuntime) -> Result<(), Fail> {
    answers(
        rt.alloc(),
        "1 open a -> 1.1: opened 1.1
        1 fill 4095 a -> 4096
        9 open b -> full b
        open 1.1 -> yes
        9 close 1.1 -> closed 1.1
        open 1.1 -> no
        first a -> 1.2
        1 open a -> 1.4097: opened 1.4097",
    )
}

#[test]
fn a_filtered_receive_keeps_order(rt: HostRuntime) -> Result<(), Fail> {
    answers(
        rt.alloc(),
        "1 open a -> 1.1: opened 1.1
        2 send 1.1 1.1 7 - -> queued
        2 send 1.1 1.1 8 - -> queued
        2 send 1.1 1.1 7 01 -> queued
        take 1.1 only:8 -> 1.1 plain 8 - 2.1
        take 1.1 any -> 1.1 plain 7 - 2.1
        take 1.1 any -> 1.1 plain 7 01 2.1",
    )
}

#[test]
fn a_negated_filter_finds_none(rt: HostRuntime) -> Result<(), Fail> {
    answers(
        rt.alloc(),
        "1 open a -> 1.1: opened 1.1
        2 send 1.1 1.1 8 - -> queued
        take 1.1 not:8 -> none
        open 1.1 -> yes
        holds 1.1 not:8 -> no
        holds 1.1 any -> yes",
    )
}

#[test]
fn a_hunt_waits_for_the_opening_of_its_name(rt: HostRuntime) -> Result<(), Fail> {
    answers(
        rt.alloc(),
        "1 open a -> 1.1: opened 1.1
        2 open c -> 1.2: opened 1.2
        3 hunt 1.1 b 251 - -> nothing
        4 close 1.2 -> closed 1.2
        6 open b -> 1.3: opened 1.3, found 1.1 1.3 251 - @3
        take 1.1 any -> 1.3 found@3 251 - 6.2
        8 open b -> 1.4: opened 1.4
        name 1.4 -> b
        name 1.2 -> none",
    )
}

#[test]
fn a_hunt_finds_the_first_opened_that_is_open(rt: HostRuntime) -> Result<(), Fail> {
    answers(
        rt.alloc(),
        "1 open x -> 1.1: opened 1.1
        2 open x -> 1.2: opened 1.2
        3 open h -> 1.3: opened 1.3
        4 hunt 1.3 x 251 - -> found 1.3 1.1 251 - @4
        5 close 1.1 -> closed 1.1
        6 hunt 1.3 x 251 - -> found 1.3 1.2 251 - @6
        take 1.3 any -> 1.1 found@4 251 - 4.1
        take 1.3 any -> 1.2 found@6 251 - 6.1",
    )
}

#[test]
fn a_close_notifies_the_attach_that_was_not_cancelled(rt: HostRuntime) -> Result<(), Fail> {
    answers(
        rt.alloc(),
        "1 open a -> 1.1: opened 1.1
        2 open b -> 1.2: opened 1.2
        3 hunt 1.1 b 251 - -> found 1.1 1.2 251 - @3
        take 1.1 any -> 1.2 found@3 251 - 3.1
        6 attach 1.1 1.2 252 - -> nothing
        7 attach 1.1 1.2 252 aa -> nothing
        detach 1.1 6 -> pending
        11 close 1.2 -> closed 1.2, notified 1.1 1.2 252 aa00 @7 closed
        take 1.1 any -> 1.2 notice@7 252 aa00 11.2
        14 attach 1.1 1.2 252 - -> notified 1.1 1.2 252 02 @14 dead
        take 1.1 any -> 1.2 notice@14 252 02 14.1",
    )
}

#[test]
fn a_detach_takes_the_queued_notice_once(rt: HostRuntime) -> Result<(), Fail> {
    answers(
        rt.alloc(),
        "1 open a -> 1.1: opened 1.1
        2 open b -> 1.2: opened 1.2
        3 close 1.2 -> closed 1.2
        14 attach 1.1 1.2 252 - -> notified 1.1 1.2 252 02 @14 dead
        detach 1.1 14 -> queued
        detach 1.1 14 -> none
        take 1.1 any -> none",
    )
}

#[test]
fn a_detach_leaves_the_reference_of_another(rt: HostRuntime) -> Result<(), Fail> {
    answers(
        rt.alloc(),
        "1 open a -> 1.1: opened 1.1
        2 open b -> 1.2: opened 1.2
        3 attach 1.1 1.2 252 - -> nothing
        detach 1.2 3 -> none
        4 close 1.2 -> closed 1.2, notified 1.1 1.2 252 00 @3 closed",
    )
}

#[test]
fn a_close_notifies_all_holders_in_order(rt: HostRuntime) -> Result<(), Fail> {
    answers(
        rt.alloc(),
        "1 open a -> 1.1: opened 1.1
        2 open b -> 1.2: opened 1.2
        3 open c -> 1.3: opened 1.3
        4 hunt 1.1 c 251 - -> found 1.1 1.3 251 - @4
        take 1.1 any -> 1.3 found@4 251 - 4.1
        4 hunt 1.2 c 251 - -> found 1.2 1.3 251 - @4
        take 1.2 any -> 1.3 found@4 251 - 4.1
        9 attach 1.1 1.3 252 - -> nothing
        10 attach 1.2 1.3 252 - -> nothing
        19 close 1.3 -> closed 1.3, \
        notified 1.1 1.3 252 00 @9 closed, notified 1.2 1.3 252 00 @10 closed
        take 1.1 any -> 1.3 notice@9 252 00 19.2
        take 1.2 any -> 1.3 notice@10 252 00 19.3",
    )
}

#[test]
fn who_is_attached_to_itself_is_not_notified(rt: HostRuntime) -> Result<(), Fail> {
    answers(
        rt.alloc(),
        "1 open a -> 1.1: opened 1.1
        2 open b -> 1.2: opened 1.2
        3 attach 1.1 1.1 252 - -> nothing
        4 attach 1.2 1.1 252 - -> nothing
        5 close 1.1 -> closed 1.1, notified 1.2 1.1 252 00 @4 closed",
    )
}

#[test]
fn a_meeting_answers_the_hunts_for_its_name_alone(rt: HostRuntime) -> Result<(), Fail> {
    answers(
        rt.alloc(),
        "1 open a -> 1.1: opened 1.1
        2 open b -> 1.2: opened 1.2
        3 hunt 1.2 1/x 251 - -> nothing
        4 hunt 1.1 1/y 251 - -> nothing
        5 hunt 1.1 1/x 251 - -> nothing
        6 hunt 1.1 2/x 251 - -> nothing
        7 hunt 1.2 x 251 - -> nothing
        over 1 -> 3 4 5
        8 met 1:1.5:2.77 x -> met 1 1:1.5:2.77 x, \
        found 1.2 1:1.5:2.77 251 - @3, found 1.1 1:1.5:2.77 251 - @5
        take 1.2 any -> 1:1.5:2.77 found@3 251 - 8.2
        take 1.1 any -> 1:1.5:2.77 found@5 251 - 8.3
        over 1 -> 4
        9 met 1:1.5:2.78 x -> met 1 1:1.5:2.78 x
        find 1/x -> 1:1.5:2.77
        find 2/x -> none",
    )
}

#[test]
fn a_parting_notifies_the_holders_that_are_left(rt: HostRuntime) -> Result<(), Fail> {
    answers(
        rt.alloc(),
        "1 open a -> 1.1: opened 1.1
        2 open b -> 1.2: opened 1.2
        3 met 1:1.5:2.77 x -> met 1 1:1.5:2.77 x
        4 attach 1.1 1:1.5:2.77 252 - -> nothing
        5 attach 1.2 1:1.5:2.77 252 07 -> nothing
        6 close 1.1 -> closed 1.1
        2 send 1.2 1:1.5:2.77 1 - -> link 1 -
        7 gone 1:1.5:2.77 -> gone 1 1:1.5:2.77, notified 1.2 1:1.5:2.77 252 0700 @5 closed
        take 1.2 any -> 1:1.5:2.77 notice@5 252 0700 7.2
        2 send 1.2 1:1.5:2.77 1 - -> dead
        alive 1:1.5:2.77 -> no",
    )
}

#[test]
fn a_lost_session_notifies_across_its_peers_in_order(rt: HostRuntime) -> Result<(), Fail> {
    answers(
        rt.alloc(),
        "1 open a -> 1.1: opened 1.1
        2 open b -> 1.2: opened 1.2
        3 met 1:1.5:2.77 x -> met 1 1:1.5:2.77 x
        3 met 1:1.5:2.78 x -> met 1 1:1.5:2.78 x
        3 met 2:1.5:2.77 x -> met 1 2:1.5:2.77 x
        6 attach 1.1 1:1.5:2.78 252 - -> nothing
        7 attach 1.2 2:1.5:2.77 252 - -> nothing
        8 attach 1.2 1:1.5:2.77 252 - -> nothing
        9 down 1 1.5 -> down 1 1 1.5, \
        notified 1.1 1:1.5:2.78 252 01 @6 lost, notified 1.2 1:1.5:2.77 252 01 @8 lost
        take 1.2 any -> 1:1.5:2.77 notice@8 252 01 9.3
        alive 2:1.5:2.77 -> yes
        alive 1:1.5:2.77 -> no",
    )
}

#[test]
fn a_restart_leaves_nothing_and_tells_nobody(rt: HostRuntime) -> Result<(), Fail> {
    answers(
        rt.alloc(),
        "1 open a -> 1.1: opened 1.1
        2 open b -> 1.2: opened 1.2
        3 met 1:1.5:2.77 x -> met 1 1:1.5:2.77 x
        4 hunt 1.1 c 251 - -> nothing
        5 hunt 1.1 1/c 251 - -> nothing
        6 attach 1.1 1.2 252 - -> nothing
        7 attach 1.2 1:1.5:2.77 252 - -> nothing
        8 restart -> closed 1.1, closed 1.2
        over 1 -> nothing
        alive 1.1 -> no
        alive 1:1.5:2.77 -> no
        9 open c -> 1.3: opened 1.3
        10 down 1 1.5 -> down 1 1 1.5",
    )
}

#[test]
fn an_arrival_is_queued_from_its_peer(rt: HostRuntime) -> Result<(), Fail> {
    answers(
        rt.alloc(),
        "1 open a -> 1.1: opened 1.1
        2 met 1:1.5:2.77 x -> met 1 1:1.5:2.77 x
        3 arrive 1.1 1:1.5:2.77 9 04 -> arrived 1.1 1:1.5:2.77 9 04
        take 1.1 any -> 1:1.5:2.77 plain 9 04 3.1",
    )
}
