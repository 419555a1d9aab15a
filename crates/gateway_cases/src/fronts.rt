//! What bytes begin with: whole requests, parts of them, and bytes that begin none.

use gateway_msgs::{Front, front_of};

/// Room for every request.
const ROOM: u64 = 1 << 30;

const OPEN: [u8; 9] = [0, 0, 0, 5, 1, 1, 0, 0, 97];

const TIMER: [u8; 16] = [0, 0, 0, 12, 8, 1, 0, 0, 0, 0, 0, 5, 0, 0, 1, 44];

const CLOCK: [u8; 16] = [0, 0, 0, 12, 11, 0, 0, 0, 0, 0, 0, 0, 0, 0, 0, 5];

/// Whether each front of a request goes on to it, and what stands behind it isn't looked at.
fn goes_on(request: &[u8], with_more: &[u8]) -> bool {
    let size = request.len();
    for k in 0..size {
        if front_of(1, ROOM, &request[..k]) != Front::More {
            return false;
        }
    }
    front_of(1, ROOM, request) == Front::Whole(size)
        && front_of(1, ROOM, with_more) == Front::Whole(size)
}

#[test]
fn each_front_of_a_request_goes_on(rt: HostRuntime) {
    let open = [0, 0, 0, 5, 1, 1, 0, 0, 97, 255];
    assert!(rt; goes_on(&OPEN, &open));
    let timer = [0, 0, 0, 12, 8, 1, 0, 0, 0, 0, 0, 5, 0, 0, 1, 44, 9];
    assert!(rt; goes_on(&TIMER, &timer));
    let clock = [0, 0, 0, 12, 11, 0, 0, 0, 0, 0, 0, 0, 0, 0, 0, 5, 1, 1];
    assert!(rt; goes_on(&CLOCK, &clock));
}

#[test]
fn a_byte_that_no_request_has_there_is_bad_at_once(rt: HostRuntime) {
    assert_eq!(rt; front_of(1, ROOM, &[1]), Front::Bad);
    assert_eq!(rt; front_of(1, ROOM, &[0, 2]), Front::Bad);
    assert_eq!(rt; front_of(1, ROOM, &[0, 1, 1]), Front::Bad);
    assert_eq!(rt; front_of(1, ROOM, &[0, 1, 0, 13]), Front::Bad);
    assert_eq!(rt; front_of(1, ROOM, &[0, 0, 0, 3]), Front::Bad);
}

#[test]
fn a_type_has_its_sizes_and_its_clients(rt: HostRuntime) {
    assert_eq!(rt; front_of(1, ROOM, &[0, 0, 0, 5, 2]), Front::Bad);
    assert_eq!(rt; front_of(1, ROOM, &[0, 0, 0, 4, 12]), Front::Bad);
    assert_eq!(rt; front_of(1, ROOM, &[0, 0, 0, 10, 4]), Front::Bad);
    assert_eq!(rt; front_of(1, ROOM, &[0, 0, 0, 4, 2, 0]), Front::Bad);
    assert_eq!(rt; front_of(1, ROOM, &[0, 0, 0, 4, 2, 2]), Front::Bad);
    assert_eq!(rt; front_of(2, ROOM, &[0, 0, 0, 4, 2, 2]), Front::More);
    assert_eq!(rt; front_of(1, ROOM, &[0, 0, 0, 12, 11, 1]), Front::Bad);
}

#[test]
fn zeros_and_letters_are_looked_at_as_they_come(rt: HostRuntime) {
    assert_eq!(rt; front_of(1, ROOM, &[0, 0, 0, 6, 1, 1, 9]), Front::Bad);
    assert_eq!(rt; front_of(1, ROOM, &[0, 0, 0, 6, 1, 1, 0, 9]), Front::Bad);
    assert_eq!(rt;
        front_of(1, ROOM, &[0, 0, 0, 6, 1, 1, 0, 0, 32]),
        Front::Bad
    );
    assert_eq!(rt;
        front_of(1, ROOM, &[0, 0, 0, 6, 1, 1, 0, 0, 97]),
        Front::More
    );
}

#[test]
fn a_request_without_room_is_none(rt: HostRuntime) {
    assert_eq!(rt; front_of(1, 7, &[]), Front::Bad);
    assert_eq!(rt; front_of(1, 8, &[]), Front::More);
    assert_eq!(rt; front_of(1, 8, &OPEN), Front::Bad);
    assert_eq!(rt; front_of(1, 9, &OPEN), Front::Whole(9));
}
