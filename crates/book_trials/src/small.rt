use desk::step::Step::{self, Record, Tally};
use desk::{Room, play_all};
use std::test::Fail;

const ROOM: Room = Room {
    concepts: 6,
    lines: 4,
};

// Name 0 and not name 0, "only 1 of 1", "some 0 of 2", "some 1 of 0" and "only 0 of 4"; two pairs of mates, and the seal.
pub static VOCABULARY: [Step; 9] = [
    Record(&[3, 2, 0, 0], Ok(0)),
    Record(&[3, 3, 0, 0], Ok(1)),
    Record(&[3, 6, 1, 1], Ok(2)),
    Record(&[3, 7, 0, 2], Ok(3)),
    Record(&[3, 7, 1, 0], Ok(4)),
    Record(&[3, 6, 0, 4], Ok(5)),
    Record(&[4, 0, 1], Ok(0)),
    Record(&[4, 2, 4], Ok(0)),
    Record(&[6], Ok(0)),
];

// Where an element of name 0 has a neighbour by role 0, role 1 leads back from there: two clashes, the neighbour's label, and
// the cut by rule 8.
pub static LINES: [Step; 4] = [
    Record(&[7, 2, 0, 1, 0, 0, 0, 0, 1], Ok(0)),
    Record(&[7, 2, 2, 4, 0, 0, 0, 2, 4], Ok(1)),
    Record(&[7, 10, 3, 0, 0, 1, 0, 0, 3, 5], Ok(2)),
    Record(&[7, 8, 1, 0, 5, 0, 2, 0, 3], Ok(3)),
];

// One claim is empty by the last line and one is not; one is inhabited, if there is a neighbour.
static CLAIMS: [Step; 8] = [
    Record(&[8, 0, 3], Ok(0)),
    Record(&[8, 0], Ok(1)),
    Record(&[8, 3], Ok(2)),
    Record(&[9, 0, 3], Ok(0)),
    Record(&[9, 1, 3], Err((11, 3))),
    Record(&[10, 2, 0, 2, 0], Err((15, 3))),
    Record(&[10, 2, 0, 2, 0, 0, 0, 1], Ok(0)),
    Tally(1, 1, 1),
];

#[test]
fn in_order(rt: HostRuntime) -> Result<(), Fail> {
    play_all(rt.alloc(), ROOM, &[&VOCABULARY, &LINES, &CLAIMS])
}

// The third line before the second, which it cites; and then all as if nothing had been.
static EARLY: [Step; 1] = [Record(&[7, 10, 3, 0, 0, 1, 0, 0, 3, 5], Err((4, 4)))];

#[test]
fn out_of_order(rt: HostRuntime) -> Result<(), Fail> {
    play_all(
        rt.alloc(),
        ROOM,
        &[&VOCABULARY, &LINES[..1], &EARLY, &LINES[1..], &CLAIMS],
    )
}

// A concept besides, "only 1 of 4", in place of 5 in the last line: rule 8 wants the inverse of its role.
static FORWARD: [Step; 2] = [
    Record(&[3, 6, 1, 4], Ok(6)),
    Record(&[7, 8, 1, 0, 6, 0, 2, 0, 3], Err((8, 8))),
];

#[test]
fn role_read_forward(rt: HostRuntime) -> Result<(), Fail> {
    let room = Room {
        concepts: 7,
        ..ROOM
    };
    play_all(
        rt.alloc(),
        room,
        &[&VOCABULARY, &LINES[..3], &FORWARD, &LINES[3..], &CLAIMS],
    )
}
