use desk::step::Step::{self, Below, Concludes, FirstLine, Mate, Record, Transitive};
use desk::{Room, play_all};
use std::test::Fail;

const ROOM: Room = Room {
    concepts: 3,
    lines: 1,
};

// Before the seal there is no question about roles or conclusions, no line, no claim and no closing, whatever they name.
static REFUSED_BEFORE: [Step; 20] = [
    Below(0, 0, Err((2, 0))),
    Below(2, 2, Err((2, 0))),
    Below(127, 127, Err((2, 0))),
    Below(127, 2, Err((2, 0))),
    Below(128, 128, Err((2, 0))),
    Transitive(0, Err((2, 0))),
    Transitive(2, Err((2, 0))),
    Transitive(127, Err((2, 0))),
    Transitive(128, Err((2, 0))),
    Concludes([6, 0, 0, 0, 0], &[0], Err((2, 0))),
    Concludes([11, 9, 9, 9, 9], &[9, 9], Err((2, 0))),
    Record(&[7, 6, 0, 0, 0, 0, 0, 0], Err((2, 0))),
    Record(&[7, 11, 9, 9, 9, 9, 9, 9, 9], Err((2, 0))),
    Record(&[8], Err((2, 0))),
    Record(&[8, 9, 9], Err((2, 0))),
    Record(&[9, 0, 0], Err((2, 0))),
    Record(&[9, 9, 9], Err((2, 0))),
    Record(&[10, 0, 0, 1, 0], Err((2, 0))),
    Record(&[10, 9, 9, 0, 9], Err((2, 0))),
    // what is malformed is so in either phase
    Record(&[7, 0, 0, 0, 0, 0], Err((1, 0))),
];

static FILED_BEFORE: [Step; 7] = [
    Record(&[3, 2, 0, 0], Ok(0)),
    Mate(0, Ok(None)),
    FirstLine(&[0], Ok(None)),
    Record(&[5, 0], Ok(0)),
    Record(&[5, 1], Err((4, 0))),
    Record(&[1, 0, 2], Ok(0)),
    Record(&[2, 4], Ok(1)),
];

static SEAL: [Step; 1] = [Record(&[6], Ok(0))];

// After it there is no axiom of either list and no other seal, whatever they name.
static REFUSED_BEHIND: [Step; 13] = [
    Record(&[1, 0, 2], Err((2, 0))),
    Record(&[1, 2, 0], Err((2, 0))),
    Record(&[1, 128, 0], Err((2, 0))),
    Record(&[1, 0, 128], Err((2, 0))),
    Record(&[1, 65535, 65535], Err((2, 0))),
    Record(&[2, 0], Err((2, 0))),
    Record(&[2, 2], Err((2, 0))),
    Record(&[2, 128], Err((2, 0))),
    Record(&[2, 65535], Err((2, 0))),
    Record(&[5, 0], Err((2, 0))),
    Record(&[5, 1], Err((2, 0))),
    Record(&[5, 65535], Err((2, 0))),
    Record(&[6], Err((2, 0))),
];

// The roles are as they were filed before it.
static ROLES: [Step; 9] = [
    Below(0, 2, Ok(true)),
    Below(1, 3, Ok(true)),
    Below(2, 0, Ok(false)),
    Below(4, 4, Ok(true)),
    Below(4, 2, Ok(false)),
    Transitive(0, Ok(false)),
    Transitive(2, Ok(false)),
    Transitive(4, Ok(true)),
    Transitive(5, Ok(true)),
];

// Concepts and pairs are taken in this phase too, and lines, claims and closings in this one.
static FILED_BEHIND: [Step; 11] = [
    Record(&[3, 3, 0, 0], Ok(1)),
    Record(&[4, 0, 1], Ok(0)),
    Mate(1, Ok(Some(0))),
    Concludes([6, 0, 0, 0, 0], &[1], Ok(&[0, 1])),
    Record(&[7, 2, 0, 1, 0, 0, 0, 0, 1], Ok(0)),
    Record(&[8, 0, 1], Ok(0)),
    Record(&[8], Ok(1)),
    Record(&[9, 0, 0], Ok(0)),
    Record(&[10, 1, 0, 1, 1, 0, 0], Ok(0)),
    Record(&[3, 0, 0, 0], Ok(2)),
    Record(&[3, 0, 0, 0], Err((5, 3))),
];

#[test]
fn phases(rt: HostRuntime) -> Result<(), Fail> {
    play_all(
        rt.alloc(),
        ROOM,
        &[
            &REFUSED_BEFORE,
            &FILED_BEFORE,
            &REFUSED_BEFORE,
            &SEAL,
            &REFUSED_BEHIND,
            &ROLES,
            &FILED_BEHIND,
            &REFUSED_BEHIND,
            &ROLES,
        ],
    )
}

// A docket of which nothing has been said can be sealed, once.
#[test]
fn empty_seal(rt: HostRuntime) -> Result<(), Fail> {
    play_all(rt.alloc(), ROOM, &[&REFUSED_BEFORE, &SEAL, &REFUSED_BEHIND])
}
