use desk::step::Step::{self, Record};
use desk::{Room, play_all};
use std::test::Fail;

const ROOM: Room = Room {
    concepts: 65,
    lines: 1,
};

// Role 0 below role 2, name 0 as an axiom, and name 1.
static VOCABULARY: [Step; 4] = [
    Record(&[1, 0, 2], Ok(0)),
    Record(&[3, 2, 0, 0], Ok(0)),
    Record(&[3, 2, 1, 0], Ok(1)),
    Record(&[5, 0], Ok(0)),
];

// A claim that is closed, and one that is open.
static CLAIMS: [Step; 4] = [
    Record(&[6], Ok(0)),
    Record(&[8], Ok(0)),
    Record(&[10, 0, 0, 1, 1, 0, 0], Ok(0)),
    Record(&[8, 1], Ok(1)),
];

// Wrong in one way less from row to row: the claim, that it is closed, the form, a role axiom, the axiom, the point.
static WRONG: [Step; 8] = [
    Record(&[10, 2, 9, 0, 9, 0, 0, 1], Err((4, 0))),
    Record(&[10, 0, 9, 0, 9, 0, 0, 1], Err((10, 0))),
    Record(&[10, 0, 0, 2, 0, 0, 0, 1], Err((10, 0))),
    Record(&[10, 1, 2, 2, 0, 0, 0, 1], Err((12, 0))),
    Record(&[10, 1, 0, 2, 0, 0, 0, 2], Err((12, 1))),
    Record(&[10, 1, 0, 2, 0, 0, 0, 1], Err((13, 0))),
    Record(&[10, 1, 0, 2, 0, 0, 0, 1, 1, 0, 1], Err((14, 0))),
    Record(
        &[10, 1, 0, 2, 2, 0, 0, 1, 0, 0, 0, 1, 1, 0, 1],
        Err((15, 1)),
    ),
];

static RIGHT: [Step; 1] = [Record(&[10, 1, 0, 2, 3, 0, 0, 0, 1, 1, 0, 0, 0, 1, 1, 0, 1], Ok(0))];

#[test]
fn first_fault_answers(rt: HostRuntime) -> Result<(), Fail> {
    play_all(rt.alloc(), ROOM, &[&VOCABULARY, &CLAIMS, &WRONG, &RIGHT])
}
