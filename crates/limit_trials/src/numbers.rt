use desk::step::Step::{self, Below, Record, Transitive};
use desk::{Room, play_all};
use std::test::Fail;

// Unused numbers are 0.
static UNUSED: [Step; 11] = [
    Record(&[3, 0, 1, 0], Err((3, 1))),
    Record(&[3, 0, 0, 1], Err((3, 2))),
    Record(&[3, 0, 1, 1], Err((3, 1))),
    Record(&[3, 0, 65535, 65535], Err((3, 1))),
    Record(&[3, 1, 1, 0], Err((3, 1))),
    Record(&[3, 1, 0, 1], Err((3, 2))),
    Record(&[3, 1, 1, 1], Err((3, 1))),
    Record(&[3, 2, 0, 1], Err((3, 2))),
    Record(&[3, 2, 1023, 65535], Err((3, 2))),
    Record(&[3, 3, 0, 1], Err((3, 2))),
    Record(&[3, 3, 1023, 65535], Err((3, 2))),
];

// Names are below 1,024, and are seen before the number after them.
static NAMES: [Step; 6] = [
    Record(&[3, 2, 1024, 0], Err((3, 1))),
    Record(&[3, 2, 65535, 0], Err((3, 1))),
    Record(&[3, 2, 1024, 1], Err((3, 1))),
    Record(&[3, 3, 1024, 0], Err((3, 1))),
    Record(&[3, 3, 65535, 0], Err((3, 1))),
    Record(&[3, 3, 1024, 1], Err((3, 1))),
];

// Parts stand, where one concept does.
static PARTS: [Step; 11] = [
    Record(&[3, 4, 1, 0], Err((4, 1))),
    Record(&[3, 4, 0, 1], Err((4, 2))),
    Record(&[3, 4, 1, 1], Err((4, 1))),
    Record(&[3, 4, 65535, 65535], Err((4, 1))),
    Record(&[3, 5, 1, 0], Err((4, 1))),
    Record(&[3, 5, 0, 1], Err((4, 2))),
    Record(&[3, 5, 1, 1], Err((4, 1))),
    Record(&[3, 6, 0, 1], Err((4, 2))),
    Record(&[3, 6, 127, 65535], Err((4, 2))),
    Record(&[3, 7, 0, 1], Err((4, 2))),
    Record(&[3, 7, 127, 65535], Err((4, 2))),
];

// Roles are below 128, and are seen before parts; tags are below 8, and are seen before all other numbers.
static ROLES_AND_TAGS: [Step; 11] = [
    Record(&[3, 6, 128, 0], Err((3, 1))),
    Record(&[3, 6, 128, 1], Err((3, 1))),
    Record(&[3, 6, 65535, 65535], Err((3, 1))),
    Record(&[3, 7, 128, 0], Err((3, 1))),
    Record(&[3, 7, 128, 1], Err((3, 1))),
    Record(&[3, 7, 65535, 65535], Err((3, 1))),
    Record(&[3, 8, 0, 0], Err((3, 0))),
    Record(&[3, 8, 1, 0], Err((3, 0))),
    Record(&[3, 8, 0, 1], Err((3, 0))),
    Record(&[3, 8, 65535, 65535], Err((3, 0))),
    Record(&[3, 65535, 0, 0], Err((3, 0))),
];

// What was refused took no number. Two concepts may be written alike, and a part may be the last concept, or both parts.
static TAKEN: [Step; 12] = [
    Record(&[3, 0, 0, 0], Ok(1)),
    Record(&[3, 1, 0, 0], Ok(2)),
    Record(&[3, 2, 1023, 0], Ok(3)),
    Record(&[3, 3, 1023, 0], Ok(4)),
    Record(&[3, 2, 1023, 0], Ok(5)),
    Record(&[3, 2, 0, 0], Ok(6)),
    Record(&[3, 4, 0, 6], Ok(7)),
    Record(&[3, 5, 7, 7], Ok(8)),
    Record(&[3, 6, 127, 8], Ok(9)),
    Record(&[3, 7, 127, 9], Ok(10)),
    Record(&[3, 7, 0, 0], Ok(11)),
    Record(&[3, 4, 11, 12], Err((4, 2))),
];

static TOP: [Step; 1] = [Record(&[3, 0, 0, 0], Ok(0))];

static SEAL: [Step; 1] = [Record(&[6], Ok(0))];

const ROOM: Room = Room {
    concepts: 1024,
    lines: 1,
};

#[test]
fn concepts_before_the_seal(rt: HostRuntime) -> Result<(), Fail> {
    play_all(
        rt.alloc(),
        ROOM,
        &[&TOP, &UNUSED, &NAMES, &PARTS, &ROLES_AND_TAGS, &TAKEN],
    )
}

#[test]
fn concepts_behind_the_seal(rt: HostRuntime) -> Result<(), Fail> {
    play_all(
        rt.alloc(),
        ROOM,
        &[
            &SEAL,
            &TOP,
            &UNUSED,
            &NAMES,
            &PARTS,
            &ROLES_AND_TAGS,
            &TAKEN,
        ],
    )
}

// Roles in inclusions and transitivities, and in questions.
static ROLES: [Step; 29] = [
    Record(&[1, 128, 0], Err((3, 0))),
    Record(&[1, 0, 128], Err((3, 1))),
    Record(&[1, 128, 128], Err((3, 0))),
    Record(&[1, 65535, 127], Err((3, 0))),
    Record(&[1, 127, 65535], Err((3, 1))),
    Record(&[1, 127, 127], Ok(0)),
    Record(&[1, 127, 0], Ok(1)),
    Record(&[1, 0, 127], Ok(2)),
    Record(&[2, 128], Err((3, 0))),
    Record(&[2, 65535], Err((3, 0))),
    Record(&[2, 127], Ok(3)),
    Record(&[2, 0], Ok(4)),
    Record(&[6], Ok(0)),
    Below(128, 0, Err((3, 0))),
    Below(0, 128, Err((3, 1))),
    Below(128, 128, Err((3, 0))),
    Below(65535, 127, Err((3, 0))),
    Below(127, 65535, Err((3, 1))),
    Below(127, 127, Ok(true)),
    Below(127, 0, Ok(true)),
    Below(126, 1, Ok(true)),
    Below(126, 0, Ok(false)),
    Transitive(128, Err((3, 0))),
    Transitive(65535, Err((3, 0))),
    Transitive(127, Ok(true)),
    Transitive(126, Ok(true)),
    Transitive(125, Ok(false)),
    Transitive(1, Ok(true)),
    Transitive(2, Ok(false)),
];

#[test]
fn roles(rt: HostRuntime) -> Result<(), Fail> {
    play_all(rt.alloc(), ROOM, &[&ROLES])
}
