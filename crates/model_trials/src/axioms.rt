use book::line::Line;
use desk::step::Step::{self, Record};
use desk::{Room, Said, opened, play, play_all};
use docket::Docket;
use logic::concept::Concept;
use std::alloc::{AllocError, Global};
use std::test::Fail;

const ROOM: Room = Room {
    concepts: 8,
    lines: 1,
};

// A transitive role, by itself and by its inverse.
static TRANSITIVE: [Step; 3] = [
    Record(&[2, 0], Ok(0)),
    Record(&[6], Ok(0)),
    Record(&[8], Ok(0)),
];

static INVERSE_TRANSITIVE: [Step; 3] = [
    Record(&[2, 1], Ok(0)),
    Record(&[6], Ok(0)),
    Record(&[8], Ok(0)),
];

// Two steps that no edge makes at once: by three elements, to and fro, and round a loop; and with the edge.
static STEPS: [Step; 7] = [
    Record(&[10, 0, 0, 3, 0, 0, 0, 1, 0, 1, 2], Err((13, 0))),
    Record(&[10, 0, 0, 3, 0, 0, 0, 1, 0, 1, 2, 0, 2, 0], Err((13, 0))),
    Record(&[10, 0, 0, 3, 0, 0, 0, 1, 0, 1, 2, 1, 0, 2], Err((13, 0))),
    Record(&[10, 0, 0, 2, 0, 0, 0, 1, 0, 1, 0], Err((13, 0))),
    Record(&[10, 0, 0, 2, 0, 0, 0, 0, 0, 0, 1, 0, 1, 0], Err((13, 0))),
    Record(&[10, 0, 0, 256, 0, 0, 254, 255, 0, 255, 0], Err((13, 0))),
    Record(&[10, 0, 0, 3, 0, 0, 0, 1, 0, 0, 2, 0, 1, 2], Ok(0)),
];

#[test]
fn transitivity(rt: HostRuntime) -> Result<(), Fail> {
    play_all(rt.alloc(), ROOM, &[&TRANSITIVE, &STEPS])?;
    play_all(rt.alloc(), ROOM, &[&INVERSE_TRANSITIVE, &STEPS])
}

// Role 0 below role 2, and the same by their inverses: the edge goes the same way.
static BELOW: [Step; 9] = [
    Record(&[1, 0, 2], Ok(0)),
    Record(&[1, 1, 3], Ok(1)),
    Record(&[6], Ok(0)),
    Record(&[8], Ok(0)),
    Record(&[10, 0, 0, 2, 0, 0, 0, 1], Err((13, 0))),
    Record(&[10, 0, 0, 2, 0, 0, 0, 1, 1, 1, 0], Err((13, 0))),
    Record(&[10, 0, 0, 2, 0, 0, 0, 1, 0, 1, 0, 1, 0, 1], Err((13, 0))),
    Record(
        &[10, 0, 0, 256, 0, 0, 0, 255, 0, 255, 0, 1, 0, 255],
        Err((13, 0)),
    ),
    Record(&[10, 0, 0, 2, 0, 0, 0, 1, 1, 0, 1, 1, 1, 0], Ok(0)),
];

// Role 0 below the inverse of role 2: the edge goes the other way.
static BELOW_INVERSE: [Step; 6] = [
    Record(&[1, 0, 3], Ok(0)),
    Record(&[6], Ok(0)),
    Record(&[8], Ok(0)),
    Record(&[10, 0, 0, 2, 0, 0, 0, 1], Err((13, 0))),
    Record(&[10, 0, 0, 2, 0, 0, 0, 1, 1, 0, 1], Err((13, 0))),
    Record(&[10, 0, 0, 2, 0, 0, 0, 1, 1, 1, 0], Ok(0)),
];

// A role below its own inverse.
static SYMMETRIC: [Step; 5] = [
    Record(&[1, 0, 1], Ok(0)),
    Record(&[6], Ok(0)),
    Record(&[8], Ok(0)),
    Record(&[10, 0, 0, 2, 0, 0, 0, 1, 0, 1, 1], Err((13, 0))),
    Record(&[10, 0, 0, 2, 0, 0, 0, 1, 0, 1, 0, 0, 1, 1], Ok(0)),
];

// Of several role axioms the first that is broken answers.
static FIRST_BROKEN: [Step; 10] = [
    Record(&[1, 4, 4], Ok(0)),
    Record(&[1, 0, 2], Ok(1)),
    Record(&[2, 2], Ok(2)),
    Record(&[1, 5, 3], Ok(3)),
    Record(&[6], Ok(0)),
    Record(&[8], Ok(0)),
    Record(
        &[10, 0, 0, 3, 0, 0, 0, 1, 1, 1, 2, 1, 2, 0, 2, 0, 0],
        Err((13, 1)),
    ),
    Record(
        &[10, 0, 0, 3, 0, 0, 1, 2, 1, 0, 1, 1, 1, 2, 2, 0, 0],
        Err((13, 2)),
    ),
    Record(&[10, 0, 0, 3, 0, 0, 1, 2, 1, 1, 2, 2, 0, 0], Err((13, 3))),
    Record(&[10, 0, 0, 3, 0, 0, 1, 2, 1, 1, 2, 2, 1, 2], Ok(0)),
];

#[test]
fn inclusions(rt: HostRuntime) -> Result<(), Fail> {
    play_all(rt.alloc(), ROOM, &[&BELOW])?;
    play_all(rt.alloc(), ROOM, &[&BELOW_INVERSE])?;
    play_all(rt.alloc(), ROOM, &[&SYMMETRIC])?;
    play_all(rt.alloc(), ROOM, &[&FIRST_BROKEN])
}

// Name 0; "some 0", "some 1", "only 0" and "only 1" of it; a claim of each of these, and one of name 0.
static ROLES: [Step; 11] = [
    Record(&[3, 2, 0, 0], Ok(0)),
    Record(&[3, 7, 0, 0], Ok(1)),
    Record(&[3, 7, 1, 0], Ok(2)),
    Record(&[3, 6, 0, 0], Ok(3)),
    Record(&[3, 6, 1, 0], Ok(4)),
    Record(&[6], Ok(0)),
    Record(&[8, 1], Ok(0)),
    Record(&[8, 2], Ok(1)),
    Record(&[8, 3], Ok(2)),
    Record(&[8, 4], Ok(3)),
    Record(&[8, 0, 1, 3], Ok(4)),
];

// An edge from 0 to 1, where 1 is in the name, or 0 is: a role that is read the wrong way is told by either.
static READ: [Step; 13] = [
    Record(&[10, 0, 1, 2, 1, 1, 0, 0, 0, 1], Err((15, 1))),
    Record(&[10, 0, 0, 2, 1, 0, 0, 0, 0, 1], Err((15, 1))),
    Record(&[10, 0, 0, 2, 1, 1, 0, 0, 0, 1], Ok(0)),
    Record(&[10, 1, 0, 2, 1, 1, 0, 0, 0, 1], Err((15, 2))),
    Record(&[10, 1, 1, 2, 1, 1, 0, 0, 0, 1], Err((15, 2))),
    Record(&[10, 1, 1, 2, 1, 0, 0, 0, 0, 1], Ok(0)),
    Record(&[10, 2, 0, 2, 1, 0, 0, 0, 0, 1], Err((15, 3))),
    Record(&[10, 2, 0, 2, 1, 1, 0, 0, 0, 1], Ok(0)),
    Record(&[10, 3, 1, 2, 1, 1, 0, 0, 0, 1], Err((15, 4))),
    Record(&[10, 3, 0, 2, 1, 1, 0, 0, 0, 1], Ok(0)),
    // of a label the least concept that the point misses
    Record(&[10, 4, 1, 2, 1, 0, 0, 0, 0, 1], Err((15, 0))),
    Record(&[10, 4, 0, 2, 1, 0, 0, 0, 0, 1], Err((15, 1))),
    Record(&[10, 4, 0, 2, 2, 0, 0, 1, 0, 0, 0, 1], Ok(0)),
];

#[test]
fn role_and_inverse(rt: HostRuntime) -> Result<(), Fail> {
    play_all(rt.alloc(), ROOM, &[&ROLES, &READ])
}

// Top, name 0 and name 1 as axioms, and a claim of nothing.
static AXIOMS: [Step; 8] = [
    Record(&[3, 0, 0, 0], Ok(0)),
    Record(&[3, 2, 0, 0], Ok(1)),
    Record(&[3, 2, 1, 0], Ok(2)),
    Record(&[5, 0], Ok(0)),
    Record(&[5, 1], Ok(1)),
    Record(&[5, 2], Ok(2)),
    Record(&[6], Ok(0)),
    Record(&[8], Ok(0)),
];

// A model of so many elements, each in both names, save that one of them misses one.
fn all_but_one(alloc: Global, size: u16, element: u16, name: u16) -> Result<Vec<u16>, AllocError> {
    let mut record = [10, 0, 0, size, (2 * size.min(256)).saturating_sub(1)].to_vec(alloc)?;
    for e in 0..size {
        for a in 0..2 {
            if (e, a) != (element, name) {
                record.extend_from_slice(&[e, a])?;
            }
        }
    }
    Ok(record)
}

// Each axiom is missed by one element alone.
fn miss(alloc: Global, docket: &mut Docket, size: u16, element: u16) -> Result<(), Fail> {
    let first = all_but_one(alloc, size, element, 0)?;
    let second = all_but_one(alloc, size, element, 1)?;
    play(
        alloc,
        docket,
        &[
            Record(first.as_slice(), Err((14, 1))),
            Record(second.as_slice(), Err((14, 2))),
        ],
    )
}

#[test]
fn axiom_missed_once(rt: HostRuntime) -> Result<(), Fail> {
    let mut concepts = [Concept::Top; 8];
    let mut lines = [Line::default(); 1];
    let mut docket = opened(ROOM, &mut concepts, &mut lines)?;
    play(rt.alloc(), &mut docket, &AXIOMS)?;
    for element in [0, 1, 63, 64, 127, 128, 191, 192, 254, 255] {
        miss(rt.alloc(), &mut docket, 256, element)?;
        miss(rt.alloc(), &mut docket, element + 1, element)?;
    }
    Ok(())
}
