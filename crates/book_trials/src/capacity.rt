use book::line::Line;
use desk::step::Step::{self, Record};
use desk::{Room, opened, play};
use docket::Docket;
use logic::concept::Concept;
use std::alloc::Global;
use std::test::Fail;

// Bottom; name 0 and not name 0, which are mates; and the seal.
static VOCABULARY: [Step; 5] = [
    Record(&[3, 1, 0, 0], Ok(0)),
    Record(&[3, 2, 0, 0], Ok(1)),
    Record(&[3, 3, 0, 0], Ok(2)),
    Record(&[4, 1, 2], Ok(0)),
    Record(&[6], Ok(0)),
];

// The line {Bottom}, by rule 1.
const BOTTOM: [u16; 8] = [7, 1, 0, 0, 0, 0, 0, 0];

// What is seen before it is asked whether a line is free. No line has the number 4,096.
static BEFORE: [Step; 9] = [
    Record(&[7, 11, 0, 0, 0, 0, 0, 0], Err((3, 0))),
    Record(&[7, 1, 0, 0, 0, 1, 0, 0], Err((3, 4))),
    Record(&[7, 1, 0, 0, 0, 0, 1, 0], Err((3, 5))),
    Record(&[7, 1, 3, 0, 0, 0, 0, 0], Err((4, 1))),
    Record(&[7, 1, 0, 3, 0, 0, 0, 0], Err((4, 2))),
    Record(&[7, 1, 0, 0, 3, 0, 0, 0], Err((4, 3))),
    Record(&[7, 6, 0, 0, 0, 4096, 0, 0], Err((4, 4))),
    Record(&[7, 1, 0, 0, 0, 0, 0, 3], Err((4, 6))),
    Record(&[7, 1, 0, 0, 0, 0, 0, 1, 0, 3], Err((4, 8))),
];

// What is seen after that, where line 0 stands: labels that don't rise, a step that doesn't apply, and one without licence.
static BEHIND: [Step; 4] = [
    Record(&[7, 1, 0, 0, 0, 0, 0, 1, 0], Err((6, 7))),
    Record(&[7, 1, 0, 0, 0, 0, 0, 0, 0], Err((6, 7))),
    Record(&[7, 1, 1, 0, 0, 0, 0, 0, 1], Err((8, 1))),
    Record(&[7, 7, 1, 2, 0, 0, 0, 1], Err((9, 0))),
];

// Files so many lines, numbered from this one on.
fn file(alloc: Global, docket: &mut Docket, from: u16, to: u16) -> Result<(), Fail> {
    for n in from..to {
        play(alloc, docket, &[Record(&BOTTOM, Ok(n as usize))])?;
    }
    Ok(())
}

// One line more, and what would be refused for other reasons after that, where no line is free.
fn is_full(alloc: Global, docket: &mut Docket, capacity: u16) -> Result<(), Fail> {
    let full = Err((5, capacity as usize));
    play(alloc, docket, &[Record(&BOTTOM, full)])?;
    for step in &BEHIND {
        if let Record(record, _) = *step {
            play(alloc, docket, &[Record(record, full)])?;
        }
    }
    Ok(())
}

// The last line stands, and none after it.
fn last_stands(alloc: Global, docket: &mut Docket, capacity: u16) -> Result<(), Fail> {
    play(
        alloc,
        docket,
        &[
            Record(&[8, 0], Ok(0)),
            Record(&[9, 0, capacity], Err((4, 1))),
            Record(&[9, 0, capacity.saturating_sub(1)], Ok(0)),
        ],
    )
}

// As many lines as the capacity says, and another.
fn fill(alloc: Global, docket: &mut Docket, capacity: u16) -> Result<(), Fail> {
    play(alloc, docket, &VOCABULARY)?;
    let last = capacity.saturating_sub(1);
    file(alloc, docket, 0, last)?;
    play(alloc, docket, &BEFORE)?;
    if last > 0 {
        play(alloc, docket, &BEHIND)?;
    }
    file(alloc, docket, last, capacity)?;
    play(alloc, docket, &BEFORE)?;
    is_full(alloc, docket, capacity)?;
    last_stands(alloc, docket, capacity)
}

// The memory is longer than these capacities, save the last.
#[test]
fn capacities(rt: HostRuntime) -> Result<(), Fail> {
    let mut lines = [Line::default(); 4096];
    for capacity in [1, 2, 3, 64, 255, 256, 4095, 4096] {
        let mut concepts = [Concept::Top; 3];
        let room = Room {
            concepts: 3,
            lines: capacity as usize,
        };
        let mut docket = opened(room, &mut concepts, &mut lines)?;
        fill(rt.alloc(), &mut docket, capacity)?;
    }
    Ok(())
}
