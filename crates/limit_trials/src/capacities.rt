use book::line::Line;
use desk::step::Step::{self, Mate, Record, Tally};
use desk::{Room, opened, play};
use docket::Docket;
use logic::concept::Concept;
use std::alloc::Global;
use std::test::Fail;

// Names 0 and up as concepts 0 and up, so many of them.
fn file_names(alloc: Global, docket: &mut Docket, count: u16) -> Result<(), Fail> {
    for name in 0..count {
        play(
            alloc,
            docket,
            &[Record(&[3, 2, name, 0], Ok(name as usize))],
        )?;
    }
    Ok(())
}

// Inclusions and transitivities share one list of 256.
fn fill_role_axioms(alloc: Global, docket: &mut Docket) -> Result<(), Fail> {
    for i in 0..256u16 {
        let (role, number) = (i % 128, i as usize);
        if i % 3 == 0 {
            play(alloc, docket, &[Record(&[2, role], Ok(number))])?;
        } else {
            play(
                alloc,
                docket,
                &[Record(&[1, role, (i + 2) % 128], Ok(number))],
            )?;
        }
    }
    Ok(())
}

// A role out of range is seen first, the phase before all, and the other lists have room.
static ROLE_AXIOMS_FULL: [Step; 10] = [
    Record(&[1, 0, 0], Err((5, 256))),
    Record(&[2, 0], Err((5, 256))),
    Record(&[1, 128, 0], Err((3, 0))),
    Record(&[1, 0, 128], Err((3, 1))),
    Record(&[2, 128], Err((3, 0))),
    Record(&[3, 0, 0, 0], Ok(0)),
    Record(&[5, 0], Ok(0)),
    Record(&[6], Ok(0)),
    Record(&[1, 0, 0], Err((2, 0))),
    Record(&[2, 0], Err((2, 0))),
];

#[test]
fn role_axioms(rt: HostRuntime) -> Result<(), Fail> {
    let mut concepts = [Concept::Top; 1];
    let mut lines = [Line::default(); 1];
    let room = Room {
        concepts: 1,
        lines: 1,
    };
    let mut docket = opened(room, &mut concepts, &mut lines)?;
    fill_role_axioms(rt.alloc(), &mut docket)?;
    play(rt.alloc(), &mut docket, &ROLE_AXIOMS_FULL)
}

// A concept can be filed again, and the numbers are those of the list.
fn fill_axioms(alloc: Global, docket: &mut Docket) -> Result<(), Fail> {
    for i in 0..256u16 {
        play(alloc, docket, &[Record(&[5, i / 2], Ok(i as usize))])?;
    }
    Ok(())
}

// A concept that doesn't stand is seen first, and the phase before all; the role axioms have room.
static AXIOMS_FULL: [Step; 7] = [
    Record(&[5, 0], Err((5, 256))),
    Record(&[5, 255], Err((5, 256))),
    Record(&[5, 256], Err((4, 0))),
    Record(&[1, 0, 2], Ok(0)),
    Record(&[6], Ok(0)),
    Record(&[5, 0], Err((2, 0))),
    Record(&[5, 256], Err((2, 0))),
];

#[test]
fn axioms(rt: HostRuntime) -> Result<(), Fail> {
    let mut concepts = [Concept::Top; 256];
    let mut lines = [Line::default(); 1];
    let room = Room {
        concepts: 256,
        lines: 1,
    };
    let mut docket = opened(room, &mut concepts, &mut lines)?;
    file_names(rt.alloc(), &mut docket, 256)?;
    fill_axioms(rt.alloc(), &mut docket)?;
    play(rt.alloc(), &mut docket, &AXIOMS_FULL)
}

// A label may be claimed again.
pub fn fill_claims(alloc: Global, docket: &mut Docket) -> Result<(), Fail> {
    for i in 0..256u16 {
        play(alloc, docket, &[Record(&[8, i % 2], Ok(i as usize))])?;
    }
    Ok(())
}

// A member that doesn't stand is seen before, and one that doesn't rise after; the last claim stands, and no later one.
static CLAIMS_FULL: [Step; 10] = [
    Record(&[8, 0], Err((5, 256))),
    Record(&[8], Err((5, 256))),
    Record(&[8, 2], Err((4, 0))),
    Record(&[8, 1, 0, 2], Err((4, 2))),
    Record(&[8, 1, 0], Err((5, 256))),
    Record(&[9, 256, 0], Err((4, 0))),
    Record(&[9, 255, 0], Err((4, 1))),
    Record(&[10, 256, 0, 1, 0], Err((4, 0))),
    Record(&[10, 255, 0, 1, 1, 0, 1], Ok(0)),
    Tally(255, 0, 1),
];

static TWO_NAMES: [Step; 4] = [
    Record(&[3, 2, 0, 0], Ok(0)),
    Record(&[3, 2, 1, 0], Ok(1)),
    Record(&[6], Ok(0)),
    Record(&[8, 1, 0], Err((6, 1))),
];

#[test]
fn claims(rt: HostRuntime) -> Result<(), Fail> {
    let mut concepts = [Concept::Top; 2];
    let mut lines = [Line::default(); 1];
    let room = Room {
        concepts: 2,
        lines: 1,
    };
    let mut docket = opened(room, &mut concepts, &mut lines)?;
    play(rt.alloc(), &mut docket, &TWO_NAMES)?;
    fill_claims(rt.alloc(), &mut docket)?;
    play(rt.alloc(), &mut docket, &CLAIMS_FULL)
}

// What is out of range is seen before it is asked whether there is room.
static OUT_OF_RANGE: [Step; 3] = [
    Record(&[3, 8, 0, 0], Err((3, 0))),
    Record(&[3, 2, 1024, 0], Err((3, 1))),
    Record(&[3, 0, 0, 1], Err((3, 2))),
];

// And what doesn't stand. The last concept stands.
fn last_stands(alloc: Global, docket: &mut Docket, capacity: u16) -> Result<(), Fail> {
    for (record, place) in [
        ([3, 4, capacity, 0], 1),
        ([3, 4, 0, capacity], 2),
        ([3, 6, 0, capacity], 2),
    ] {
        play(alloc, docket, &[Record(&record, Err((4, place)))])?;
    }
    play(alloc, docket, &[Mate(capacity.saturating_sub(1), Ok(None))])?;
    play(alloc, docket, &[Mate(capacity, Err((4, 0)))])
}

// A docket of this capacity takes no concept more.
fn is_full(alloc: Global, docket: &mut Docket, capacity: u16) -> Result<(), Fail> {
    let full = Err((5, capacity as usize));
    let last = capacity.saturating_sub(1);
    for record in [
        [3, 2, 0, 0],
        [3, 0, 0, 0],
        [3, 4, 0, last],
        [3, 7, 127, last],
    ] {
        play(alloc, docket, &[Record(&record, full)])?;
    }
    play(alloc, docket, &OUT_OF_RANGE)?;
    last_stands(alloc, docket, capacity)
}

// In both phases.
fn fill_concepts(alloc: Global, docket: &mut Docket, capacity: u16) -> Result<(), Fail> {
    file_names(alloc, docket, capacity)?;
    is_full(alloc, docket, capacity)?;
    play(alloc, docket, &[Record(&[6], Ok(0))])?;
    is_full(alloc, docket, capacity)
}

// Capacities that the memory just fits, and those that it is longer than.
#[test]
fn concepts(rt: HostRuntime) -> Result<(), Fail> {
    let mut concepts = [Concept::Top; 1025];
    for (capacity, size) in [
        (1, 1),
        (1, 1025),
        (2, 3),
        (2, 1025),
        (3, 3),
        (3, 1025),
        (1023, 1024),
        (1023, 1025),
        (1024, 1024),
        (1024, 1025),
    ] {
        let Some(memory) = concepts.get_mut(..size) else {
            return Err(Fail::new("more memory than there is"));
        };
        let mut lines = [Line::default(); 1];
        let room = Room {
            concepts: capacity as usize,
            lines: 1,
        };
        let mut docket = opened(room, memory, &mut lines)?;
        fill_concepts(rt.alloc(), &mut docket, capacity)?;
    }
    Ok(())
}
