use crate::small::{LINES, VOCABULARY};
use book::line::Line;
use desk::step::Step::{self, Record};
use desk::{Room, Said, opened, play};
use docket::Docket;
use logic::concept::Concept;
use std::alloc::Global;
use std::test::Fail;

// A field of a record that is wrong: its place, the number there, and the refusal. The kind has place 0.
type Fault = (usize, u16, Said<usize>);

// The lines below stand on the small docket with its first three lines. The faults are listed in the order in which they are
// looked for.

// Rule 2 cites no line.
const CLASH: [u16; 10] = [7, 2, 0, 1, 0, 0, 0, 0, 1, 3];

static CLASH_FAULTS: [Fault; 15] = [
    (1, 0, Err((3, 0))),
    (1, 11, Err((3, 0))),
    (1, 65535, Err((3, 0))),
    // also a line that stands, and one that doesn't
    (5, 1, Err((3, 4))),
    (5, 65535, Err((3, 4))),
    (6, 1, Err((3, 5))),
    (6, 65535, Err((3, 5))),
    (2, 6, Err((4, 1))),
    (3, 6, Err((4, 2))),
    (4, 6, Err((4, 3))),
    (7, 6, Err((4, 6))),
    (9, 65535, Err((4, 8))),
    (8, 0, Err((6, 7))),
    (9, 1, Err((6, 8))),
    (2, 3, Err((8, 2))),
];

// Rule 10 cites one.
const NEIGHBOUR: [u16; 10] = [7, 10, 3, 0, 0, 1, 0, 0, 3, 5];

static NEIGHBOUR_FAULTS: [Fault; 13] = [
    (1, 11, Err((3, 0))),
    (6, 1, Err((3, 5))),
    (6, 65535, Err((3, 5))),
    (2, 6, Err((4, 1))),
    (3, 65535, Err((4, 2))),
    (4, 6, Err((4, 3))),
    (5, 3, Err((4, 4))),
    (8, 6, Err((4, 7))),
    (8, 0, Err((6, 7))),
    (9, 3, Err((6, 8))),
    (2, 2, Err((8, 10))),
    (3, 1, Err((8, 10))),
    // {0, 1} is not within {2, 4}
    (5, 0, Err((9, 0))),
];

// Rule 7 cites two: {0, 3, 5} is within {0, 2, 3, 4, 5}, and {2, 4} within {1, 2, 3, 4, 5}.
const CUT: [u16; 11] = [7, 7, 0, 1, 0, 2, 1, 2, 3, 4, 5];

static CUT_FAULTS: [Fault; 14] = [
    (1, 11, Err((3, 0))),
    (2, 6, Err((4, 1))),
    (3, 6, Err((4, 2))),
    (4, 6, Err((4, 3))),
    (5, 3, Err((4, 4))),
    (6, 65535, Err((4, 5))),
    (7, 6, Err((4, 6))),
    (10, 6, Err((4, 9))),
    (8, 2, Err((6, 7))),
    (10, 0, Err((6, 9))),
    (3, 2, Err((8, 7))),
    (4, 5, Err((8, 7))),
    // of the first line that is not within its conclusion, the least concept: 1 of {0, 1}, and 0 of {0, 1} or of {0, 3, 5}
    (5, 0, Err((9, 1))),
    (6, 2, Err((9, 0))),
];

// How the docket stands: before the seal, with a line free, or with none.
#[derive(Clone, Copy)]
enum State {
    Unsealed,
    Free,
    Full,
}

// What is said in this state to a record that is refused like this where there is room.
fn said_in(state: State, said: Said<usize>) -> Said<usize> {
    match (state, said) {
        (State::Unsealed, _) => Err((2, 0)),
        (State::Full, Ok(_) | Err((6..=15, _))) => Err((5, 3)),
        _ => said,
    }
}

// Writes a fault into the record.
fn put(record: &mut [u16], (place, wrong, _): Fault) {
    if let Some(field) = record.get_mut(place) {
        *field = wrong;
    }
}

// The record with each two of the faults: the earlier one answers.
fn two_faults(
    alloc: Global,
    docket: &mut Docket,
    state: State,
    record: &[u16],
    faults: &[Fault],
) -> Result<(), Fail> {
    for (i, earlier) in faults.iter().enumerate() {
        for later in faults.iter().skip(i) {
            let mut wrong = record.to_vec(alloc)?;
            put(wrong.as_mut_slice(), *later);
            put(wrong.as_mut_slice(), *earlier);
            let said = said_in(state, earlier.2);
            play(alloc, docket, &[Record(wrong.as_slice(), said)])?;
        }
    }
    Ok(())
}

fn all_faults(alloc: Global, docket: &mut Docket, state: State) -> Result<(), Fail> {
    two_faults(alloc, docket, state, &CLASH, &CLASH_FAULTS)?;
    two_faults(alloc, docket, state, &NEIGHBOUR, &NEIGHBOUR_FAULTS)?;
    two_faults(alloc, docket, state, &CUT, &CUT_FAULTS)
}

// Each of the three lines, without a fault, where there is room for it.
static RIGHT: [Step; 3] = [
    Record(&CLASH, Ok(3)),
    Record(&NEIGHBOUR, Ok(4)),
    Record(&CUT, Ok(5)),
];

// Three lines stand, where there is room for so many.
fn with_room(alloc: Global, capacity: usize, state: State, end: &[Step]) -> Result<(), Fail> {
    let mut concepts = [Concept::Top; 6];
    let mut lines = [Line::default(); 6];
    let room = Room {
        concepts: 6,
        lines: capacity,
    };
    let mut docket = opened(room, &mut concepts, &mut lines)?;
    play(alloc, &mut docket, &VOCABULARY[..8])?;
    all_faults(alloc, &mut docket, State::Unsealed)?;
    play(alloc, &mut docket, &VOCABULARY[8..])?;
    play(alloc, &mut docket, &LINES[..3])?;
    all_faults(alloc, &mut docket, state)?;
    play(alloc, &mut docket, end)
}

#[test]
fn first_fault_answers(rt: HostRuntime) -> Result<(), Fail> {
    with_room(rt.alloc(), 6, State::Free, &RIGHT)?;
    with_room(rt.alloc(), 3, State::Full, &[])
}
