use desk::step::Step::{self, Record};
use desk::{Room, play_all};
use std::test::Fail;

// Name 0, the seal, and claims of nothing. A model is written as claim, point, size, count of marks, marks and edges.
static DOCKET: [Step; 6] = [
    Record(&[3, 2, 0, 0], Ok(0)),
    Record(&[6], Ok(0)),
    Record(&[8], Ok(0)),
    Record(&[8], Ok(1)),
    Record(&[8], Ok(2)),
    Record(&[8], Ok(3)),
];

// Size, point, counts and lengths, which come before any item.
static SIZES: [Step; 20] = [
    Record(&[10, 0, 0, 0, 0], Err((12, 0))),
    Record(&[10, 0, 0, 257, 0], Err((12, 0))),
    Record(&[10, 0, 256, 257, 0], Err((12, 0))),
    Record(&[10, 0, 0, 65535, 0], Err((12, 0))),
    Record(&[10, 0, 1, 1, 0], Err((12, 0))),
    Record(&[10, 0, 65535, 1, 0], Err((12, 0))),
    Record(&[10, 0, 256, 256, 0], Err((12, 0))),
    // a count that is more, or less, than the marks that are there
    Record(&[10, 0, 0, 1, 1], Err((12, 0))),
    Record(&[10, 0, 0, 1, 1, 0], Err((12, 0))),
    Record(&[10, 0, 0, 1, 2, 0, 0], Err((12, 0))),
    Record(&[10, 0, 0, 1, 0, 0, 0], Err((12, 0))),
    Record(&[10, 0, 0, 1, 65535, 0, 0], Err((12, 0))),
    // edges of one field or two
    Record(&[10, 0, 0, 1, 0, 0], Err((12, 0))),
    Record(&[10, 0, 0, 1, 1, 0, 0, 0, 0, 0, 0], Err((12, 0))),
    Record(&[10, 0, 0, 1, 1, 0, 0, 0, 0, 0, 0, 0], Err((12, 0))),
    // and items that are wrong besides
    Record(&[10, 0, 0, 0, 1, 0, 1024], Err((12, 0))),
    Record(&[10, 0, 1, 1, 0, 64, 0, 0], Err((12, 0))),
    // the least and the most
    Record(&[10, 0, 0, 1, 0], Ok(0)),
    Record(&[10, 1, 255, 256, 0], Ok(0)),
    Record(&[10, 2, 0, 1, 1, 0, 0, 0, 0, 0], Ok(0)),
];

// Marks out of range, equal and falling. The first that is wrong answers, by its place from 1 up.
static MARKS: [Step; 14] = [
    Record(&[10, 3, 0, 3, 1, 3, 0], Err((12, 1))),
    Record(&[10, 3, 0, 3, 1, 0, 1024], Err((12, 1))),
    Record(&[10, 3, 0, 3, 1, 65535, 65535], Err((12, 1))),
    Record(&[10, 3, 0, 3, 2, 0, 0, 0, 0], Err((12, 2))),
    Record(&[10, 3, 0, 3, 2, 1, 0, 0, 5], Err((12, 2))),
    Record(&[10, 3, 0, 3, 2, 1, 5, 1, 4], Err((12, 2))),
    Record(&[10, 3, 0, 3, 3, 0, 0, 1, 5, 1, 4], Err((12, 3))),
    Record(&[10, 3, 0, 3, 3, 0, 0, 1, 4, 3, 0], Err((12, 3))),
    Record(&[10, 3, 0, 3, 3, 0, 0, 1, 4, 2, 1024], Err((12, 3))),
    Record(&[10, 3, 0, 3, 3, 1, 0, 0, 0, 3, 0], Err((12, 2))),
    Record(&[10, 3, 0, 3, 3, 3, 0, 1, 0, 2, 0], Err((12, 1))),
    Record(&[10, 3, 0, 3, 2, 2, 1023, 2, 1023], Err((12, 2))),
    // before an edge
    Record(&[10, 3, 0, 3, 1, 3, 0, 64, 0, 0], Err((12, 1))),
    Record(&[10, 3, 0, 3, 2, 0, 0, 0, 0, 0, 3, 0], Err((12, 2))),
];

// The same of edges, whose places go on after the marks.
static EDGES: [Step; 15] = [
    Record(&[10, 3, 0, 3, 0, 64, 0, 0], Err((12, 1))),
    Record(&[10, 3, 0, 3, 0, 0, 3, 0], Err((12, 1))),
    Record(&[10, 3, 0, 3, 0, 0, 0, 3], Err((12, 1))),
    Record(&[10, 3, 0, 3, 0, 65535, 65535, 65535], Err((12, 1))),
    Record(&[10, 3, 0, 3, 0, 0, 0, 1, 0, 0, 1], Err((12, 2))),
    Record(&[10, 3, 0, 3, 0, 1, 0, 0, 0, 2, 2], Err((12, 2))),
    Record(&[10, 3, 0, 3, 0, 0, 1, 0, 0, 0, 2], Err((12, 2))),
    Record(&[10, 3, 0, 3, 0, 0, 1, 2, 0, 1, 1], Err((12, 2))),
    Record(&[10, 3, 0, 3, 0, 0, 0, 0, 0, 0, 1, 0, 0, 1], Err((12, 3))),
    Record(&[10, 3, 0, 3, 0, 0, 1, 0, 0, 0, 0, 64, 0, 0], Err((12, 2))),
    Record(&[10, 3, 0, 3, 1, 0, 0, 64, 0, 0], Err((12, 2))),
    Record(&[10, 3, 0, 3, 2, 0, 0, 1, 0, 0, 3, 0], Err((12, 3))),
    Record(
        &[10, 3, 0, 3, 2, 0, 0, 1, 0, 0, 0, 1, 0, 0, 1],
        Err((12, 4)),
    ),
    Record(
        &[10, 3, 0, 3, 2, 0, 0, 1, 0, 63, 2, 2, 63, 2, 1],
        Err((12, 4)),
    ),
    // the highest numbers, in order
    Record(
        &[
            10, 3, 2, 3, 3, 0, 1023, 2, 0, 2, 1023, 0, 2, 2, 63, 0, 2, 63, 2, 2,
        ],
        Ok(0),
    ),
];

#[test]
fn form(rt: HostRuntime) -> Result<(), Fail> {
    let room = Room {
        concepts: 1,
        lines: 1,
    };
    play_all(rt.alloc(), room, &[&DOCKET, &SIZES, &MARKS, &EDGES])
}
