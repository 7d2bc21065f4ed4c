use book::line::Line;
use desk::notation::bytes_of;
use desk::step::Step::{self, Record};
use desk::{Room, Said, expect, opened, play, told};
use docket::Docket;
use logic::concept::Concept;
use models::Model;
use std::alloc::Global;
use std::array;
use std::test::Fail;

const ROOM: Room = Room {
    concepts: 11,
    lines: 1,
};

// Top, Bottom, name 0 and not name 0; "2 and 0", "1 or 2", "only 0 of 2", "some 0 of 2", "some 1 of 2" and "some 0 of 3"; as an
// axiom "only 8 of 1". Role 4 is below role 6.
static DOCKET: [Step; 19] = [
    Record(&[1, 4, 6], Ok(0)),
    Record(&[3, 0, 0, 0], Ok(0)),
    Record(&[3, 1, 0, 0], Ok(1)),
    Record(&[3, 2, 0, 0], Ok(2)),
    Record(&[3, 3, 0, 0], Ok(3)),
    Record(&[3, 4, 2, 0], Ok(4)),
    Record(&[3, 5, 1, 2], Ok(5)),
    Record(&[3, 6, 0, 2], Ok(6)),
    Record(&[3, 7, 0, 2], Ok(7)),
    Record(&[3, 7, 1, 2], Ok(8)),
    Record(&[3, 7, 0, 3], Ok(9)),
    Record(&[3, 6, 8, 1], Ok(10)),
    Record(&[5, 10], Ok(0)),
    Record(&[6], Ok(0)),
    Record(&[8], Ok(0)),
    Record(&[8], Ok(1)),
    Record(&[8], Ok(2)),
    Record(&[8], Ok(3)),
    Record(&[8, 9], Ok(4)),
];

// The four words of a concept.
type Row = [u64; 4];

const ALL: u64 = u64::MAX;

// A model: its size, its marks and its edges. The point is element 0.
type Given = (u16, &'static [u16], &'static [u16]);

static WHOLE: Given = (
    256,
    &[191, 0, 192, 0, 255, 0],
    &[0, 64, 65, 0, 192, 191, 0, 255, 255],
);

// Elements 191, 192 and 255 are in name 0.
static ROWS_OF_WHOLE: [Row; 11] = [
    [ALL, ALL, ALL, ALL],
    [0, 0, 0, 0],
    [0, 0, 0x8000_0000_0000_0000, 0x8000_0000_0000_0001],
    [ALL, ALL, 0x7fff_ffff_ffff_ffff, 0x7fff_ffff_ffff_fffe],
    [0, 0, 0x8000_0000_0000_0000, 0x8000_0000_0000_0001],
    [0, 0, 0x8000_0000_0000_0000, 0x8000_0000_0000_0001],
    [ALL, 0xffff_ffff_ffff_fffe, ALL, ALL],
    [0, 0, 0, 0x8000_0000_0000_0001],
    [0, 0, 0x8000_0000_0000_0000, 0x8000_0000_0000_0000],
    [0, 1, 0, 0],
    [ALL, ALL, ALL, ALL],
];

static WITH_A_WORD: Given = (65, &[64, 0], &[0, 0, 64]);

// One word and one bit.
static ROWS_WITH_A_WORD: [Row; 11] = [
    [ALL, 1, 0, 0],
    [0, 0, 0, 0],
    [0, 1, 0, 0],
    [ALL, 0, 0, 0],
    [0, 1, 0, 0],
    [0, 1, 0, 0],
    [ALL, 1, 0, 0],
    [1, 0, 0, 0],
    [0, 0, 0, 0],
    [0, 0, 0, 0],
    [ALL, 1, 0, 0],
];

static ONE_WORD: Given = (64, &[63, 0], &[0, 63, 0]);

// One word.
static ROWS_OF_ONE_WORD: [Row; 11] = [
    [ALL, 0, 0, 0],
    [0, 0, 0, 0],
    [0x8000_0000_0000_0000, 0, 0, 0],
    [0x7fff_ffff_ffff_ffff, 0, 0, 0],
    [0x8000_0000_0000_0000, 0, 0, 0],
    [0x8000_0000_0000_0000, 0, 0, 0],
    [0x7fff_ffff_ffff_ffff, 0, 0, 0],
    [0, 0, 0, 0],
    [1, 0, 0, 0],
    [0x8000_0000_0000_0000, 0, 0, 0],
    [ALL, 0, 0, 0],
];

static ONE_ELEMENT: Given = (1, &[0, 0], &[0, 0, 0]);

// One bit.
static ROWS_OF_ONE_ELEMENT: [Row; 11] = [
    [1, 0, 0, 0],
    [0, 0, 0, 0],
    [1, 0, 0, 0],
    [0, 0, 0, 0],
    [1, 0, 0, 0],
    [1, 0, 0, 0],
    [1, 0, 0, 0],
    [1, 0, 0, 0],
    [1, 0, 0, 0],
    [0, 0, 0, 0],
    [1, 0, 0, 0],
];

static OFF_THE_AXIOM: Given = (
    256,
    &[191, 0, 192, 0, 255, 0],
    &[0, 64, 65, 0, 192, 191, 0, 255, 255, 4, 0, 1],
);

// The axiom misses element 0.
static ROWS_OFF_THE_AXIOM: [Row; 11] = [
    [ALL, ALL, ALL, ALL],
    [0, 0, 0, 0],
    [0, 0, 0x8000_0000_0000_0000, 0x8000_0000_0000_0001],
    [ALL, ALL, 0x7fff_ffff_ffff_ffff, 0x7fff_ffff_ffff_fffe],
    [0, 0, 0x8000_0000_0000_0000, 0x8000_0000_0000_0001],
    [0, 0, 0x8000_0000_0000_0000, 0x8000_0000_0000_0001],
    [ALL, 0xffff_ffff_ffff_fffe, ALL, ALL],
    [0, 0, 0, 0x8000_0000_0000_0001],
    [0, 0, 0x8000_0000_0000_0000, 0x8000_0000_0000_0000],
    [0, 1, 0, 0],
    [0xffff_ffff_ffff_fffe, ALL, ALL, ALL],
];

static OFF_THE_ROLE_AXIOM: Given = (256, &[191, 0], &[2, 0, 1]);

static NO_ELEMENT: Given = (0, &[], &[]);

// What the memory holds before a call.
const OLD: u64 = 0x5555_5555_5555_5555;

// The memory after a call that has written these rows: two words more than they need, as they were.
fn written(rows: &[Row; 11]) -> [u64; 46] {
    array::from_fn(|i| match rows.get(i / 4) {
        Some(row) => row[i % 4],
        None => OLD,
    })
}

// Closes a claim by the model, over so many words of memory, and compares what is said and what is in the memory.
fn judge(
    alloc: Global,
    docket: &mut Docket,
    (claim, words): (u16, usize),
    given: &Given,
    said: Said<usize>,
    memory: [u64; 46],
) -> Result<(), Fail> {
    let (size, marks, edges) = *given;
    let mark_bytes = bytes_of(alloc, marks)?;
    let edge_bytes = bytes_of(alloc, edges)?;
    let model = Model {
        size,
        point: 0,
        mark_count: (marks.len() / 2).min(99) as u16,
        marks: mark_bytes.as_slice(),
        edges: edge_bytes.as_slice(),
    };
    let mut rows = [OLD; 46];
    let answer = docket.close_inhabited(claim, &model, &mut rows[..words.min(46)]);
    expect("answer", told(answer), said)?;
    expect("rows", rows, memory)
}

// After an acceptance, and after 14 and 15, the rows hold the evaluation.
#[test]
fn evaluated(rt: HostRuntime) -> Result<(), Fail> {
    let mut concepts = [Concept::Top; 11];
    let mut lines = [Line::default(); 1];
    let mut docket = opened(ROOM, &mut concepts, &mut lines)?;
    play(rt.alloc(), &mut docket, &DOCKET)?;
    for (claim, given, said, rows) in [
        (0, &WHOLE, Ok(0), &ROWS_OF_WHOLE),
        (1, &WITH_A_WORD, Ok(0), &ROWS_WITH_A_WORD),
        (2, &ONE_WORD, Ok(0), &ROWS_OF_ONE_WORD),
        (3, &ONE_ELEMENT, Ok(0), &ROWS_OF_ONE_ELEMENT),
        (4, &OFF_THE_AXIOM, Err((14, 0)), &ROWS_OFF_THE_AXIOM),
        (4, &WHOLE, Err((15, 9)), &ROWS_OF_WHOLE),
    ] {
        judge(
            rt.alloc(),
            &mut docket,
            (claim, 46),
            given,
            said,
            written(rows),
        )?;
    }
    Ok(())
}

// After every other refusal they are as they were.
#[test]
fn untouched(rt: HostRuntime) -> Result<(), Fail> {
    let mut concepts = [Concept::Top; 11];
    let mut lines = [Line::default(); 1];
    let mut docket = opened(ROOM, &mut concepts, &mut lines)?;
    judge(
        rt.alloc(),
        &mut docket,
        (0, 46),
        &WHOLE,
        Err((2, 0)),
        [OLD; 46],
    )?;
    play(rt.alloc(), &mut docket, &DOCKET)?;
    judge(
        rt.alloc(),
        &mut docket,
        (0, 44),
        &WHOLE,
        Ok(0),
        written(&ROWS_OF_WHOLE),
    )?;
    for (claim, words, given, said) in [
        // 19 fields, of which 15 are of marks and edges
        (4, 43, &WHOLE, Err((3, 19))),
        (9, 0, &WHOLE, Err((3, 19))),
        (9, 43, &NO_ELEMENT, Err((3, 4))),
        (5, 46, &WHOLE, Err((4, 0))),
        (0, 46, &WHOLE, Err((10, 0))),
        (4, 46, &NO_ELEMENT, Err((12, 0))),
        (4, 46, &OFF_THE_ROLE_AXIOM, Err((13, 0))),
    ] {
        judge(
            rt.alloc(),
            &mut docket,
            (claim, words),
            given,
            said,
            [OLD; 46],
        )?;
    }
    Ok(())
}
