use book::line::Line;
use desk::notation::bytes_of;
use desk::step::Step::Record;
use desk::{Room, Said, expect, opened, play, told};
use docket::Docket;
use logic::concept::Concept;
use models::Model;
use std::alloc::{AllocError, Global};
use std::array;
use std::test::Fail;

// The largest of all: 1,024 concepts, 256 axioms, and a model of 256 elements with 4,096 marks and 4,096 edges. Role 0 joins
// the elements of each block of 16, so that what is asked of all neighbours, or of some, is asked of a block.

// The four words of a concept.
type Row = [u64; 4];

// Whether an element is in a name: a bit of its number, set or not, for each of 16 names.
fn is_marked(element: u16, name: u16) -> bool {
    (element >> (name / 4 % 8)) % 2 == name % 2
}

// Concept `i` as it is filed: 32 names, and after them "or", "or", "and", "and", "some" and "only", over and over.
fn filed(i: u16) -> [u16; 3] {
    let (a, b) = (i.saturating_sub(7), i.saturating_sub(25));
    match i % 6 {
        _ if i < 32 => [2, i, 0],
        0 | 1 => [5, a, b],
        2 | 3 => [4, a, b],
        4 => [7, i % 2, a],
        _ => [6, i % 2, a],
    }
}

fn named(name: u16) -> Row {
    let mut row = [0; 4];
    for element in 0..256u16 {
        if is_marked(element, name) {
            row[element as usize / 64] |= 1 << (element % 64);
        }
    }
    row
}

// The blocks of a word.
const BLOCKS: [u64; 4] = [
    0x0000_0000_0000_ffff,
    0x0000_0000_ffff_0000,
    0x0000_ffff_0000_0000,
    0xffff_0000_0000_0000,
];

// The blocks of which all elements are in the word, or of which some are.
fn blocks(word: u64, all: bool) -> u64 {
    let mut hit = 0;
    for block in BLOCKS {
        let part = word & block;
        if part == block || (!all && part != 0) {
            hit |= block;
        }
    }
    hit
}

// What a concept comes to, from the rows of those before it.
fn row_of(rows: &[Row], [tag, a, b]: [u16; 3]) -> Row {
    let part = |c: u16| rows.get(c as usize).copied().unwrap_or([0; 4]);
    match tag {
        2 => named(a),
        4 => array::from_fn(|w| part(a)[w] & part(b)[w]),
        5 => array::from_fn(|w| part(a)[w] | part(b)[w]),
        _ => array::from_fn(|w| blocks(part(b)[w], tag == 6)),
    }
}

fn expected_rows(alloc: Global) -> Result<Vec<Row>, AllocError> {
    let mut rows = Vec::new(alloc);
    for i in 0..1024 {
        let row = row_of(rows.as_slice(), filed(i));
        rows.push(row)?;
    }
    Ok(rows)
}

// Which concepts have this element.
fn with_element(alloc: Global, rows: &[Row], element: usize) -> Result<Vec<u16>, AllocError> {
    let mut label = Vec::new(alloc);
    for (c, row) in rows.iter().enumerate() {
        if (row[element / 64 % 4] >> (element % 64)) % 2 == 1 {
            label.push(c.min(1023) as u16)?;
        }
    }
    Ok(label)
}

// The concepts that have every element.
fn full(alloc: Global, rows: &[Row]) -> Result<Vec<u16>, AllocError> {
    let mut label = Vec::new(alloc);
    for (c, row) in rows.iter().enumerate() {
        if *row == [u64::MAX; 4] {
            label.push(c.min(1023) as u16)?;
        }
    }
    Ok(label)
}

fn marks(alloc: Global) -> Result<Vec<u16>, AllocError> {
    let mut marks = Vec::new(alloc);
    for element in 0..256 {
        for name in 0..32 {
            if is_marked(element, name) {
                marks.extend_from_slice(&[element, name])?;
            }
        }
    }
    Ok(marks)
}

fn edges(alloc: Global) -> Result<Vec<u16>, AllocError> {
    let mut edges = Vec::new(alloc);
    for from in 0..256u16 {
        for k in 0..16 {
            edges.extend_from_slice(&[0, from, from / 16 * 16 + k])?;
        }
    }
    Ok(edges)
}

// Three role axioms, 1,024 concepts and 256 axioms, and the seal.
fn file_vocabulary(alloc: Global, docket: &mut Docket, axioms: &[u16]) -> Result<(), Fail> {
    // role 0 is transitive, and below its own inverse
    play(
        alloc,
        docket,
        &[
            Record(&[2, 0], Ok(0)),
            Record(&[1, 0, 1], Ok(1)),
            Record(&[1, 1, 0], Ok(2)),
        ],
    )?;
    for i in 0..1024u16 {
        let [tag, a, b] = filed(i);
        play(alloc, docket, &[Record(&[3, tag, a, b], Ok(i as usize))])?;
    }
    for (i, c) in axioms.iter().cycle().take(256).enumerate() {
        play(alloc, docket, &[Record(&[5, *c], Ok(i))])?;
    }
    play(alloc, docket, &[Record(&[6], Ok(0))])
}

// A claim of this label.
fn claim(alloc: Global, docket: &mut Docket, label: &[u16], number: usize) -> Result<(), Fail> {
    let mut record = [8].to_vec(alloc)?;
    record.extend_from_slice(label)?;
    play(alloc, docket, &[Record(record.as_slice(), Ok(number))])
}

// Closes a claim by the model with this point.
fn close(
    alloc: Global,
    docket: &mut Docket,
    (number, point): (u16, u16),
    expected: &[Row],
    said: Said<usize>,
) -> Result<(), Fail> {
    let marks = marks(alloc)?;
    let edges = edges(alloc)?;
    expect("marks", marks.len(), 2 * 4096)?;
    expect("edges", edges.len(), 3 * 4096)?;
    let marks = bytes_of(alloc, marks.as_slice())?;
    let edges = bytes_of(alloc, edges.as_slice())?;
    let model = Model {
        size: 256,
        point,
        mark_count: 4096,
        marks: marks.as_slice(),
        edges: edges.as_slice(),
    };
    let mut rows = [0; 4096];
    let answer = docket.close_inhabited(number, &model, &mut rows);
    expect("answer", told(answer), said)?;
    for (c, (row, words)) in expected.iter().zip(rows.chunks(4)).enumerate() {
        expect(format_args!("row {c}"), words, row.as_slice())?;
    }
    Ok(())
}

// The claim of all that element 255 is in, which is inhabited at that element and at no other.
#[test]
fn largest(rt: HostRuntime) -> Result<(), Fail> {
    let alloc = rt.alloc();
    let mut concepts = [Concept::Top; 1024];
    let mut lines = [Line::default(); 1];
    let room = Room {
        concepts: 1024,
        lines: 1,
    };
    let mut docket = opened(room, &mut concepts, &mut lines)?;
    let rows = expected_rows(alloc)?;
    file_vocabulary(alloc, &mut docket, full(alloc, rows.as_slice())?.as_slice())?;
    claim(
        alloc,
        &mut docket,
        with_element(alloc, rows.as_slice(), 255)?.as_slice(),
        0,
    )?;
    // name 1 has the elements with odd numbers
    close(alloc, &mut docket, (0, 254), rows.as_slice(), Err((15, 1)))?;
    close(alloc, &mut docket, (0, 255), rows.as_slice(), Ok(0))
}
