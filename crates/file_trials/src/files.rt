use book::line::Line;
use desk::step::{UNTOUCHED, hand_over};
use desk::{Room, Said, expect, opened, replied, told};
use intake::Reply;
use logic::concept::Concept;
use records::reader::count;
use std::test::Fail;

pub const MALFORMED: u16 = 1;

pub const ROOM: Room = Room {
    concepts: 3,
    lines: 1,
};

// Nothing was written to this place, in turn `n` of the test.
pub fn is_untouched(n: usize, reply: &Reply) -> Result<(), Fail> {
    expect(
        format_args!("turn {n}"),
        replied(reply),
        replied(&UNTOUCHED),
    )
}

// The records of the table below, one to a line.
pub static FILE: &[u8] = b"\
        \x04\0\x01\0\0\0\x02\0\
        \x02\0\x02\0\x02\0\
        \x06\0\x03\0\x02\0\x07\0\0\0\
        \x06\0\x03\0\x03\0\x07\0\0\0\
        \x04\0\x04\0\0\0\x01\0\
        \x02\0\x05\0\0\0\
        \0\0\x06\0\
        \x0c\0\x07\0\x01\0\0\0\x01\0\0\0\0\0\0\0\
        \x02\0\x08\0\x01\0\
        \x04\0\x09\0\0\0\0\0\
        \x08\0\x0a\0\0\0\0\0\x01\0\0\0\
        \x06\0\x03\0\0\0\0\0\0\0\
        \x02\0\x05\0\0\0";

// Where a record begins and ends, its kind, and what is answered to it.
pub type Row = (usize, usize, u16, Said<usize>);

// A record of each kind and a few more.
pub static RECORDS: [Row; 13] = [
    // role 0 below role 2; role 2 transitive
    (0, 8, 1, Ok(0)),
    (8, 14, 2, Ok(1)),
    // name 7, and not name 7, as mates
    (14, 24, 3, Ok(0)),
    (24, 34, 3, Ok(1)),
    (34, 42, 4, Ok(0)),
    // name 7 as an axiom, and the seal
    (42, 48, 5, Ok(0)),
    (48, 52, 6, Ok(0)),
    // a line by a step that doesn't apply; a claim of "not name 7"; no line to close it by; a model of one element, which
    // misses the axiom
    (52, 68, 7, Err((8, 1))),
    (68, 74, 8, Ok(0)),
    (74, 82, 9, Err((4, 1))),
    (82, 94, 10, Err((14, 0))),
    // after the seal, Top, which is taken, and an axiom, which isn't
    (94, 104, 3, Ok(2)),
    (104, 110, 5, Err((2, 0))),
];

// The reply to a record, where the file ends at place `n`: one that is whole is answered as ever, and one that is cut is
// malformed. The kind is in the third and fourth bytes.
fn as_cut(n: usize, record: &Row, reply: &Reply) -> Result<(), Fail> {
    let (from, end, kind, said) = *record;
    if from >= n {
        return is_untouched(n, reply);
    }
    let malformed = Err((MALFORMED, from));
    let as_said = if end <= n {
        (kind, said)
    } else if n - from < 4 {
        (0, malformed)
    } else {
        (kind, malformed)
    };
    expect(
        format_args!("record at {from}, cut to {n} bytes"),
        replied(reply),
        as_said,
    )
}

// The file cut to so many bytes.
fn cut_to(n: usize, whole: &[u8], records: &[Row]) -> Result<(), Fail> {
    let mut concepts = [Concept::Top; 3];
    let mut lines = [Line::default(); 1];
    let mut docket = opened(ROOM, &mut concepts, &mut lines)?;
    let mut replies = [UNTOUCHED; 14];
    let file = &whole[..n.min(whole.len())];
    let begun = records.iter().filter(|(from, _, _, _)| *from < n).count();
    expect("count", count(file), begun)?;
    expect(
        "taken",
        told(hand_over(&mut docket, file, &mut replies)),
        Ok(begun),
    )?;
    for (record, reply) in records.iter().zip(&replies) {
        as_cut(n, record, reply)?;
    }
    is_untouched(n, &replies[13])
}

#[test]
fn cut_at_every_byte() -> Result<(), Fail> {
    for n in 0..111 {
        cut_to(n, FILE, &RECORDS)?;
    }
    Ok(())
}
