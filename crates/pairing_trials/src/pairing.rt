use book::line::Line;
use desk::step::Step::{self, Mate, Record};
use desk::{Room, Said, opened, play};
use docket::Docket;
use logic::concept::Concept;
use std::alloc::Global;
use std::test::Fail;

static CONCEPTS: [Step; 26] = [
    // 0 and 1, 2 and 3: Top and Bottom, twice
    Record(&[3, 0, 0, 0], Ok(0)),
    Record(&[3, 1, 0, 0], Ok(1)),
    Record(&[3, 0, 0, 0], Ok(2)),
    Record(&[3, 1, 0, 0], Ok(3)),
    // 4 and 5, 6 and 7: the names 5 and 6, and not
    Record(&[3, 2, 5, 0], Ok(4)),
    Record(&[3, 3, 5, 0], Ok(5)),
    Record(&[3, 2, 6, 0], Ok(6)),
    Record(&[3, 3, 6, 0], Ok(7)),
    // 8 to 13: And of 0 and 4; Or of 1 and 5, of 5 and 1, of 1 and 7, of 3 and 5, of 0 and 4
    Record(&[3, 4, 0, 4], Ok(8)),
    Record(&[3, 5, 1, 5], Ok(9)),
    Record(&[3, 5, 5, 1], Ok(10)),
    Record(&[3, 5, 1, 7], Ok(11)),
    Record(&[3, 5, 3, 5], Ok(12)),
    Record(&[3, 5, 0, 4], Ok(13)),
    // 14 to 18: Only 8 of 4; Exists 8 of 5, 9 of 5, 8 of 7, 8 of 4
    Record(&[3, 6, 8, 4], Ok(14)),
    Record(&[3, 7, 8, 5], Ok(15)),
    Record(&[3, 7, 9, 5], Ok(16)),
    Record(&[3, 7, 8, 7], Ok(17)),
    Record(&[3, 7, 8, 4], Ok(18)),
    // 19 and 20: Only 8 of 5, And of 1 and 5
    Record(&[3, 6, 8, 5], Ok(19)),
    Record(&[3, 4, 1, 5], Ok(20)),
    // 21 and 22: of concepts that have parts themselves
    Record(&[3, 4, 8, 14], Ok(21)),
    Record(&[3, 5, 9, 15], Ok(22)),
    // 23 to 25: of one part twice, the other way round, and below a role
    Record(&[3, 4, 4, 4], Ok(23)),
    Record(&[3, 5, 5, 5], Ok(24)),
    Record(&[3, 7, 8, 8], Ok(25)),
];

const NO: Said<usize> = Err((7, 0));

// Two concepts, and what is said to their pairing.
type Row = (u16, u16, Said<usize>);

// A concept with itself, and concepts of one tag.
static ALIKE: [Row; 13] = [
    (0, 0, NO),
    (1, 1, NO),
    (4, 4, NO),
    (8, 8, NO),
    (14, 14, NO),
    (0, 2, NO),
    (1, 3, NO),
    (4, 6, NO),
    (5, 7, NO),
    (8, 20, NO),
    (9, 13, NO),
    (14, 19, NO),
    (15, 16, NO),
];

// Concepts of tags that don't go together.
static UNLIKE: [Row; 11] = [
    (0, 4, NO),
    (0, 5, NO),
    (1, 4, NO),
    (1, 5, NO),
    (8, 14, NO),
    (8, 15, NO),
    (9, 14, NO),
    (9, 15, NO),
    (4, 9, NO),
    (5, 8, NO),
    (0, 9, NO),
];

// Different names, and parts that aren't mates yet, first or second; and mates that are so already, both or one.
static TOO_EARLY_AND_TOO_LATE: [Row; 12] = [
    (4, 7, NO),
    (6, 5, NO),
    (8, 9, NO),
    (14, 15, NO),
    (23, 24, NO),
    (0, 1, Ok(0)),
    (8, 9, NO),
    (4, 5, Ok(0)),
    (0, 1, NO),
    (0, 3, NO),
    (2, 1, NO),
    (4, 5, NO),
];

// Parts crossed over, second or first parts that aren't mates, equal parts, and another role, each before what can be paired.
static PARTS: [Row; 14] = [
    (8, 10, NO),
    (8, 11, NO),
    (8, 12, NO),
    (8, 13, NO),
    (8, 9, Ok(0)),
    (14, 16, NO),
    (14, 17, NO),
    (14, 18, NO),
    (14, 15, Ok(0)),
    (19, 18, Ok(0)),
    (21, 22, Ok(0)),
    (23, 24, Ok(0)),
    (7, 6, Ok(0)),
    (2, 3, Ok(0)),
];

// The mates after all pairings, and the concepts that have none.
static MATES: [Step; 26] = [
    Mate(0, Ok(Some(1))),
    Mate(1, Ok(Some(0))),
    Mate(2, Ok(Some(3))),
    Mate(3, Ok(Some(2))),
    Mate(4, Ok(Some(5))),
    Mate(5, Ok(Some(4))),
    Mate(6, Ok(Some(7))),
    Mate(7, Ok(Some(6))),
    Mate(8, Ok(Some(9))),
    Mate(9, Ok(Some(8))),
    Mate(14, Ok(Some(15))),
    Mate(15, Ok(Some(14))),
    Mate(18, Ok(Some(19))),
    Mate(19, Ok(Some(18))),
    Mate(21, Ok(Some(22))),
    Mate(22, Ok(Some(21))),
    Mate(23, Ok(Some(24))),
    Mate(24, Ok(Some(23))),
    Mate(10, Ok(None)),
    Mate(11, Ok(None)),
    Mate(12, Ok(None)),
    Mate(13, Ok(None)),
    Mate(16, Ok(None)),
    Mate(17, Ok(None)),
    Mate(20, Ok(None)),
    Mate(25, Ok(None)),
];

// Concepts that don't stand, where 26 do.
static ABSENT: [Step; 7] = [
    Record(&[4, 26, 0], Err((4, 0))),
    Record(&[4, 0, 26], Err((4, 1))),
    Record(&[4, 26, 26], Err((4, 0))),
    Record(&[4, 65535, 65535], Err((4, 0))),
    Record(&[4, 25, 65535], Err((4, 1))),
    Mate(26, Err((4, 0))),
    Mate(65535, Err((4, 0))),
];

// Where none does.
static NONE_STANDS: [Step; 2] = [Record(&[4, 0, 0], Err((4, 0))), Mate(0, Err((4, 0)))];

// Pairings one after the other, as they stand or with the second concept first.
fn pair(alloc: Global, docket: &mut Docket, turned: bool, rows: &[Row]) -> Result<(), Fail> {
    for (c, d, said) in rows {
        let record = if turned { [4, *d, *c] } else { [4, *c, *d] };
        play(alloc, docket, &[Record(&record, *said)])?;
    }
    Ok(())
}

// Before all pairings no concept has a mate.
fn unpaired(alloc: Global, docket: &mut Docket) -> Result<(), Fail> {
    for c in 0..26 {
        play(alloc, docket, &[Mate(c, Ok(None))])?;
    }
    Ok(())
}

fn pairings(alloc: Global, beginning: &[Step], turned: bool) -> Result<(), Fail> {
    let mut concepts = [Concept::Top; 26];
    let mut lines = [Line::default(); 1];
    let room = Room {
        concepts: 26,
        lines: 1,
    };
    let mut docket = opened(room, &mut concepts, &mut lines)?;
    play(alloc, &mut docket, beginning)?;
    play(alloc, &mut docket, &NONE_STANDS)?;
    play(alloc, &mut docket, &CONCEPTS)?;
    unpaired(alloc, &mut docket)?;
    play(alloc, &mut docket, &ABSENT)?;
    pair(alloc, &mut docket, turned, &ALIKE)?;
    pair(alloc, &mut docket, turned, &UNLIKE)?;
    pair(alloc, &mut docket, turned, &TOO_EARLY_AND_TOO_LATE)?;
    pair(alloc, &mut docket, turned, &PARTS)?;
    play(alloc, &mut docket, &MATES)?;
    play(alloc, &mut docket, &ABSENT)
}

#[test]
fn before_the_seal(rt: HostRuntime) -> Result<(), Fail> {
    pairings(rt.alloc(), &[], false)?;
    pairings(rt.alloc(), &[], true)
}

#[test]
fn behind_the_seal(rt: HostRuntime) -> Result<(), Fail> {
    let seal = [Record(&[6], Ok(0))];
    pairings(rt.alloc(), &seal, false)?;
    pairings(rt.alloc(), &seal, true)
}
