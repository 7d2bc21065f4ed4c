use book::line::Line;
use desk::notation::put_record;
use desk::step::{UNTOUCHED, hand_over};
use desk::{Room, Said, expect, opened, told};
use logic::concept::Concept;
use std::alloc::Global;
use std::test::Fail;

// A record, and what is said to it.
type Case = (&'static [u16], Said<usize>);

// A record that is answered otherwise than in the whole file: its place there, and what is said.
type Change = (usize, Said<usize>);

// A small dossier: concepts, two pairs and the seal, lines, claims, and closings by lines and by models.
static SMALL: [Case; 20] = [
    (&[3, 2, 0, 0], Ok(0)),
    (&[3, 3, 0, 0], Ok(1)),
    (&[3, 6, 1, 1], Ok(2)),
    (&[3, 7, 0, 2], Ok(3)),
    (&[3, 7, 1, 0], Ok(4)),
    (&[3, 6, 0, 4], Ok(5)),
    (&[4, 0, 1], Ok(0)),
    (&[4, 2, 4], Ok(0)),
    (&[6], Ok(0)),
    (&[7, 2, 0, 1, 0, 0, 0, 0, 1], Ok(0)),
    (&[7, 2, 2, 4, 0, 0, 0, 2, 4], Ok(1)),
    (&[7, 10, 3, 0, 0, 1, 0, 0, 3, 5], Ok(2)),
    (&[7, 8, 1, 0, 5, 0, 2, 0, 3], Ok(3)),
    (&[8, 0, 3], Ok(0)),
    (&[8, 0], Ok(1)),
    (&[8, 3], Ok(2)),
    (&[9, 0, 3], Ok(0)),
    (&[9, 1, 3], Err((11, 3))),
    (&[10, 2, 0, 2, 0], Err((15, 3))),
    (&[10, 2, 0, 2, 0, 0, 0, 1], Ok(0)),
];

// What is answered otherwise, if the record of this place is dropped.
#[rattlefmt::skip]
static DROPPED: [&[Change]; 20] = [
    &[(1, Ok(0)), (2, Err((4, 2))), (3, Err((4, 2))), (4, Ok(1)), (5, Err((4, 2))), (6, Err((7, 0))),
        (7, Err((4, 0))), (9, Err((8, 2))), (10, Err((4, 1))), (11, Err((4, 1))), (12, Err((4, 3))),
        (13, Err((4, 1))), (14, Ok(0)), (15, Err((4, 0))), (16, Err((4, 1))), (17, Err((4, 0))), (18, Err((4, 0))),
        (19, Err((4, 0)))],
    &[(2, Err((4, 2))), (3, Err((4, 2))), (4, Ok(1)), (5, Err((4, 2))), (6, Err((7, 0))), (7, Err((4, 0))),
        (9, Err((8, 2))), (10, Err((4, 1))), (11, Err((4, 1))), (12, Err((4, 3))), (13, Err((4, 1))), (14, Ok(0)),
        (15, Err((4, 0))), (16, Err((4, 1))), (17, Err((4, 0))), (18, Err((4, 0))), (19, Err((4, 0)))],
    &[(3, Err((4, 2))), (4, Ok(2)), (5, Err((4, 2))), (7, Err((4, 1))), (10, Err((4, 2))), (11, Err((4, 1))),
        (12, Err((4, 3))), (13, Err((4, 1))), (14, Ok(0)), (15, Err((4, 0))), (16, Err((4, 1))), (17, Err((4, 0))),
        (18, Err((4, 0))), (19, Err((4, 0)))],
    &[(4, Ok(3)), (5, Err((4, 2))), (7, Err((4, 1))), (10, Err((4, 2))), (11, Err((4, 4))), (12, Err((4, 3))),
        (16, Err((4, 1))), (17, Err((4, 1))), (19, Err((15, 3)))],
    &[(5, Err((4, 2))), (7, Err((4, 1))), (10, Err((4, 2))), (11, Err((4, 4))), (12, Err((4, 3))),
        (16, Err((4, 1))), (17, Err((4, 1)))],
    &[(11, Err((4, 8))), (12, Err((4, 3))), (16, Err((4, 1))), (17, Err((4, 1)))],
    &[(7, Err((7, 0))), (9, Err((8, 2))), (10, Err((8, 2))), (11, Err((4, 4))), (12, Err((4, 4))),
        (16, Err((4, 1))), (17, Err((4, 1)))],
    &[(10, Err((8, 2))), (11, Err((4, 4))), (12, Err((4, 5))), (16, Err((4, 1))), (17, Err((4, 1)))],
    &[(9, Err((2, 0))), (10, Err((2, 0))), (11, Err((2, 0))), (12, Err((2, 0))), (13, Err((2, 0))),
        (14, Err((2, 0))), (15, Err((2, 0))), (16, Err((2, 0))), (17, Err((2, 0))), (18, Err((2, 0))),
        (19, Err((2, 0)))],
    &[(10, Ok(0)), (11, Err((4, 4))), (12, Err((4, 5))), (16, Err((4, 1))), (17, Err((4, 1)))],
    &[(11, Err((4, 4))), (12, Err((4, 5))), (16, Err((4, 1))), (17, Err((4, 1)))],
    &[(12, Err((4, 5))), (16, Err((4, 1))), (17, Err((4, 1)))],
    &[(16, Err((4, 1))), (17, Err((4, 1)))],
    &[(14, Ok(0)), (15, Ok(1)), (16, Err((11, 3))), (17, Err((11, 0))), (18, Err((4, 0))), (19, Err((4, 0)))],
    &[(15, Ok(1)), (17, Err((11, 0))), (18, Err((4, 0))), (19, Err((4, 0)))],
    &[(18, Err((4, 0))), (19, Err((4, 0)))],
    &[],
    &[],
    &[],
    &[],
];

// What is said to the record of this place, if its kind, or one of its fields, is one more than it was.
#[rattlefmt::skip]
static CHANGED: [&[Said<usize>]; 20] = [
    &[Err((1, 0)), Ok(0), Ok(0), Err((3, 2))],
    &[Err((1, 10)), Ok(1), Ok(1), Err((3, 2))],
    &[Err((1, 20)), Ok(2), Ok(2), Err((4, 2))],
    &[Err((1, 30)), Err((3, 0)), Ok(3), Err((4, 2))],
    &[Err((1, 40)), Err((3, 0)), Ok(4), Ok(4)],
    &[Err((1, 50)), Ok(5), Ok(5), Err((4, 2))],
    &[Err((1, 60)), Err((7, 0)), Err((7, 0))],
    &[Err((1, 68)), Err((7, 0)), Err((7, 0))],
    &[Err((1, 76))],
    &[Err((6, 1)), Err((4, 4)), Err((8, 2)), Err((8, 2)), Err((8, 2)), Err((3, 4)), Err((3, 5)), Err((6, 7)),
        Err((8, 2))],
    &[Err((6, 1)), Err((8, 3)), Err((8, 2)), Err((8, 2)), Err((8, 2)), Err((3, 4)), Err((3, 5)), Err((8, 2)),
        Err((8, 2))],
    &[Err((4, 0)), Err((3, 0)), Err((8, 10)), Err((8, 10)), Err((8, 10)), Err((4, 4)), Err((3, 5)), Ok(2),
        Err((8, 10)), Err((4, 8))],
    &[Err((4, 0)), Err((8, 9)), Err((8, 8)), Err((8, 8)), Err((4, 3)), Err((9, 2)), Err((4, 5)), Err((9, 0)),
        Err((9, 3))],
    &[Err((4, 0)), Ok(0), Ok(0)],
    &[Err((1, 170)), Ok(1)],
    &[Err((1, 176)), Ok(2)],
    &[Err((1, 182)), Err((11, 3)), Err((4, 1))],
    &[Err((1, 190)), Err((11, 0)), Err((4, 1))],
    &[Err((1, 198)), Err((4, 0)), Err((15, 3)), Err((15, 3)), Err((12, 0))],
    &[Err((1, 210)), Err((4, 0)), Err((15, 3)), Ok(0), Err((12, 0)), Err((15, 3)), Err((15, 3)), Err((12, 1))],
];

// A place and a field, and what is answered otherwise.
type Taken = (usize, usize, &'static [Change]);

// Where a record is taken for all that, what is answered otherwise after it.
#[rattlefmt::skip]
static TAKEN: [Taken; 17] = [
    (0, 1, &[(6, Err((7, 0))), (7, Err((7, 0))), (9, Err((8, 2))), (10, Err((8, 2))), (11, Err((4, 4))),
        (12, Err((4, 4))), (16, Err((4, 1))), (17, Err((4, 1)))]),
    (0, 2, &[(6, Err((7, 0))), (7, Err((7, 0))), (9, Err((8, 2))), (10, Err((8, 2))), (11, Err((4, 4))),
        (12, Err((4, 4))), (16, Err((4, 1))), (17, Err((4, 1)))]),
    (1, 1, &[(6, Err((7, 0))), (7, Err((7, 0))), (9, Err((8, 2))), (10, Err((8, 2))), (11, Err((4, 4))),
        (12, Err((4, 4))), (16, Err((4, 1))), (17, Err((4, 1))), (19, Err((15, 3)))]),
    (1, 2, &[(6, Err((7, 0))), (7, Err((7, 0))), (9, Err((8, 2))), (10, Err((8, 2))), (11, Err((4, 4))),
        (12, Err((4, 4))), (16, Err((4, 1))), (17, Err((4, 1)))]),
    (2, 1, &[(7, Err((7, 0))), (10, Err((8, 2))), (11, Err((4, 4))), (12, Err((4, 5))), (16, Err((4, 1))),
        (17, Err((4, 1)))]),
    (2, 2, &[(7, Err((7, 0))), (10, Err((8, 2))), (11, Err((4, 4))), (12, Err((4, 5))), (16, Err((4, 1))),
        (17, Err((4, 1)))]),
    (3, 2, &[(11, Err((9, 4))), (12, Err((4, 5))), (16, Err((4, 1))), (17, Err((4, 1))), (19, Err((15, 3)))]),
    (4, 2, &[(7, Err((7, 0))), (10, Err((8, 2))), (11, Err((4, 4))), (12, Err((4, 5))), (16, Err((4, 1))),
        (17, Err((4, 1)))]),
    (4, 3, &[(7, Err((7, 0))), (10, Err((8, 2))), (11, Err((4, 4))), (12, Err((4, 5))), (16, Err((4, 1))),
        (17, Err((4, 1)))]),
    (5, 1, &[(11, Err((9, 4))), (12, Err((4, 5))), (16, Err((4, 1))), (17, Err((4, 1)))]),
    (5, 2, &[(11, Err((9, 4))), (12, Err((4, 5))), (16, Err((4, 1))), (17, Err((4, 1)))]),
    (11, 7, &[(12, Err((9, 1))), (16, Err((4, 1))), (17, Err((4, 1)))]),
    (13, 1, &[(16, Err((11, 0)))]),
    (13, 2, &[(16, Err((11, 3)))]),
    (14, 1, &[(17, Err((11, 0)))]),
    (15, 1, &[(18, Err((15, 4))), (19, Err((15, 4)))]),
    (19, 3, &[]),
];

// What is said to record `i`, where these are answered otherwise.
fn changed(changes: &[Change], i: usize, said: Said<usize>) -> Said<usize> {
    changes
        .iter()
        .find(|(place, _)| *place == i)
        .map_or(said, |(_, other)| *other)
}

// Hands over a file, and compares the answers.
fn answered(file: &[u8], expected: &[Said<usize>]) -> Result<(), Fail> {
    let mut concepts = [Concept::Top; 8];
    let mut lines = [Line::default(); 8];
    let room = Room {
        concepts: 8,
        lines: 8,
    };
    let mut docket = opened(room, &mut concepts, &mut lines)?;
    let mut replies = [UNTOUCHED; 20];
    let count = told(hand_over(&mut docket, file, &mut replies));
    expect("records", count, Ok(expected.len()))?;
    for (i, (reply, said)) in replies.iter().zip(expected).enumerate() {
        expect(
            format_args!("record {i} of {file:?}"),
            told(reply.answer),
            *said,
        )?;
    }
    Ok(())
}

// The dossier with another record at this place, to which this is said, or with none there.
fn damaged(
    alloc: Global,
    small: &[Case],
    at: usize,
    other: &[u16],
    other_said: Said<usize>,
    changes: &[Change],
) -> Result<(), Fail> {
    let mut file = Vec::new(alloc);
    let mut expected = Vec::new(alloc);
    for (i, (record, said)) in small.iter().enumerate() {
        if i != at {
            put_record(&mut file, record)?;
            expected.push(changed(changes, i, *said))?;
        } else if !other.is_empty() {
            put_record(&mut file, other)?;
            expected.push(other_said)?;
        }
    }
    answered(file.as_slice(), expected.as_slice())
}

// Each record dropped in turn.
fn drop_each(alloc: Global, small: &[Case], dropped: &[&[Change]]) -> Result<(), Fail> {
    for (at, changes) in dropped.iter().enumerate() {
        damaged(alloc, small, at, &[], Ok(0), changes)?;
    }
    Ok(())
}

#[test]
fn dropped(rt: HostRuntime) -> Result<(), Fail> {
    drop_each(rt.alloc(), &SMALL, &DROPPED)
}

// What is answered otherwise after a record that is taken with this field changed.
fn behind(taken: &'static [Taken], at: usize, field: usize) -> &'static [Change] {
    for (place, other, changes) in taken {
        if *place == at && *other == field {
            return changes;
        }
    }
    &[]
}

// The dossier with this field of this record one more than it was.
fn change(
    alloc: Global,
    small: &[Case],
    at: usize,
    field: usize,
    said: Said<usize>,
    changes: &[Change],
) -> Result<(), Fail> {
    let (record, _) = small.get(at).ok_or("no such record")?;
    let mut other = record.to_vec(alloc)?;
    if let Some(number) = other.as_mut_slice().get_mut(field) {
        *number = number.wrapping_add(1);
    }
    damaged(alloc, small, at, other.as_slice(), said, changes)
}

// Each field of a record in turn, the kind first. If it is refused, all is as if it were dropped.
fn change_record(
    alloc: Global,
    small: &[Case],
    at: usize,
    answers: &[Said<usize>],
    dropped: &[Change],
    taken: &'static [Taken],
) -> Result<(), Fail> {
    let (record, _) = small.get(at).ok_or("no such record")?;
    expect("fields", answers.len(), record.len())?;
    for (field, said) in answers.iter().enumerate() {
        if said.is_err() {
            change(alloc, small, at, field, *said, dropped)?;
        } else {
            change(alloc, small, at, field, *said, behind(taken, at, field))?;
        }
    }
    Ok(())
}

fn change_each(
    alloc: Global,
    small: &[Case],
    answers: &[&[Said<usize>]],
    dropped: &[&[Change]],
    taken: &'static [Taken],
) -> Result<(), Fail> {
    expect("records", answers.len(), small.len())?;
    for (at, (answers, dropped)) in answers.iter().zip(dropped).enumerate() {
        change_record(alloc, small, at, answers, dropped, taken)?;
    }
    Ok(())
}

#[test]
fn changed_by_one(rt: HostRuntime) -> Result<(), Fail> {
    change_each(rt.alloc(), &SMALL, &CHANGED, &DROPPED, &TAKEN)
}
