use crate::files::{FILE, ROOM, is_untouched};
use book::line::Line;
use desk::step::Step::{self, Below, Mate, Record, Transitive};
use desk::step::{UNTOUCHED, hand_over};
use desk::{expect, opened, play, told};
use docket::Docket;
use intake::Reply;
use logic::concept::Concept;
use std::alloc::Global;
use std::test::Fail;

// Nothing was filed and nothing sealed.
static AS_NEW: [Step; 7] = [
    Below(0, 2, Err((2, 0))),
    Mate(0, Err((4, 0))),
    Record(&[3, 0, 0, 0], Ok(0)),
    Record(&[1, 0, 4], Ok(0)),
    Record(&[5, 0], Ok(0)),
    Record(&[6], Ok(0)),
    Below(0, 2, Ok(false)),
];

// All was taken as the file says.
static AS_FILED: [Step; 6] = [
    Below(1, 3, Ok(true)),
    Transitive(3, Ok(true)),
    Transitive(0, Ok(false)),
    Mate(1, Ok(Some(0))),
    Mate(2, Ok(None)),
    Mate(3, Err((4, 0))),
];

// A file of so many records, where there are `n` places for replies: what lies after them is not written to.
fn with_places(
    alloc: Global,
    docket: &mut Docket,
    (file, records): (&[u8], usize),
    n: usize,
) -> Result<(), Fail> {
    let mut replies = [UNTOUCHED; 15];
    let answer = told(hand_over(docket, file, &mut replies[..n.min(15)]));
    if n < records {
        expect("places", answer, Err((3, 1)))?;
        untouched_from(0, n, &replies)?;
        play(alloc, docket, &AS_NEW)
    } else {
        expect("places", answer, Ok(records))?;
        untouched_from(records, n, &replies)
    }
}

// No reply is written from this place on.
fn untouched_from(place: usize, n: usize, replies: &[Reply]) -> Result<(), Fail> {
    for reply in replies.iter().skip(place) {
        is_untouched(n, reply)?;
    }
    Ok(())
}

#[test]
fn places_for_replies(rt: HostRuntime) -> Result<(), Fail> {
    for n in 0..16 {
        let mut concepts = [Concept::Top; 3];
        let mut lines = [Line::default(); 1];
        let mut docket = opened(ROOM, &mut concepts, &mut lines)?;
        with_places(rt.alloc(), &mut docket, (FILE, 13), n)?;
        if n >= 13 {
            play(rt.alloc(), &mut docket, &AS_FILED)?;
        }
    }
    Ok(())
}

// An empty file needs no place, and one byte is a record.
#[test]
fn no_place(rt: HostRuntime) -> Result<(), Fail> {
    let mut concepts = [Concept::Top; 3];
    let mut lines = [Line::default(); 1];
    let mut docket = opened(ROOM, &mut concepts, &mut lines)?;
    with_places(rt.alloc(), &mut docket, (&[], 0), 0)?;
    with_places(rt.alloc(), &mut docket, (&[6], 1), 0)
}
