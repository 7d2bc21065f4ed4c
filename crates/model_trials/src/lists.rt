use book::line::Line;
use desk::step::Step::{self, Record};
use desk::{Room, Said, opened, play};
use docket::Docket;
use logic::concept::Concept;
use std::alloc::{AllocError, Global};
use std::test::Fail;

// A model for claim 0, of 256 elements, with so many marks and edges.
fn model(alloc: Global, marks: u16, edges: u16) -> Result<Vec<u16>, AllocError> {
    let mut record = [10, 0, 255, 256, marks].to_vec(alloc)?;
    // 17 to each element, so that 4,097 of them fit
    for i in 0..marks {
        record.extend_from_slice(&[i / 17, i % 17])?;
    }
    for i in 0..edges {
        record.extend_from_slice(&[63, i / 17, i % 17])?;
    }
    Ok(record)
}

// How many marks and edges there are, whether the last field is as the one of the item before, and what is said.
static LISTS: [(u16, u16, bool, Said<usize>); 8] = [
    (4097, 0, false, Err((12, 0))),
    (0, 4097, false, Err((12, 0))),
    (4096, 4097, false, Err((12, 0))),
    (4097, 4096, true, Err((12, 0))),
    (4096, 0, true, Err((12, 4096))),
    (0, 4096, true, Err((12, 4096))),
    (4096, 4096, true, Err((12, 8192))),
    (4096, 4096, false, Ok(0)),
];

fn play_lists(
    alloc: Global,
    docket: &mut Docket,
    lists: &[(u16, u16, bool, Said<usize>)],
) -> Result<(), Fail> {
    for (marks, edges, doubled, said) in lists {
        let mut record = model(alloc, *marks, *edges)?;
        if *doubled && let Some(last) = record.as_mut_slice().last_mut() {
            *last = last.saturating_sub(1);
        }
        play(alloc, docket, &[Record(record.as_slice(), *said)])?;
    }
    Ok(())
}

static SEALED: [Step; 2] = [Record(&[6], Ok(0)), Record(&[8], Ok(0))];

// The longest lists, and lists that are longer by one.
#[test]
fn longest_lists(rt: HostRuntime) -> Result<(), Fail> {
    let mut concepts = [Concept::Top; 1];
    let mut lines = [Line::default(); 1];
    let room = Room {
        concepts: 1,
        lines: 1,
    };
    let mut docket = opened(room, &mut concepts, &mut lines)?;
    play(rt.alloc(), &mut docket, &SEALED)?;
    play_lists(rt.alloc(), &mut docket, &LISTS)
}
