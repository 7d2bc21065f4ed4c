use book::line::Line;
use desk::{Said, expect};
use docket::Docket;
use logic::concept::Concept;
use std::test::Fail;

// The two capacities, memory for so many concepts and lines, and what is said.
static OPENINGS: [(usize, usize, usize, usize, Said<()>); 24] = [
    // the least and the most, with memory that just suffices and with more
    (1, 1, 1, 1, Ok(())),
    (1, 1, 1025, 4097, Ok(())),
    (1024, 4096, 1024, 4096, Ok(())),
    (1024, 4096, 1025, 4097, Ok(())),
    (1024, 1, 1024, 1, Ok(())),
    (1, 4096, 1, 4096, Ok(())),
    // capacities out of range
    (0, 1, 1025, 4097, Err((3, 0))),
    (1025, 1, 1025, 4097, Err((3, 0))),
    (18446744073709551615, 1, 1025, 4097, Err((3, 0))),
    (1, 0, 1025, 4097, Err((3, 1))),
    (1, 4097, 1025, 4097, Err((3, 1))),
    (1, 18446744073709551615, 1025, 4097, Err((3, 1))),
    // memory one short, of either kind and of both
    (1024, 4096, 1023, 4096, Err((3, 2))),
    (1024, 4096, 1024, 4095, Err((3, 2))),
    (1024, 4096, 1023, 4095, Err((3, 2))),
    (1, 1, 0, 1, Err((3, 2))),
    (1, 1, 1, 0, Err((3, 2))),
    (1, 1, 0, 0, Err((3, 2))),
    // the first position counts
    (0, 0, 0, 0, Err((3, 0))),
    (0, 4097, 1025, 4097, Err((3, 0))),
    (1025, 0, 1024, 4097, Err((3, 0))),
    (1, 0, 0, 0, Err((3, 1))),
    (1024, 4097, 1023, 4096, Err((3, 1))),
    (1024, 0, 0, 4097, Err((3, 1))),
];

// What is said to one opening. A refused one hands the memory back whole.
fn open(
    (concept_capacity, line_capacity): (usize, usize),
    concepts: &mut [Concept],
    lines: &mut [Line],
) -> Result<Said<()>, Fail> {
    let (some_concepts, some_lines) = (concepts.len(), lines.len());
    match Docket::open(concept_capacity, line_capacity, concepts, lines) {
        Ok(_) => Ok(Ok(())),
        Err(unopened) => {
            expect("concepts", unopened.concepts.len(), some_concepts)?;
            expect("lines", unopened.lines.len(), some_lines)?;
            Ok(Err(unopened.refusal.returned()))
        }
    }
}

#[test]
fn openings() -> Result<(), Fail> {
    let mut concepts = [Concept::Top; 1025];
    let mut lines = [Line::default(); 4097];
    for (n, m, a, b, expected) in OPENINGS {
        let said = open(
            (n, m),
            &mut concepts[..a.min(1025)],
            &mut lines[..b.min(4097)],
        )?;
        expect(format_args!("{n} {m} over {a} {b}"), said, expected)?;
    }
    Ok(())
}
