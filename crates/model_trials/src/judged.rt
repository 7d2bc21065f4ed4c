use desk::notation::row_of;
use desk::{Said, expect, told};
use logic::concept::Concept;
use models::{Model, judge};
use std::test::Fail;
use vocabulary::Vocabulary;

// Models that are judged with no docket: by any axioms, and for any label. Only concept 0 stands, Top.

// The axioms, the label and the words of memory; what is said, and the memory after it.
type Case = (&'static [u16], &'static [u16], usize, Said<()>, [u64; 6]);

// What the memory holds before a call.
const OLD: u64 = 0x5555_5555_5555_5555;

const UNTOUCHED: [u64; 6] = [OLD; 6];

// Top has all of 65 elements.
const EVALUATED: [u64; 6] = [u64::MAX, 1, 0, 0, OLD, OLD];

// No element is in a concept that does not stand, so the point misses it, and each element does.
static CASES: [Case; 10] = [
    (&[0], &[0], 6, Ok(()), EVALUATED),
    (&[], &[1], 6, Err((15, 1)), EVALUATED),
    (&[], &[1023], 6, Err((15, 1023)), EVALUATED),
    (&[], &[1023], 4, Err((15, 1023)), EVALUATED),
    (&[0], &[0, 64, 1023], 6, Err((15, 64)), EVALUATED),
    (&[1], &[], 6, Err((14, 0)), EVALUATED),
    (&[0, 1023], &[1023], 6, Err((14, 1)), EVALUATED),
    (&[65535], &[0], 6, Err((14, 0)), EVALUATED),
    // memory that is too short
    (&[], &[1023], 3, Err((3, 0)), UNTOUCHED),
    (&[1], &[], 0, Err((3, 0)), UNTOUCHED),
];

fn as_said((axioms, label, words, said, left): &Case) -> Result<(), Fail> {
    let mut memory = [Concept::Top; 1];
    let mut vocabulary = Vocabulary::over(&mut memory, 1);
    expect(
        "concept",
        vocabulary.file_concept(Concept::Top).is_ok(),
        true,
    )?;
    for axiom in *axioms {
        expect("axiom", vocabulary.file_axiom(*axiom).is_some(), true)?;
    }
    let model = Model {
        size: 65,
        point: 64,
        mark_count: 0,
        marks: &[],
        edges: &[],
    };
    let mut rows = [OLD; 6];
    let words = *words;
    let answer = judge(
        &vocabulary,
        &row_of(label),
        &model,
        &mut rows[..words.min(6)],
    );
    expect(format_args!("{axioms:?} {label:?}"), told(answer), *said)?;
    expect(format_args!("rows of {axioms:?} {label:?}"), rows, *left)
}

#[test]
fn judged() -> Result<(), Fail> {
    for case in &CASES {
        as_said(case)?;
    }
    Ok(())
}
