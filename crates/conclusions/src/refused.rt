use crate::asking::{BEFORE, CONCLUSIONS, WORDS, ask, opened, written};
use crate::filed::{COUNT, Turn, file_with};
use book::line::Line;
use desk::notation::bytes_of;
use desk::{Said, told};
use docket::Docket;
use logic::concept::Concept;
use std::alloc::Global;
use std::process::Abort;
use std::test::Fail;

// What is refused before the step is looked at, and in which order.

// A question: the rule and the concepts that it names, the index, the label, how many words of memory there are, and the answer.
type Question = (u16, [u16; 3], u16, &'static [u16], usize, Said<()>);

const QUESTIONS: [Question; 36] = [
    // no such rule, whatever else is wrong
    (0, [4, 0, 0], 0, &[4], 18, Err((3, 0))),
    (11, [4, 0, 0], 0, &[4], 18, Err((3, 0))),
    (65535, [4, 0, 0], 0, &[4], 18, Err((3, 0))),
    (256, [1024, 0, 0], 9, &[1024, 1], 0, Err((3, 0))),
    // no such conclusion
    (3, [4, 0, 0], 1, &[4], 18, Err((3, 4))),
    (1, [1, 0, 0], 0, &[1], 18, Err((3, 4))),
    (4, [5, 0, 0], 2, &[5], 18, Err((3, 4))),
    (4, [5, 0, 0], 256, &[5], 18, Err((3, 4))),
    (3, [1024, 0, 0], 1, &[1024, 1], 0, Err((3, 4))),
    // memory that is too short, after so many members
    (3, [4, 0, 0], 0, &[4], 15, Err((3, 6))),
    (3, [4, 0, 0], 0, &[4], 0, Err((3, 6))),
    (6, [63, 0, 0], 0, &[], 15, Err((3, 5))),
    (3, [4, 0, 0], 0, &[2, 3, 4], 15, Err((3, 8))),
    (3, [1024, 1024, 1024], 0, &[1024, 1], 15, Err((3, 7))),
    // and just long enough
    (3, [4, 0, 0], 0, &[4], 16, Ok(())),
    (3, [4, 0, 0], 0, &[4], 17, Ok(())),
    // p, q and s, used or not
    (3, [1024, 0, 0], 0, &[4], 18, Err((4, 1))),
    (3, [65535, 65535, 65535], 0, &[1024], 18, Err((4, 1))),
    (3, [4, 1024, 0], 0, &[4], 18, Err((4, 2))),
    (7, [2, 1024, 1024], 0, &[1, 0], 18, Err((4, 2))),
    (3, [4, 0, 1024], 0, &[4], 18, Err((4, 3))),
    (8, [2, 3, 65535], 0, &[1, 0], 18, Err((4, 3))),
    // members that don't stand, before members that fall
    (3, [4, 0, 0], 0, &[1024], 18, Err((4, 5))),
    (3, [4, 0, 0], 0, &[4, 1023, 1024], 18, Err((4, 7))),
    (3, [4, 0, 0], 0, &[4, 2, 65535], 18, Err((4, 7))),
    (3, [4, 0, 0], 0, &[65535, 4, 4], 18, Err((4, 5))),
    // members that fall, before a step that doesn't apply
    (3, [4, 0, 0], 0, &[4, 4], 18, Err((6, 6))),
    (3, [4, 0, 0], 0, &[4, 3, 2], 18, Err((6, 6))),
    (3, [4, 0, 0], 0, &[3, 4, 4], 18, Err((6, 7))),
    (3, [4, 0, 0], 0, &[4, 1023, 0], 18, Err((6, 7))),
    (3, [5, 0, 0], 0, &[5, 0], 18, Err((6, 6))),
    // and then the step
    (3, [5, 0, 0], 0, &[0, 5], 18, Err((8, 3))),
    (3, [4, 0, 0], 0, &[], 18, Err((8, 3))),
    (10, [4, 0, 0], 0, &[4], 16, Err((8, 10))),
    (9, [1023, 12, 0], 1, &[12], 18, Err((8, 9))),
    (9, [1023, 12, 967], 1, &[12], 18, Ok(())),
];

// Each question is answered as said; what is refused leaves all of the memory as it was, and what is answered all after the row.
fn answered(
    rt: &impl Abort,
    heap: Global,
    docket: &Docket,
    (rule, on, index, label, words, said): Question,
) -> Result<(), Fail> {
    let members = bytes_of(heap, label)?;
    let mut memory = BEFORE;
    assert!(rt; words <= WORDS);
    let answer = ask(docket, (rule, on), index, &members, &mut memory[..words]);
    assert_eq!(rt;
        answer,
        said,
        "{index} of rule {rule} of {on:?} at {label:?}, {words} words"
    );
    let kept = if said.is_ok() { 16 } else { 0 };
    assert!(rt;
        memory[kept..] == BEFORE[kept..],
        "{index} of rule {rule} of {on:?} at {label:?}, {words} words"
    );
    Ok(())
}

#[test]
fn questions(rt: HostRuntime) -> Result<(), Fail> {
    let mut memory = [Concept::Top; 1024];
    let mut lines = [Line::default(); 1];
    let mut docket = opened(&mut memory, &mut lines)?;
    file_with(&rt, &mut docket, Turn::Straight);
    // before the seal there is no question about conclusions, whatever it names
    for (rule, on, index, label, words, _) in QUESTIONS {
        let open = (rule, on, index, label, words, Err((2, 0)));
        answered(&rt, rt.alloc(), &docket, open)?;
    }
    assert_eq!(rt; told(docket.seal()), Ok(0));
    for question in QUESTIONS {
        answered(&rt, rt.alloc(), &docket, question)?;
    }
    Ok(())
}

// A step of each rule that applies, from rule 1 on.
const STEPS: [([u16; 3], &[u16]); 10] = [
    ([1, 0, 0], &[1]),
    ([2, 3, 0], &[2, 3]),
    ([4, 0, 0], &[4]),
    ([5, 0, 0], &[5]),
    ([962, 8, 0], &[962]),
    ([63, 0, 0], &[]),
    ([2, 3, 0], &[]),
    ([2, 3, 966], &[]),
    ([1023, 12, 967], &[]),
    ([14, 0, 0], &[14]),
];

// Every index from the last conclusion on, to the largest number that there is.
#[test]
fn past_the_last(rt: HostRuntime) -> Result<(), Fail> {
    let mut memory = [Concept::Top; 1024];
    let mut lines = [Line::default(); 1];
    let mut docket = opened(&mut memory, &mut lines)?;
    file_with(&rt, &mut docket, Turn::Straight);
    assert_eq!(rt; told(docket.seal()), Ok(0));
    for (rule, ((on, label), conclusions)) in (1..).zip(STEPS.iter().zip(CONCLUSIONS)) {
        let members = bytes_of(rt.alloc(), label)?;
        let mut memory = BEFORE;
        for index in conclusions..=65535 {
            let said = ask(&docket, (rule, *on), index, &members, &mut memory);
            assert_eq!(rt; said, Err((3, 4)), "{index} of rule {rule}");
        }
        assert!(rt; memory == BEFORE, "rule {rule}");
        for index in 0..conclusions {
            let said = ask(&docket, (rule, *on), index, &members, &mut memory);
            assert_eq!(rt; said, Ok(()), "{index} of rule {rule}");
        }
    }
    Ok(())
}

// A label of all concepts, of which a rule that adds makes a row of all bits; rule 10 leaves most of it out.
#[test]
fn whole_label(rt: HostRuntime) -> Result<(), Fail> {
    let mut memory = [Concept::Top; 1024];
    let mut lines = [Line::default(); 1];
    let mut docket = opened(&mut memory, &mut lines)?;
    file_with(&rt, &mut docket, Turn::Straight);
    assert_eq!(rt; told(docket.seal()), Ok(0));
    let mut all = Vec::new(rt.alloc());
    for c in 0..COUNT {
        all.push(c)?;
    }
    let members = bytes_of(rt.alloc(), &all)?;
    let full = written(&rt, &all);
    for rule in 3..10u16 {
        let (on, _) = STEPS[rule as usize - 1];
        for index in 0..CONCLUSIONS[rule as usize - 1] {
            let mut memory = BEFORE;
            let said = ask(&docket, (rule, on), index, &members, &mut memory);
            assert_eq!(rt; said, Ok(()), "{index} of rule {rule}");
            assert!(rt; memory == full, "{index} of rule {rule}");
        }
    }
    // some 0 of all: 6 and 21 are passed, each "only 126" is carried, and there are the axioms
    let mut memory = BEFORE;
    let said = ask(&docket, (10, [14, 0, 0]), 0, &members, &mut memory);
    assert_eq!(rt; said, Ok(()));
    let row = written(
        &rt,
        &[6, 21, 30, 63, 66, 73, 74, 77, 962, 966, 973, 1022, 1023],
    );
    assert!(rt; memory == row);
    Ok(())
}
