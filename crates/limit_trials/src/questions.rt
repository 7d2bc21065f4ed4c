use book::line::Line;
use calculus::rule::Principals;
use desk::notation::{bytes_of, row_of};
use desk::step::Step::{self, Concludes, FirstLine, Record};
use desk::{Room, Said, expect, opened, play, play_all, told};
use docket::Docket;
use docket::conclusion::Inquiry;
use logic::concept::Concept;
use rules::table::house;
use std::alloc::Global;
use std::array;
use std::test::Fail;

const ROOM: Room = Room {
    concepts: 8,
    lines: 4,
};

// Name 0 and not name 0, mates; "or", "and", "some 0" and "only 0" of them; name 1, an axiom. Two lines: {0, 1}, and {0, 1, 2}.
pub static DOCKET: [Step; 12] = [
    Record(&[3, 2, 0, 0], Ok(0)),
    Record(&[3, 3, 0, 0], Ok(1)),
    Record(&[4, 0, 1], Ok(0)),
    Record(&[3, 5, 0, 1], Ok(2)),
    Record(&[3, 4, 0, 1], Ok(3)),
    Record(&[3, 7, 0, 0], Ok(4)),
    Record(&[3, 6, 0, 1], Ok(5)),
    Record(&[3, 2, 1, 0], Ok(6)),
    Record(&[5, 6], Ok(0)),
    Record(&[6], Ok(0)),
    Record(&[7, 2, 0, 1, 0, 0, 0, 0, 1], Ok(0)),
    Record(&[7, 2, 0, 1, 0, 0, 0, 0, 1, 2], Ok(1)),
];

// The first line within a label. All members are looked at for standing before one is for rising.
static FIRST_LINES: [Step; 10] = [
    FirstLine(&[], Ok(None)),
    FirstLine(&[0], Ok(None)),
    FirstLine(&[1, 2], Ok(None)),
    FirstLine(&[0, 1], Ok(Some(0))),
    FirstLine(&[0, 1, 2], Ok(Some(0))),
    FirstLine(&[0, 1, 2, 3, 4, 5, 6], Ok(Some(0))),
    FirstLine(&[7], Err((4, 0))),
    FirstLine(&[1, 0, 7], Err((4, 2))),
    FirstLine(&[1, 0], Err((6, 1))),
    FirstLine(&[0, 1, 1], Err((6, 2))),
];

// The conclusions of each rule that has some.
static CONCLUSIONS: [Step; 9] = [
    Concludes([3, 3, 0, 0, 0], &[3, 6], Ok(&[0, 1, 3, 6])),
    Concludes([4, 2, 0, 0, 0], &[2], Ok(&[0, 2])),
    Concludes([4, 2, 0, 0, 1], &[2], Ok(&[1, 2])),
    Concludes([5, 5, 5, 0, 0], &[5], Ok(&[5])),
    Concludes([6, 6, 0, 0, 0], &[0], Ok(&[0, 6])),
    Concludes([7, 1, 0, 0, 0], &[], Ok(&[1])),
    Concludes([7, 1, 0, 0, 1], &[], Ok(&[0])),
    Concludes([10, 4, 0, 0, 0], &[4], Ok(&[0, 6])),
    Concludes([10, 4, 0, 0, 0], &[4, 5], Ok(&[0, 1, 6])),
];

// Of two things that are wrong the earlier one is said. A rule has as many conclusions as it cites lines.
static REFUSED: [Step; 20] = [
    Concludes([0, 7, 7, 7, 0], &[7], Err((3, 0))),
    Concludes([11, 0, 0, 0, 9], &[], Err((3, 0))),
    Concludes([1, 7, 0, 0, 0], &[], Err((3, 4))),
    Concludes([2, 7, 0, 0, 0], &[], Err((3, 4))),
    Concludes([3, 7, 0, 0, 1], &[], Err((3, 4))),
    Concludes([4, 7, 0, 0, 2], &[], Err((3, 4))),
    Concludes([10, 7, 0, 0, 65535], &[], Err((3, 4))),
    Concludes([7, 7, 7, 7, 1], &[7], Err((4, 1))),
    Concludes([7, 0, 7, 7, 1], &[7], Err((4, 2))),
    Concludes([7, 0, 1, 7, 1], &[7], Err((4, 3))),
    Concludes([7, 0, 1, 0, 1], &[7], Err((4, 5))),
    Concludes([7, 0, 1, 0, 1], &[3, 2, 7], Err((4, 7))),
    Concludes([7, 0, 2, 0, 1], &[3, 2], Err((6, 6))),
    Concludes([7, 0, 1, 0, 1], &[3, 4, 4], Err((6, 7))),
    Concludes([7, 0, 2, 0, 1], &[3], Err((8, 7))),
    Concludes([7, 0, 1, 1, 1], &[3], Err((8, 7))),
    Concludes([3, 3, 0, 0, 0], &[0], Err((8, 3))),
    Concludes([3, 3, 1, 0, 0], &[3], Err((8, 3))),
    Concludes([6, 0, 0, 0, 0], &[0], Err((8, 6))),
    Concludes([10, 5, 0, 0, 0], &[5], Err((8, 10))),
];

#[test]
fn questions(rt: HostRuntime) -> Result<(), Fail> {
    play_all(
        rt.alloc(),
        ROOM,
        &[&DOCKET, &FIRST_LINES, &CONCLUSIONS, &REFUSED, &FIRST_LINES],
    )
}

// A question for a conclusion of {0}: by a rule, with p alone, its index, and the words of memory.
type Question = (u16, u16, u16, usize);

// Sixteen words are written, however few concepts stand, and none after them; with fewer words it is refused.
static QUESTIONS: [(Question, Said<()>); 9] = [
    ((6, 6, 0, 16), Ok(())),
    ((6, 6, 0, 17), Ok(())),
    ((6, 6, 0, 18), Ok(())),
    ((6, 6, 0, 15), Err((3, 6))),
    ((6, 6, 0, 0), Err((3, 6))),
    // what is seen before that, and what is seen after it
    ((11, 6, 0, 15), Err((3, 0))),
    ((6, 6, 1, 15), Err((3, 4))),
    ((6, 7, 0, 15), Err((3, 6))),
    ((6, 7, 0, 16), Err((4, 1))),
];

// What the memory holds before a question.
const OLD: u64 = 0x5555_5555_5555_5555;

// Asks, and looks at all of the memory.
fn ask(
    alloc: Global,
    docket: &Docket,
    (rule, p, index, words): Question,
    said: Said<()>,
) -> Result<(), Fail> {
    let members = bytes_of(alloc, &[0])?;
    let inquiry = Inquiry {
        rule,
        on: Principals { p, q: 0, s: 0 },
        index,
        members: members.as_slice(),
    };
    let mut memory = [OLD; 18];
    let answer = docket.conclusion(&house(), &inquiry, &mut memory[..words.min(18)]);
    expect("answer", told(answer), said)?;
    let row = row_of(&[0, 6]);
    let written = array::from_fn(|w| if said.is_ok() && w < 16 { row[w] } else { OLD });
    expect("memory", memory, written)
}

fn ask_all(alloc: Global, docket: &Docket, questions: &[(Question, Said<()>)]) -> Result<(), Fail> {
    for (question, said) in questions {
        ask(alloc, docket, *question, *said)?;
    }
    Ok(())
}

#[test]
fn memory_for_a_conclusion(rt: HostRuntime) -> Result<(), Fail> {
    let mut concepts = [Concept::Top; 8];
    let mut lines = [Line::default(); 4];
    let mut docket = opened(ROOM, &mut concepts, &mut lines)?;
    play(rt.alloc(), &mut docket, &DOCKET)?;
    ask_all(rt.alloc(), &docket, &QUESTIONS)
}
