use crate::capacities::fill_claims;
use crate::questions::DOCKET;
use book::filing::Draft;
use book::line::{self, Cited, Line};
use calculus::rule::Principals;
use desk::step::Step::{self, Record, Tally};
use desk::{Room, Said, expect, opened, play, told};
use docket::Docket;
use docket::conclusion::Inquiry;
use logic::concept::Concept;
use rules::table::house;
use std::test::Fail;

// Labels of an odd number of bytes. No record has one: a program that holds the docket can hand one over.

// A call or a question that takes a label.
#[derive(Clone, Copy, Debug)]
enum Taking {
    // the rule, p, q, s, m and n
    Filing([u16; 6]),
    Claim,
    FirstLine,
    // the rule, p, q, s and the index; and the words of memory
    Concludes([u16; 5], usize),
}

use Taking::{Claim, Concludes, Filing, FirstLine};

// What is handed over, and the refusal.
type Cut = (Taking, &'static [u8], (u16, usize));

// Before the docket is sealed.
static OPEN: [Cut; 5] = [
    (Filing([2, 0, 1, 0, 0, 0]), &[0], (2, 0)),
    (Claim, &[0], (2, 0)),
    (Concludes([6, 6, 0, 0, 0], 16), &[0], (2, 0)),
    // this one is asked in both phases
    (FirstLine, &[0], (3, 0)),
    (FirstLine, &[9, 0, 0], (3, 1)),
];

// The first byte of a member, after no member, one and two.
static CUT: [Cut; 12] = [
    (Filing([2, 0, 1, 0, 0, 0]), &[0], (3, 6)),
    (Filing([2, 0, 1, 0, 0, 0]), &[0, 0, 1], (3, 7)),
    (Filing([2, 0, 1, 0, 0, 0]), &[0, 0, 1, 0, 2], (3, 8)),
    (Claim, &[0], (3, 0)),
    (Claim, &[0, 0, 1], (3, 1)),
    (Claim, &[0, 0, 1, 0, 2], (3, 2)),
    (FirstLine, &[0], (3, 0)),
    (FirstLine, &[0, 0, 1], (3, 1)),
    (FirstLine, &[0, 0, 1, 0, 2], (3, 2)),
    (Concludes([6, 6, 0, 0, 0], 16), &[0], (3, 5)),
    (Concludes([6, 6, 0, 0, 0], 16), &[0, 0, 1], (3, 6)),
    (Concludes([6, 6, 0, 0, 0], 16), &[0, 0, 1, 0, 2], (3, 7)),
];

// What is seen before it: a rule that the bank hasn't, a cited line that the rule doesn't use, a conclusion that it hasn't.
static BEFORE: [Cut; 6] = [
    (Filing([11, 9, 9, 9, 9, 9]), &[0], (3, 0)),
    (Filing([2, 9, 1, 0, 9, 9]), &[9, 0, 0], (3, 4)),
    (Filing([2, 9, 1, 0, 0, 9]), &[1, 0, 0, 0, 0], (3, 5)),
    (Filing([3, 3, 0, 0, 9, 9]), &[0], (3, 5)),
    (Concludes([11, 9, 9, 9, 9], 0), &[0], (3, 0)),
    (Concludes([6, 9, 9, 9, 1], 0), &[9, 0, 0], (3, 4)),
];

// What is seen after it: a concept, a line or a member that doesn't stand, memory that is too short, a member that doesn't
// rise, a step that doesn't apply, and a line that lies outside the conclusion.
static AFTER: [Cut; 15] = [
    (Filing([2, 9, 1, 0, 0, 0]), &[0], (3, 6)),
    (Filing([2, 0, 9, 9, 0, 0]), &[0, 0, 1], (3, 7)),
    (Filing([3, 3, 0, 0, 9, 0]), &[3, 0, 0], (3, 7)),
    (Filing([4, 2, 0, 0, 0, 9]), &[2, 0, 0], (3, 7)),
    (Filing([2, 0, 1, 0, 0, 0]), &[9, 0, 0], (3, 7)),
    (Filing([2, 0, 1, 0, 0, 0]), &[1, 0, 0, 0, 0], (3, 8)),
    (Filing([2, 0, 2, 0, 0, 0]), &[0, 0, 2, 0, 3], (3, 8)),
    (Filing([6, 6, 0, 0, 0, 0]), &[3, 0, 0], (3, 7)),
    (Claim, &[9, 0, 0], (3, 1)),
    (Claim, &[1, 0, 0, 0, 0], (3, 2)),
    (FirstLine, &[9, 0, 0], (3, 1)),
    (FirstLine, &[1, 0, 0, 0, 0], (3, 2)),
    (Concludes([6, 9, 9, 9, 0], 15), &[0], (3, 5)),
    (Concludes([6, 6, 0, 0, 0], 0), &[9, 0, 0], (3, 6)),
    (Concludes([3, 0, 0, 0, 0], 16), &[1, 0, 0, 0, 0], (3, 7)),
];

// What memory holds before a question.
const OLD: u64 = 0x5555_5555_5555_5555;

// Asks for a conclusion, and looks at all of the memory.
fn conclude(
    docket: &Docket,
    ([rule, p, q, s, index], words): ([u16; 5], usize),
    members: &[u8],
) -> Result<Said<()>, Fail> {
    let inquiry = Inquiry {
        rule,
        on: Principals { p, q, s },
        index,
        members,
    };
    let mut memory = [OLD; 16];
    let answer = docket.conclusion(&house(), &inquiry, &mut memory[..words.min(16)]);
    expect("memory", memory, [OLD; 16])?;
    Ok(told(answer))
}

fn file(docket: &mut Docket, [rule, p, q, s, m, n]: [u16; 6], members: &[u8]) -> Said<()> {
    let draft = Draft {
        rule,
        on: Principals { p, q, s },
        m,
        n,
        members,
    };
    told(docket.file_line(&house(), &draft)).map(|_| ())
}

// What is said, other than that it is done.
fn say(docket: &mut Docket, taking: Taking, members: &[u8]) -> Result<Said<()>, Fail> {
    match taking {
        Filing(numbers) => Ok(file(docket, numbers, members)),
        Claim => Ok(told(docket.file_claim(members)).map(|_| ())),
        FirstLine => Ok(told(docket.first_line(members)).map(|_| ())),
        Concludes(numbers, words) => conclude(docket, (numbers, words), members),
    }
}

fn refused(docket: &mut Docket, cuts: &[Cut]) -> Result<(), Fail> {
    for (taking, members, refusal) in cuts {
        let said = say(docket, *taking, members)?;
        expect(
            format_args!("{taking:?} of {members:?}"),
            said,
            Err(*refusal),
        )?;
    }
    Ok(())
}

fn refused_behind_the_seal(docket: &mut Docket) -> Result<(), Fail> {
    refused(docket, &CUT)?;
    refused(docket, &BEFORE)?;
    refused(docket, &AFTER)
}

// Nothing took a number: the next concept is 7, the next line 2, and no claim was filed.
static NEXT: [Step; 3] = [
    Tally(0, 0, 0),
    Record(&[3, 0, 0, 0], Ok(7)),
    Record(&[7, 2, 0, 1, 0, 0, 0, 0, 1, 3], Ok(2)),
];

// Then there is room for nothing more.
static FULL: [Step; 4] = [
    Tally(256, 0, 0),
    Record(&[3, 0, 0, 0], Err((5, 8))),
    Record(&[7, 2, 0, 1, 0, 0, 0, 0, 1], Err((5, 3))),
    Record(&[8, 0], Err((5, 256))),
];

const ROOM: Room = Room {
    concepts: 8,
    lines: 3,
};

#[test]
fn cut_labels(rt: HostRuntime) -> Result<(), Fail> {
    let mut concepts = [Concept::Top; 8];
    let mut lines = [Line::default(); 3];
    let mut docket = opened(ROOM, &mut concepts, &mut lines)?;
    refused(&mut docket, &OPEN)?;
    play(rt.alloc(), &mut docket, &DOCKET)?;
    refused_behind_the_seal(&mut docket)?;
    play(rt.alloc(), &mut docket, &NEXT)?;
    fill_claims(rt.alloc(), &mut docket)?;
    refused_behind_the_seal(&mut docket)?;
    play(rt.alloc(), &mut docket, &FULL)
}

// A line that no step files.
const UNFILED: Line = Line {
    step: line::Step {
        rule: 999,
        on: Principals { p: 9, q: 9, s: 9 },
        cited: Cited::Two(9, 9),
    },
    label: [OLD; 16],
};

// The docket's memory is as it was too: two lines stand, and the third place and the last concept's are as they were lent.
#[test]
fn memory_behind_cut_labels(rt: HostRuntime) -> Result<(), Fail> {
    let mut concepts = [Concept::NotName(999); 8];
    let mut lines = [UNFILED; 3];
    let mut docket = opened(ROOM, &mut concepts, &mut lines)?;
    play(rt.alloc(), &mut docket, &DOCKET)?;
    refused_behind_the_seal(&mut docket)?;
    let rules = lines.map(|line| (line.step.rule, line.label[0]));
    expect("lines", rules, [(2, 0b11), (2, 0b111), (999, OLD)])?;
    let lent = concepts.map(|concept| matches!(concept, Concept::NotName(999)));
    expect(
        "lent",
        lent,
        [false, false, false, false, false, false, false, true],
    )
}
