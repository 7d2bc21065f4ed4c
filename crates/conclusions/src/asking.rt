use crate::filed::{COUNT, TURNS, Turn, file_with, write_down};
use book::filing::Draft;
use book::line::Line;
use calculus::premise::Premise;
use calculus::rule::{Principals, Rule};
use cut_rules::cut::CutRule;
use cut_rules::inverse_cut::InverseCutRule;
use cut_rules::transitive_cut::TransitiveCutRule;
use desk::notation::bytes_of;
use desk::{Said, told};
use docket::Docket;
use docket::conclusion::Inquiry;
use local_rules::bottom::BottomRule;
use local_rules::clash::ClashRule;
use local_rules::conjunction::ConjunctionRule;
use local_rules::disjunction::DisjunctionRule;
use local_rules::general::GeneralRule;
use logic::concept::Concept;
use role_rules::narrower::NarrowerRule;
use role_rules::neighbour::NeighbourRule;
use rules::table::house;
use std::alloc::Global;
use std::process::Abort;
use std::test::Fail;
use vocabulary::Vocabulary;

// A step: the rule, the concepts p, q and s that it names, and the label that it is taken at.
pub type Step = (u16, [u16; 3], &'static [u16]);

// The concepts of each of its conclusions, in their order.
pub type Conclusions = &'static [&'static [u16]];

// Memory for a row and two words after it, and what they hold before.
pub const WORDS: usize = 18;

pub const BEFORE: [u64; WORDS] = [0x5aa5_0ff0_3cc3_6996; WORDS];

// The row with these concepts: concept c is bit c mod 64 of word c div 64.
fn row(rt: &impl Abort, concepts: &[u16]) -> [u64; 16] {
    let mut row = [0; 16];
    for c in concepts {
        assert!(rt; *c < COUNT);
        row[*c as usize / 64] |= 1 << (*c % 64);
    }
    row
}

// The memory with that row in its first sixteen words.
pub fn written(rt: &impl Abort, concepts: &[u16]) -> [u64; WORDS] {
    let mut memory = BEFORE;
    memory[..16].copy_from_slice(&row(rt, concepts));
    memory
}

// A docket over memory for as many concepts as can stand.
pub fn opened<'a>(memory: &'a mut [Concept], lines: &'a mut [Line]) -> Result<Docket<'a>, Fail> {
    match Docket::open(memory.len(), lines.len(), memory, lines) {
        Ok(docket) => Ok(docket),
        Err(_) => Err(Fail::new("the docket was not opened")),
    }
}

// Asks for a conclusion of a step by the ten rules.
pub fn ask(
    docket: &Docket,
    (rule, [p, q, s]): (u16, [u16; 3]),
    index: u16,
    members: &[u8],
    memory: &mut [u64],
) -> Said<()> {
    let asked = Inquiry {
        rule,
        on: Principals { p, q, s },
        index,
        members,
    };
    told(docket.conclusion(&house(), &asked, memory))
}

// Hands over the line of a step that cites none.
fn file_closed(
    docket: &mut Docket,
    (rule, [p, q, s]): (u16, [u16; 3]),
    members: &[u8],
) -> Said<usize> {
    let draft = Draft {
        rule,
        on: Principals { p, q, s },
        m: 0,
        n: 0,
        members,
    };
    told(docket.file_line(&house(), &draft))
}

// In conclusion `i` the rule has exactly the listed concepts, asked one by one and walked through.
fn walked<R: Rule>(rt: &impl Abort, rule: &R, at: &Premise, i: u8, listed: &[u16]) {
    let number = R::RULE_NUMBER;
    let mut from = 0;
    for c in listed {
        assert!(rt; *c < COUNT);
        assert_eq!(rt;
            rule.next(at, i, from),
            Some(*c),
            "rule {number}, {i}, from {from}"
        );
        assert_eq!(rt;
            rule.next(at, i, *c),
            Some(*c),
            "rule {number}, {i}, from {c}"
        );
        from = *c + 1;
    }
    for beyond in [from, COUNT, 65535] {
        assert_eq!(rt;
            rule.next(at, i, beyond),
            None,
            "rule {number}, {i}, from {beyond}"
        );
    }
    for c in 0..=COUNT {
        assert_eq!(rt;
            rule.concludes(at, i, c),
            listed.contains(&c),
            "rule {number}, {i}, concept {c}"
        );
    }
}

// What the rule itself says of the step: nothing if it doesn't apply, and nothing past its last conclusion.
fn says<R: Rule>(rt: &impl Abort, rule: &R, at: &Premise, said: Option<Conclusions>) {
    let number = R::RULE_NUMBER;
    let applies = said.is_some();
    assert_eq!(rt; rule.applies(at), applies, "rule {number}");
    let conclusions = said.unwrap_or(&[]);
    if applies {
        assert_eq!(rt; conclusions.len(), R::CITED_LINES as usize, "rule {number}");
    }
    for i in [0, 1, 2, 255] {
        let listed = conclusions.get(i as usize).copied().unwrap_or(&[]);
        assert_eq!(rt;
            rule.has_conclusion(at, i),
            applies && i < R::CITED_LINES,
            "rule {number}, {i}"
        );
        walked(rt, rule, at, i, listed);
    }
}

// The same by the rule's number.
fn says_by_number(rt: &impl Abort, rule: u16, at: &Premise, said: Option<Conclusions>) {
    match rule {
        1 => says(rt, &BottomRule, at, said),
        2 => says(rt, &ClashRule, at, said),
        3 => says(rt, &ConjunctionRule, at, said),
        4 => says(rt, &DisjunctionRule, at, said),
        5 => says(rt, &NarrowerRule, at, said),
        6 => says(rt, &GeneralRule, at, said),
        7 => says(rt, &CutRule, at, said),
        8 => says(rt, &InverseCutRule, at, said),
        9 => says(rt, &TransitiveCutRule, at, said),
        10 => says(rt, &NeighbourRule, at, said),
        _ => assert!(rt; false, "rule {rule}"),
    }
}

// How many conclusions each rule has, from rule 1 on.
pub const CONCLUSIONS: [u16; 10] = [0, 0, 1, 2, 1, 1, 2, 2, 2, 1];

// The docket writes exactly these rows, and the words after them are as they were. A step that has none closes a line.
fn writes(
    rt: &impl Abort,
    heap: Global,
    docket: &mut Docket,
    (rule, on, label): Step,
    conclusions: Conclusions,
) -> Result<(), Fail> {
    let members = bytes_of(heap, label)?;
    for (i, listed) in conclusions.iter().enumerate() {
        assert!(rt; i < 2);
        let mut memory = BEFORE;
        let said = ask(docket, (rule, on), i as u16, &members, &mut memory);
        assert_eq!(rt; said, Ok(()), "{i} of rule {rule} of {on:?} at {label:?}");
        let row = written(rt, listed);
        assert!(rt; memory == row, "{i} of rule {rule} of {on:?} at {label:?}");
    }
    if conclusions.is_empty() {
        let said = file_closed(docket, (rule, on), &members);
        assert!(rt;
            said.is_ok(),
            "rule {rule} of {on:?} at {label:?}: {said:?}"
        );
    }
    Ok(())
}

// The docket refuses the step, at each conclusion that the rule has, and the memory is as it was.
fn refuses(
    rt: &impl Abort,
    heap: Global,
    docket: &mut Docket,
    (rule, on, label): Step,
) -> Result<(), Fail> {
    let members = bytes_of(heap, label)?;
    assert!(rt; rule >= 1 && rule <= 10);
    let conclusions = CONCLUSIONS[rule as usize - 1];
    let refused = (8, rule as usize);
    for i in 0..conclusions {
        let mut memory = BEFORE;
        let said = ask(docket, (rule, on), i, &members, &mut memory);
        assert_eq!(rt;
            said,
            Err(refused),
            "{i} of rule {rule} of {on:?} at {label:?}"
        );
        assert!(rt;
            memory == BEFORE,
            "{i} of rule {rule} of {on:?} at {label:?}"
        );
    }
    if conclusions == 0 {
        let said = file_closed(docket, (rule, on), &members);
        assert_eq!(rt; said, Err(refused), "rule {rule} of {on:?} at {label:?}");
    }
    Ok(())
}

// What the rule itself says of a step.
fn says_of(
    rt: &impl Abort,
    vocabulary: &Vocabulary,
    (rule, [p, q, s], label): Step,
    said: Option<Conclusions>,
) {
    let at = Premise {
        vocabulary,
        on: Principals { p, q, s },
        label: &row(rt, label),
    };
    says_by_number(rt, rule, &at, said);
}

fn compared_in(
    rt: &impl Abort,
    heap: Global,
    turn: Turn,
    steps: &[(Step, Conclusions)],
    idle: &[Step],
) -> Result<(), Fail> {
    let mut memory = [Concept::Top; 1024];
    // more than the steps that close a line, so that no line is refused for want of room
    let mut lines = [Line::default(); 16];
    let mut docket = opened(&mut memory, &mut lines)?;
    file_with(rt, &mut docket, turn);
    assert_eq!(rt; told(docket.seal()), Ok(0));
    let mut memory = [Concept::Top; 1024];
    let mut vocabulary = Vocabulary::over(&mut memory, 1024);
    write_down(rt, &mut vocabulary, turn);
    for (step, conclusions) in steps {
        writes(rt, heap, &mut docket, *step, conclusions)?;
        says_of(rt, &vocabulary, *step, Some(conclusions));
    }
    for step in idle {
        refuses(rt, heap, &mut docket, *step)?;
        says_of(rt, &vocabulary, *step, None);
    }
    Ok(())
}

// The steps apply and have these conclusions, and the idle ones don't apply, whichever way the roles are turned.
pub fn compared(
    rt: &impl Abort,
    heap: Global,
    steps: &[(Step, Conclusions)],
    idle: &[Step],
) -> Result<(), Fail> {
    for turn in TURNS {
        compared_in(rt, heap, turn, steps, idle)?;
    }
    Ok(())
}
