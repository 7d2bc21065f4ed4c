#![tactic(auto)]

// What the trials share: calls and questions with the answers that are expected, played on a docket one by one. Nothing here
// promises more than that it is safe: it is for tests alone, and a test that finds something else fails.

pub mod notation;
pub mod step;

use book::line::Line;
use docket::Docket;
use intake::Reply;
use logic::concept::Concept;
use refusals::Refusal;
use std::alloc::Global;
use std::fmt::{Debug, Display};
use std::test::Fail;
use step::Step;

/// What a call said: a value, or a refusal by its number and its place.
pub type Said<T> = Result<T, (u16, usize)>;

/// What a call answered, its refusal as it is returned.
pub fn told<T: Copy>(answer: Result<T, Refusal>) -> Said<T> {
    answer.map_err(|refusal| refusal.returned())
}

/// What a reply says: the kind of the record, and the answer.
pub fn replied(reply: &Reply) -> (u16, Said<usize>) {
    (reply.kind, told(reply.answer))
}

/// Fails if an answer is not the one that is expected.
pub fn expect<T: PartialEq + Debug + Drop, D: Display + Drop>(
    what: D,
    said: T,
    expected: T,
) -> Result<(), Fail> {
    if said == expected {
        Ok(())
    } else {
        Err(Fail::new(format_args!("{what}: {said:?}, not {expected:?}")))
    }
}

/// How many concepts and lines a docket can have.
#[derive(Clone, Copy)]
pub struct Room {
    pub concepts: usize,
    pub lines: usize,
}

/// A docket of this room. It borrows its memory, which may be longer.
pub fn opened<'a>(
    room: Room,
    concepts: &'a mut [Concept],
    lines: &'a mut [Line],
) -> Result<Docket<'a>, Refusal> {
    // no `map_err`: the borrow checker does not cover a method that takes an error with several `&mut`
    match Docket::open(room.concepts, room.lines, concepts, lines) {
        Ok(docket) => Ok(docket),
        Err(unopened) => Err(unopened.refusal),
    }
}

/// Takes the steps one after the other, and fails at the first that is answered otherwise than it expects.
pub fn play(alloc: Global, docket: &mut Docket, steps: &[Step]) -> Result<(), Fail> {
    for step in steps {
        step.take(alloc, docket)?;
    }
    Ok(())
}

/// Plays all tables on one new docket.
pub fn play_all(alloc: Global, room: Room, tables: &[&[Step]]) -> Result<(), Fail> {
    let mut concepts = vec![in alloc; Concept::Top; room.concepts]?;
    let mut lines = vec![in alloc; Line::default(); room.lines]?;
    let mut docket = opened(room, concepts.as_mut_slice(), lines.as_mut_slice())?;
    for steps in tables {
        play(alloc, &mut docket, steps)?;
    }
    Ok(())
}
