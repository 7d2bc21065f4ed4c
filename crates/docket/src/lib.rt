#![tactic(auto)]

pub mod claiming;
pub mod conclusion;
pub mod fields;
pub mod filing;
pub mod phase;
pub mod questions;
mod tag;

ghost use Rattle.refusals.specs.Checks.{Passed};
ghost use Rattle.docket.specs.Dockets.{opening_checks, Opened};

use crate::phase::Phase;
use book::line::Line;
use claims::Claims;
use logic::concept::Concept;
use refusals::Refusal;
use register::store::Register;
pub use vocabulary::MOST_CONCEPTS;
use vocabulary::Vocabulary;

/// The most lines that a host can ask for.
pub const MOST_LINES: usize = 4096;

/// What a call answers: the new entry's number (0 where there is none), or a refusal.
pub type Answer = Result<usize, Refusal>;

/// A docket: the vocabulary, the lines and the claims that stand, over memory that the host
/// supplied.
#[derive(Drop)]
pub struct Docket<'a> {
    phase: Phase,
    vocabulary: Vocabulary<'a>,
    book: Register<'a, Line>,
    claims: Claims,
}

/// An opening that was refused, with the host's memory as it was.
#[derive(Drop)]
pub struct Unopened<'a> {
    pub refusal: Refusal,
    pub concepts: &'a mut [Concept],
    pub lines: &'a mut [Line],
}

// Whether a docket can be opened with these capacities, over memory for so many concepts and lines.
fn check_opening(
    concept_capacity: usize,
    line_capacity: usize,
    concepts: usize,
    lines: usize,
) -> Result<(), Refusal>
    ensures { Passed (opening_checks concept_capacity line_capacity concepts lines) result }
{
    if concept_capacity < 1 || concept_capacity > MOST_CONCEPTS {
        return Err(Refusal::Range(0));
    }
    if line_capacity < 1 || line_capacity > MOST_LINES {
        return Err(Refusal::Range(1));
    }
    if concepts < concept_capacity || lines < line_capacity {
        return Err(Refusal::Range(2));
    }
    Ok(())
}

impl<'a> Docket<'a> {
    /// A new docket with these capacities over the host's memory for concepts and for lines.
    pub fn open(
        concept_capacity: usize,
        line_capacity: usize,
        concepts: &'a mut [Concept],
        lines: &'a mut [Line],
    ) -> Result<Docket<'a>, Unopened<'a>>
        ensures { Opened concept_capacity line_capacity concepts.entry lines.entry result }
    {
        match check_opening(concept_capacity, line_capacity, concepts.len(), lines.len()) {
            Ok(()) => Ok(Docket {
                phase: Phase::Open,
                vocabulary: Vocabulary::over(concepts, concept_capacity),
                book: Register::over(lines, line_capacity),
                claims: Claims::new(),
            }),
            // not by ?: the memory is handed back with the refusal
            Err(refusal) => Err(Unopened {
                refusal,
                concepts,
                lines,
            }),
        }
    }
}
