use crate::forgetting::ForgettingRule;
use crate::neighbour_cases::NeighbourCasesRule;
use book::line::Line;
use calculus::bank::{Bank, Pair, Single};
use desk::told;
use docket::Docket;
use logic::concept::Concept;
use rules::house::House;
use rules::table::house;
use std::process::Abort;
use std::test::Fail;

// Banks that have the guests, and the docket that they are lent to.

/// Two banks side by side.
pub fn beside<L: Bank, R: Bank>(left: L, right: R) -> Pair<L, R> {
    Pair { left, right }
}

/// A bank of the one rule of number N, which forgets the concepts from this one upward.
pub fn forgetting<const N: u16>(from: u16) -> Single<ForgettingRule<N>> {
    Single {
        rule: ForgettingRule { from },
    }
}

// The guests, rules 11 and 12.
type Guests = Pair<Single<NeighbourCasesRule>, Single<ForgettingRule<12>>>;

/// The house with the guests beside it.
pub fn guested() -> Pair<House, Guests> {
    let cases = Single {
        rule: NeighbourCasesRule,
    };
    beside(house(), beside(cases, forgetting(1)))
}

/// Which bank a call is lent.
#[derive(Clone, Copy, Debug)]
pub enum Lent {
    House,
    Guested,
}

// Bottom, a name and its negation, which are mates, and concepts that are made of them.
const CONCEPTS: [(u16, u16, u16); 8] = [
    // 0 to 2
    (1, 0, 0),
    (2, 0, 0),
    (3, 0, 0),
    // 3 and 4: 1 and 2; 0 or 3
    (4, 1, 2),
    (5, 0, 3),
    // 5 and 6: some 127 of 4; some 127 of 3
    (7, 127, 4),
    (7, 127, 3),
    // 7: 1 and 5
    (4, 1, 5),
];

// Files the concepts, pairs the mates and seals.
fn prepare(rt: &impl Abort, docket: &mut Docket) {
    for (c, (tag, a, b)) in CONCEPTS.iter().enumerate() {
        assert_eq!(rt; told(docket.file_concept(*tag, *a, *b)), Ok(c));
    }
    assert_eq!(rt; told(docket.pair(1, 2)), Ok(0));
    assert_eq!(rt; told(docket.seal()), Ok(0));
}

/// A new docket with room for eight concepts and sixteen lines.
pub fn opened<'a>(memory: &'a mut [Concept], lines: &'a mut [Line]) -> Result<Docket<'a>, Fail> {
    match Docket::open(8, 16, memory, lines) {
        Ok(docket) => Ok(docket),
        Err(_) => Err(Fail::new("the docket was not opened")),
    }
}

/// A docket over which questions are asked.
pub fn prepared<'a>(
    rt: &impl Abort,
    memory: &'a mut [Concept],
    lines: &'a mut [Line],
) -> Result<Docket<'a>, Fail> {
    let mut docket = opened(memory, lines)?;
    prepare(rt, &mut docket);
    Ok(docket)
}
