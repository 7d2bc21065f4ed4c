use desk::told;
use docket::Docket;
use logic::concept::Concept;
use logic::role::RoleAxiom;
use std::process::Abort;
use vocabulary::Vocabulary;

// What has been filed where conclusions are asked for. All 1,024 concepts stand, so that a row has a concept in each of its words.

// How many concepts stand.
pub const COUNT: u16 = 1024;

// The concepts that are not names: every other concept c is name c.
const CONCEPTS: [(u16, Concept); 50] = [
    (0, Concept::Top),
    (1, Concept::Bottom),
    // concepts 6 and 7 are one name, filed twice
    (7, Concept::Name(6)),
    (3, Concept::NotName(2)),
    (1020, Concept::NotName(64)),
    (1000, Concept::Bottom),
    // in words 0, 1 and 15 of a row, of parts in other words
    (4, Concept::And(2, 3)),
    (70, Concept::And(63, 65)),
    (71, Concept::And(2, 2)),
    (1001, Concept::And(63, 960)),
    (5, Concept::Or(2, 0)),
    (78, Concept::Or(4, 4)),
    (1002, Concept::Or(961, 64)),
    // "only R 6" for the roles that rule 5 compares
    (8, Concept::Only(124, 6)),
    (72, Concept::Only(125, 6)),
    (962, Concept::Only(126, 6)),
    (963, Concept::Only(127, 6)),
    (31, Concept::Only(2, 6)),
    (79, Concept::Only(0, 6)),
    // and others: of another concept, of the same name by another number, some for only
    (964, Concept::Only(124, 9)),
    (965, Concept::Only(124, 7)),
    // "some R 6" for the roles that rule 10 follows
    (14, Concept::Exists(0, 6)),
    (15, Concept::Exists(124, 6)),
    (16, Concept::Exists(125, 6)),
    (17, Concept::Exists(126, 6)),
    (18, Concept::Exists(127, 6)),
    (19, Concept::Exists(2, 6)),
    (20, Concept::Exists(1, 6)),
    (1021, Concept::Exists(126, 1000)),
    // and what each of them is given
    (970, Concept::Only(0, 21)),
    (971, Concept::Only(124, 22)),
    (972, Concept::Only(125, 23)),
    (973, Concept::Only(126, 24)),
    (974, Concept::Only(127, 25)),
    (975, Concept::Only(2, 26)),
    (976, Concept::Only(1, 27)),
    (30, Concept::Only(126, 28)),
    (77, Concept::Only(126, 29)),
    // rule 8: "some R' q" and "only R (some R' q)"
    (11, Concept::Exists(127, 2)),
    (73, Concept::Only(126, 11)),
    (74, Concept::Only(126, 12)),
    // rules 8 and 9: mates "only R 2" and "some R 3", and "only R' (some R 3)"
    (10, Concept::Exists(127, 3)),
    (12, Concept::Exists(126, 3)),
    (13, Concept::Exists(124, 3)),
    (76, Concept::Only(124, 2)),
    (968, Concept::Only(127, 2)),
    (1023, Concept::Only(126, 2)),
    (966, Concept::Only(126, 10)),
    (967, Concept::Only(127, 12)),
    (969, Concept::Only(125, 13)),
];

// Role 124 is below role 126, and so 125 below 127; role 0 is below 126 by a chain, and 2 below 127 through the inverses. Of all
// these 126 and 127 alone are transitive.
const ROLE_AXIOMS: [RoleAxiom; 4] = [
    RoleAxiom::Inclusion(0, 124),
    RoleAxiom::Inclusion(124, 126),
    RoleAxiom::Transitivity(127),
    RoleAxiom::Inclusion(3, 126),
];

// Mates; those that have parts come after the mates that these are.
const MATES: [(u16, u16); 6] = [(0, 1), (2, 3), (1020, 64), (1023, 12), (10, 968), (76, 13)];

// In words 0, 1 and 15 of a row, one of them twice.
const AXIOMS: [u16; 4] = [1022, 63, 66, 63];

// The roles 124 to 127 as they are written above, or exchanged: each with its inverse, the two names, or both. What is below what
// stays so, and no concept changes its number, so that all conclusions stay as they are.
#[derive(Clone, Copy, Debug)]
pub enum Turn {
    Straight,
    Inverses,
    Names,
    Both,
}

pub const TURNS: [Turn; 4] = [Turn::Straight, Turn::Inverses, Turn::Names, Turn::Both];

impl Turn {
    fn role(self, r: u16) -> u16 {
        if r < 124 {
            return r;
        }
        match self {
            Turn::Straight => r,
            Turn::Inverses => r ^ 1,
            Turn::Names => r ^ 2,
            Turn::Both => r ^ 3,
        }
    }

    fn role_axiom(self, axiom: RoleAxiom) -> RoleAxiom {
        match axiom {
            RoleAxiom::Inclusion(r, s) => RoleAxiom::Inclusion(self.role(r), self.role(s)),
            RoleAxiom::Transitivity(r) => RoleAxiom::Transitivity(self.role(r)),
        }
    }

    // Concept number `c`.
    fn concept(self, c: u16) -> Concept {
        let written = CONCEPTS
            .iter()
            .find(|(number, _)| *number == c)
            .map_or(Concept::Name(c), |(_, concept)| *concept);
        match written {
            Concept::Only(r, d) => Concept::Only(self.role(r), d),
            Concept::Exists(r, d) => Concept::Exists(self.role(r), d),
            other => other,
        }
    }
}

// The tag of a concept and its two numbers.
fn fields(concept: Concept) -> (u16, u16, u16) {
    match concept {
        Concept::Top => (0, 0, 0),
        Concept::Bottom => (1, 0, 0),
        Concept::Name(a) => (2, a, 0),
        Concept::NotName(a) => (3, a, 0),
        Concept::And(c, d) => (4, c, d),
        Concept::Or(c, d) => (5, c, d),
        Concept::Only(r, c) => (6, r, c),
        Concept::Exists(r, c) => (7, r, c),
    }
}

// Files all of it with a docket, and leaves it open.
pub fn file_with(rt: &impl Abort, docket: &mut Docket, turn: Turn) {
    for (number, axiom) in ROLE_AXIOMS.iter().enumerate() {
        let answer = match turn.role_axiom(*axiom) {
            RoleAxiom::Inclusion(r, s) => docket.file_inclusion(r, s),
            RoleAxiom::Transitivity(r) => docket.file_transitivity(r),
        };
        assert_eq!(rt; told(answer), Ok(number));
    }
    for c in 0..COUNT {
        let (tag, a, b) = fields(turn.concept(c));
        assert_eq!(rt; told(docket.file_concept(tag, a, b)), Ok(c as usize));
    }
    for (c, d) in MATES {
        assert_eq!(rt; told(docket.pair(c, d)), Ok(0), "mates {c} and {d}");
    }
    for (number, c) in AXIOMS.iter().enumerate() {
        assert_eq!(rt; told(docket.file_axiom(*c)), Ok(number));
    }
}

// The same in a vocabulary, which rules are asked over.
pub fn write_down(rt: &impl Abort, vocabulary: &mut Vocabulary, turn: Turn) {
    for (number, axiom) in ROLE_AXIOMS.iter().enumerate() {
        let axiom = turn.role_axiom(*axiom);
        let named = match axiom {
            RoleAxiom::Inclusion(r, s) => r < 128 && s < 128,
            RoleAxiom::Transitivity(r) => r < 128,
        };
        assert!(rt; named);
        assert_eq!(rt; vocabulary.file_role_axiom(axiom), Some(number));
    }
    for c in 0..COUNT {
        assert!(rt;
            vocabulary.file_concept(turn.concept(c)).is_ok(),
            "concept {c}"
        );
    }
    for (c, d) in MATES {
        assert_eq!(rt; vocabulary.pair(c, d), Some(()), "mates {c} and {d}");
    }
    for (number, c) in AXIOMS.iter().enumerate() {
        assert_eq!(rt; vocabulary.file_axiom(*c), Some(number));
    }
}
