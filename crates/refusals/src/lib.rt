#![tactic(auto)]

pub mod checks;

ghost use Rattle.std.specs.Prelude.{◌≡◌};
ghost use Rattle.refusals.specs.Table.{returned};

/// The fifteen ways to say no, each with the values that its place is made of.
/// Field positions count from 0; supplied memory has the position after the last field.
#[derive(Clone, Copy, Debug, PartialEq, Eq)]
pub enum Refusal {
    // The record at this offset has an unknown kind, a length that its kind can't have, or is cut
    // off.
    Malformed(usize),
    // Not in this phase.
    Phase,
    // The number at this position is out of its range, or the memory there is too short.
    Range(usize),
    // The concept, line or claim at this position doesn't stand.
    Absent(usize),
    // The list or register is full, at this capacity.
    Full(usize),
    // The label member at this position is not above the one before it.
    Order(usize),
    // The two concepts can't be paired.
    Unpaired,
    // The step by this rule doesn't apply.
    Inapplicable(u16),
    // This concept of a cited line lies outside its conclusion.
    Unlicensed(u16),
    // This claim is closed.
    Closed(u16),
    // This concept of the line lies outside the claim's label.
    Outside(u16),
    // The model is wrong: 0 for its numbers and lengths, from 1 up for its marks and then its
    // edges.
    Model(usize),
    // The model breaks the role axiom of this index.
    RoleAxiom(usize),
    // Some element of the model misses the axiom of this index.
    Axiom(usize),
    // The model's point misses this concept of the label.
    Point(u16),
}

impl Refusal {
    /// The refusal as it is returned: its number and its place, which docs/REFUSALS.md fixes.
    pub fn returned(&self) -> (u16, usize)
        ensures { result ≡ returned self.now }
    {
        match *self {
            Refusal::Malformed(offset) => (1, offset),
            Refusal::Phase => (2, 0),
            Refusal::Range(position) => (3, position),
            Refusal::Absent(position) => (4, position),
            Refusal::Full(capacity) => (5, capacity),
            Refusal::Order(position) => (6, position),
            Refusal::Unpaired => (7, 0),
            Refusal::Inapplicable(rule) => (8, rule as usize),
            Refusal::Unlicensed(concept) => (9, concept as usize),
            Refusal::Closed(claim) => (10, claim as usize),
            Refusal::Outside(concept) => (11, concept as usize),
            Refusal::Model(item) => (12, item),
            Refusal::RoleAxiom(index) => (13, index),
            Refusal::Axiom(index) => (14, index),
            Refusal::Point(concept) => (15, concept as usize),
        }
    }
}
