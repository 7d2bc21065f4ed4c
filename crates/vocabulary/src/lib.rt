#![tactic(auto)]

pub mod axioms;
pub mod mates;
pub mod roles;

ghost use Rattle.std.specs.Prelude.{◌≡◌, ℕ, ◌<◌, min, length};
ghost use Rattle.std.specs.Option.{is_some};
ghost use Rattle.bits.specs.Among.{among};
ghost use Rattle.bits.specs.Bits.{has};
ghost use Rattle.register.specs.Registers.{room};
ghost use Rattle.logic.specs.Roles.{NamesBelow};
ghost use Rattle.logic.specs.Theories.{concept_at, are_mates};
ghost use Rattle.logic.specs.Pairing.{negates, pairable};
ghost use Rattle.closure.specs.Decide.{is_below, is_transitive};
ghost use Rattle.vocabulary.specs.Mates.{mate};
ghost use Rattle.vocabulary.specs.Vocabularies.{concepts, theory, New, ConceptFiled, RolesFiled, AxiomFiled, Paired};

use crate::axioms::Axioms;
use crate::mates::Mates;
use crate::roles::Roles;
use logic::concept::Concept;
use logic::role::RoleAxiom;
use register::store::{Register, Unfit};

/// The most concepts.
pub const MOST_CONCEPTS: usize = 1024;

/// The most axioms of either list.
pub const MOST_AXIOMS: usize = 256;

/// What lines and models are judged by: the role axioms, the concepts, which of them are mates, and
/// the axioms. Contracts see it as a plain record of these four (`theory`). That its tables answer
/// what was filed, and that each concept is made of earlier ones, belongs to the types of its
/// parts.
#[derive(Drop)]
pub struct Vocabulary<'a> {
    roles: Roles,
    concepts: Register<'a, Concept>,
    mates: Mates,
    axioms: Axioms,
}

impl<'a> Vocabulary<'a> {
    /// An empty vocabulary, whose concepts lie in the host's memory.
    pub fn over(slots: &'a mut [Concept], capacity: usize) -> Vocabulary<'a>
        ensures new { New result }
        ensures room { room result.concepts ≡ min capacity (length slots.old) }
        ensures lender { result.concepts.slots ≡ slots.entry }
    {
        Vocabulary {
            roles: Roles::new(),
            concepts: Register::over(slots, capacity),
            mates: Mates::new(),
            axioms: Axioms::new(),
        }
    }

    /// The role axioms, in filing order.
    pub fn role_axioms(&self) -> &[RoleAxiom]
        ensures { result.now ≡ self.now.roles }
    {
        self.roles.axioms()
    }

    /// Files a role axiom; None if the list is full.
    pub fn file_role_axiom(&mut self, new: RoleAxiom) -> Option<usize>
        requires { NamesBelow 128 new }
        ensures { RolesFiled self.old self.new new result }
    {
        self.roles.file(new)
    }

    /// Whether role `r` is below role `s`.
    pub fn is_below(&self, r: u16, s: u16) -> bool
        ensures { result ≡ is_below self.now.roles r s }
    {
        self.roles.is_below(r, s)
    }

    /// Whether role `r` is transitive.
    pub fn is_transitive(&self, r: u16) -> bool
        ensures { result ≡ is_transitive self.now.roles r }
    {
        self.roles.is_transitive(r)
    }

    /// The standing concepts, by number.
    pub fn concepts(&self) -> &[Concept]
        ensures { result.now ≡ concepts self.now }
    {
        self.concepts.entries()
    }

    /// How many concepts stand.
    pub fn len(&self) -> usize
        ensures { result ≡ length (concepts self.now) }
    {
        self.concepts.len()
    }

    /// How many concepts can stand.
    pub fn room(&self) -> usize
        ensures { result ≡ room self.now.concepts }
    {
        self.concepts.room()
    }

    /// Concept `c`, if it stands.
    pub fn concept(&self, c: u16) -> Option<Concept>
        ensures { result ≡ concept_at (theory self.now) c }
    {
        self.concepts.get(c as usize)
    }

    /// The mate of a concept, if it has one.
    pub fn mate(&self, c: u16) -> Option<u16>
        ensures { result ≡ mate self.now.mates c }
    {
        self.mates.mate(c)
    }

    /// Files a concept.
    pub fn file_concept(&mut self, k: Concept) -> Result<usize, Unfit>
        ensures { ConceptFiled self.old self.new k result }
    {
        self.concepts.push(k)
    }

    /// The concepts that hold of every element, in filing order.
    pub fn axioms(&self) -> &[u16]
        ensures { result.now ≡ self.now.axioms }
    {
        self.axioms.list()
    }

    /// The axioms as a row of bits.
    pub fn axiom_row(&self) -> [u64; 16]
        ensures sixteen { length result ≡ 16 }
        ensures exact { (c : ℕ) → c < 1024 → has result c ≡ among self.now.axioms c }
    {
        self.axioms.row()
    }

    /// Whether the concept is an axiom.
    pub fn is_axiom(&self, c: u16) -> bool
        ensures { result ≡ among self.now.axioms c }
    {
        self.axioms.has(c)
    }

    /// Whether the two are mates.
    pub fn are_mates(&self, c: u16, d: u16) -> bool
        ensures { result ≡ are_mates (mate self.now.mates) c d }
    {
        self.mates.are_mates(c, d)
    }

    /// Files a concept as one that holds of every element; None if the list is full.
    pub fn file_axiom(&mut self, c: u16) -> Option<usize>
        ensures { AxiomFiled self.old self.new c result }
    {
        self.axioms.add(c)
    }

    // Whether `k` is written as the negation of `j`, which is the first of the two in the order of
    // tags.
    fn negates(&self, j: Concept, k: Concept) -> bool
        ensures { result ≡ negates (mate self.now.mates) j k }
    {
        match (j, k) {
            (Concept::Top, Concept::Bottom) => true,
            (Concept::Name(a), Concept::NotName(b)) => a == b,
            (Concept::And(a, b), Concept::Or(c, d)) => self.mates.are_mates(a, c)
                && self.mates.are_mates(b, d),
            (Concept::Only(r, a), Concept::Exists(s, b)) => r == s && self.mates.are_mates(a, b),
            _ => false,
        }
    }

    /// Whether the two can be paired.
    pub fn pairable(&self, c: u16, d: u16) -> bool
        ensures { result ≡ pairable (theory self.now) c d }
    {
        if self.mate(c).is_some() || self.mate(d).is_some() {
            return false;
        }
        let (Some(j), Some(k)) = (self.concept(c), self.concept(d)) else {
            return false;
        };
        self.negates(j, k) || self.negates(k, j)
    }

    /// Pairs the two; None if they can't be paired.
    pub fn pair(&mut self, c: u16, d: u16) -> Option<()>
        ensures { Paired self.old self.new c d (is_some result) }
    {
        if !self.pairable(c, d) {
            return None;
        }
        self.mates.join(c, d);
        Some(())
    }
}
