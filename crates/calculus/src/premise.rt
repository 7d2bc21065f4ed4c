ghost use Rattle.std.specs.Prelude.{◌≡◌};
ghost use Rattle.bits.specs.Bits.{has};
ghost use Rattle.logic.specs.Theories.{concept_at, are_mates};
ghost use Rattle.vocabulary.specs.Vocabularies.{theory};
ghost use Rattle.calculus.specs.Premises.{sole_principal};

use crate::rule::Principals;
use bits;
use logic::concept::Concept;
use vocabulary::Vocabulary;

/// What a step starts from: what has been filed, the concepts that the step names, and the label
/// that it is taken at.
#[derive(Clone, Copy)]
pub struct Premise<'s, 'v> {
    pub vocabulary: &'s Vocabulary<'v>,
    pub on: Principals,
    pub label: &'s [u64; 16],
}

impl<'s, 'v> Premise<'s, 'v> {
    /// Concept `c`, if it stands.
    pub fn concept(&self, c: u16) -> Option<Concept>
        ensures { result ≡ concept_at (theory self.now.vocabulary.now) c }
    {
        self.vocabulary.concept(c)
    }

    /// Whether concept `c` is in the label.
    pub fn has(&self, c: u16) -> bool
        ensures { result ≡ has self.now.label.now c }
    {
        let label = self.label;
        bits::has(label, c as usize)
    }

    /// Whether p and q are mates.
    pub fn mates(&self) -> bool
        ensures { result ≡ are_mates (theory self.now.vocabulary.now).mates self.now.on.p self.now.on.q }
    {
        self.vocabulary.are_mates(self.on.p, self.on.q)
    }

    /// Concept p, if the step names it alone and it is in the label.
    pub fn sole_principal(&self) -> Option<Concept>
        ensures { result ≡ sole_principal self.now }
    {
        if self.has(self.on.p) && self.on.p_alone() {
            self.concept(self.on.p)
        } else {
            None
        }
    }
}
