ghost use Rattle.std.specs.Prelude.{◌≡◌, ℕ, ◌&&◌, nat_le, nat_lt};
ghost use Rattle.bits.specs.Bits.{has};
ghost use Rattle.labels.specs.Least.{least};
ghost use Rattle.labels.specs.Labels.{Row};
ghost use Rattle.vocabulary.specs.Vocabularies.{theory};
ghost use Rattle.calculus.specs.Premises.{p_alone};
ghost use Rattle.calculus.specs.Schemas.{Schema, Lawful};

use crate::premise::Premise;
use bits;
use labels::rows::next_from;

/// The concepts that a step names, by number; one that its rule doesn't use is 0.
#[derive(Clone, Copy, Debug, Default, PartialEq, Eq)]
pub struct Principals {
    pub p: u16,
    pub q: u16,
    pub s: u16,
}

impl Principals {
    /// Whether the step names p alone.
    pub fn p_alone(self) -> bool
        ensures { result ≡ p_alone self }
    {
        self.q == 0 && self.s == 0
    }
}

/// A rule of the calculus. It says when a step applies to a label, and which standing concepts its
/// conclusions have. It refuses nothing, and asking alters nothing.
pub trait Rule {
    /// Its number.
    const RULE_NUMBER: u16;

    ghost RULE_NUMBER: { ℕ };

    /// How many lines a step by it cites, which is how many conclusions it has: 0 to 2.
    const CITED_LINES: u8;

    ghost CITED_LINES: { ℕ };

    // what the rule says
    ghost schema: { Self → Schema };

    /// Whether the step applies.
    fn applies(&self, at: &Premise) -> bool
        ensures { result ≡ (schema self.now).applies (theory at.now.vocabulary.now) at.now.on (has at.now.label.now) };

    /// Conclusion `i`, as a row.
    fn conclusion(&self, at: &Premise, i: u8) -> [u64; 16]
        ensures { Row result ((schema self.now).concludes (theory at.now.vocabulary.now) at.now.on (has at.now.label.now) i) };

    /// Whether the step applies and has a conclusion `i`.
    fn has_conclusion(&self, at: &Premise, i: u8) -> bool
        ensures { result ≡ (nat_lt i CITED_LINES
            && (schema self.now).applies (theory at.now.vocabulary.now) at.now.on (has at.now.label.now)) }
    {
        i < Self::CITED_LINES && self.applies(at)
    }

    /// Whether concept `c` is in conclusion `i`; concepts are 0 to 1,023.
    fn concludes(&self, at: &Premise, i: u8, c: u16) -> bool
        ensures { result ≡ (nat_lt c 1024
            && (schema self.now).concludes (theory at.now.vocabulary.now) at.now.on (has at.now.label.now) i c) }
    {
        let row = self.conclusion(at, i);
        bits::has(&row, c as usize)
    }

    /// The next concept from `c` upward in conclusion `i`.
    fn next(&self, at: &Premise, i: u8, c: u16) -> Option<u16>
        ensures { result ≡ least 1024 (λ k. nat_le c k
            && (schema self.now).concludes (theory at.now.vocabulary.now) at.now.on (has at.now.label.now) i k) }
    {
        let row = self.conclusion(at, i);
        next_from(&row, c)
    }

    // the constants are what it says
    ghost has_number: { (r : Self) → (schema r).number ≡ RULE_NUMBER };

    ghost has_count: { (r : Self) → (schema r).cites ≡ CITED_LINES };

    // at most two lines; in a conclusion standing concepts alone, none past the last conclusion,
    // none when the step doesn't apply; and the soundness law: if a finite interpretation that
    // meets the axioms has an element in all of the label, and the step applies, it has one in all
    // of some conclusion
    ghost lawful: { (r : Self) → Lawful (schema r) };
}
