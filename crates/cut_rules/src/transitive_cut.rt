ghost use Rattle.std.specs.Prelude.{refl};
ghost use Rattle.schemas.specs.House.{transitive_cut};
ghost use Rattle.schemas.proofs.Agreement.{transitive_cut_lawful};

use crate::split::split;
use calculus::premise::Premise;
use calculus::rule::Rule;
use logic::concept::Concept;
use logic::role::inverse;
use schemas::conclusion::nothing;

/// Rule 9: p and q are mates, p is "only R C", where R is transitive, and s is "only R' q".
/// Conclusions: the label and p; the label, q and s. Where an element lies in q, so does each
/// element that R leads from to it.
#[derive(Default, Drop)]
pub struct TransitiveCutRule;

impl Rule for TransitiveCutRule {
    const RULE_NUMBER: u16 = 9;

    ghost RULE_NUMBER = { 9 };

    const CITED_LINES: u8 = 2;

    ghost CITED_LINES = { 2 };

    ghost schema = { λ _. transitive_cut };

    ghost has_number = { λ _. refl };

    ghost has_count = { λ _. refl };

    ghost lawful = { λ r. transitive_cut_lawful };

    fn applies(&self, at: &Premise) -> bool {
        matches!(
            (at.concept(at.on.p), at.concept(at.on.s)),
            (Some(Concept::Only(r, _)), Some(Concept::Only(t, c)))
                if at.mates()
                    && at.vocabulary.is_transitive(r)
                    && t as usize == inverse(r as usize)
                    && c == at.on.q
        )
    }

    fn conclusion(&self, at: &Premise, i: u8) -> [u64; 16] {
        if self.has_conclusion(at, i) {
            split(at, i)
        } else {
            nothing()
        }
    }
}
