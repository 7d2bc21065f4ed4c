ghost use Rattle.std.specs.Prelude.{refl};
ghost use Rattle.schemas.specs.House.{inverse_cut};
ghost use Rattle.schemas.proofs.Agreement.{inverse_cut_lawful};

use crate::split::split;
use calculus::premise::Premise;
use calculus::rule::Rule;
use logic::concept::Concept;
use logic::role::inverse;
use schemas::conclusion::nothing;

/// Rule 8: p and q are mates, and s is "only R E", where E is "some R' q" and R' the inverse of R.
/// Conclusions: the label and p; the label, q and s. Where an element lies in q, R' leads back to
/// it from each neighbour by R.
#[derive(Default, Drop)]
pub struct InverseCutRule;

impl Rule for InverseCutRule {
    const RULE_NUMBER: u16 = 8;

    ghost RULE_NUMBER = { 8 };

    const CITED_LINES: u8 = 2;

    ghost CITED_LINES = { 2 };

    ghost schema = { λ _. inverse_cut };

    ghost has_number = { λ _. refl };

    ghost has_count = { λ _. refl };

    ghost lawful = { λ r. inverse_cut_lawful };

    fn applies(&self, at: &Premise) -> bool {
        let Some(Concept::Only(r, e)) = at.concept(at.on.s) else {
            return false;
        };
        let Some(Concept::Exists(t, c)) = at.concept(e) else {
            return false;
        };
        at.mates() && t as usize == inverse(r as usize) && c == at.on.q
    }

    fn conclusion(&self, at: &Premise, i: u8) -> [u64; 16] {
        if self.has_conclusion(at, i) {
            split(at, i)
        } else {
            nothing()
        }
    }
}
