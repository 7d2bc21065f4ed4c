ghost use Rattle.std.specs.Prelude.{refl};
ghost use Rattle.schemas.specs.House.{narrower};
ghost use Rattle.schemas.proofs.Agreement.{narrower_lawful};

use calculus::premise::Premise;
use calculus::rule::Rule;
use logic::concept::Concept;
use schemas::conclusion::{extended, nothing};

/// Rule 5: p is in the label, "only R C", and q is "only S C", where S is below R. Conclusion: the
/// label and q.
#[derive(Default, Drop)]
pub struct NarrowerRule;

impl Rule for NarrowerRule {
    const RULE_NUMBER: u16 = 5;

    ghost RULE_NUMBER = { 5 };

    const CITED_LINES: u8 = 1;

    ghost CITED_LINES = { 1 };

    ghost schema = { λ _. narrower };

    ghost has_number = { λ _. refl };

    ghost has_count = { λ _. refl };

    ghost lawful = { λ r. narrower_lawful };

    fn applies(&self, at: &Premise) -> bool {
        matches!(
            (at.concept(at.on.p), at.concept(at.on.q)),
            (Some(Concept::Only(r, c)), Some(Concept::Only(s, d)))
                if at.has(at.on.p) && c == d && at.vocabulary.is_below(s, r) && at.on.s == 0
        )
    }

    fn conclusion(&self, at: &Premise, i: u8) -> [u64; 16] {
        if self.has_conclusion(at, i) {
            extended(at, &[at.on.q])
        } else {
            nothing()
        }
    }
}
