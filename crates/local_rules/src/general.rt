ghost use Rattle.std.specs.Prelude.{refl};
ghost use Rattle.schemas.specs.House.{general};
ghost use Rattle.schemas.proofs.Agreement.{general_lawful};

use calculus::premise::Premise;
use calculus::rule::Rule;
use schemas::conclusion::{extended, nothing};

/// Rule 6: p is an axiom. Conclusion: the label and p.
#[derive(Default, Drop)]
pub struct GeneralRule;

impl Rule for GeneralRule {
    const RULE_NUMBER: u16 = 6;

    ghost RULE_NUMBER = { 6 };

    const CITED_LINES: u8 = 1;

    ghost CITED_LINES = { 1 };

    ghost schema = { λ _. general };

    ghost has_number = { λ _. refl };

    ghost has_count = { λ _. refl };

    ghost lawful = { λ r. general_lawful };

    fn applies(&self, at: &Premise) -> bool {
        at.vocabulary.is_axiom(at.on.p) && at.on.p_alone()
    }

    fn conclusion(&self, at: &Premise, i: u8) -> [u64; 16] {
        if self.has_conclusion(at, i) {
            extended(at, &[at.on.p])
        } else {
            nothing()
        }
    }
}
