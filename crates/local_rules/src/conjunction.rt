ghost use Rattle.std.specs.Prelude.{refl};
ghost use Rattle.schemas.specs.House.{conjunction};
ghost use Rattle.schemas.proofs.Agreement.{conjunction_lawful};

use calculus::premise::Premise;
use calculus::rule::Rule;
use logic::concept::Concept;
use schemas::conclusion::{extended, nothing};

/// Rule 3: p is in the label, "C and D". Conclusion: the label, C and D.
#[derive(Default, Drop)]
pub struct ConjunctionRule;

impl Rule for ConjunctionRule {
    const RULE_NUMBER: u16 = 3;

    ghost RULE_NUMBER = { 3 };

    const CITED_LINES: u8 = 1;

    ghost CITED_LINES = { 1 };

    ghost schema = { λ _. conjunction };

    ghost has_number = { λ _. refl };

    ghost has_count = { λ _. refl };

    ghost lawful = { λ r. conjunction_lawful };

    fn applies(&self, at: &Premise) -> bool {
        matches!(at.sole_principal(), Some(Concept::And(_, _)))
    }

    fn conclusion(&self, at: &Premise, i: u8) -> [u64; 16] {
        match at.sole_principal() {
            Some(Concept::And(c, d)) if i < Self::CITED_LINES => extended(at, &[c, d]),
            _ => nothing(),
        }
    }
}
