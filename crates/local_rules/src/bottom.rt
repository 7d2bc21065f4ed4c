ghost use Rattle.std.specs.Prelude.{refl};
ghost use Rattle.schemas.specs.House.{bottom};
ghost use Rattle.schemas.proofs.Agreement.{bottom_lawful};

use calculus::premise::Premise;
use calculus::rule::Rule;
use logic::concept::Concept;
use schemas::conclusion::nothing;

/// Rule 1: p is in the label and is Bottom. No conclusion: no element lies in Bottom.
#[derive(Default, Drop)]
pub struct BottomRule;

impl Rule for BottomRule {
    const RULE_NUMBER: u16 = 1;

    ghost RULE_NUMBER = { 1 };

    const CITED_LINES: u8 = 0;

    ghost CITED_LINES = { 0 };

    ghost schema = { λ _. bottom };

    ghost has_number = { λ _. refl };

    ghost has_count = { λ _. refl };

    ghost lawful = { λ r. bottom_lawful };

    fn applies(&self, at: &Premise) -> bool {
        matches!(at.sole_principal(), Some(Concept::Bottom))
    }

    fn conclusion(&self, at: &Premise, i: u8) -> [u64; 16] {
        nothing()
    }
}
