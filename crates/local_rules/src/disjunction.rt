ghost use Rattle.std.specs.Prelude.{refl};
ghost use Rattle.schemas.specs.House.{disjunction};
ghost use Rattle.schemas.proofs.Agreement.{disjunction_lawful};

use calculus::premise::Premise;
use calculus::rule::Rule;
use logic::concept::Concept;
use schemas::conclusion::{extended, nothing};

/// Rule 4: p is in the label, "C or D". Conclusions: the label and C; the label and D.
#[derive(Default, Drop)]
pub struct DisjunctionRule;

impl Rule for DisjunctionRule {
    const RULE_NUMBER: u16 = 4;

    ghost RULE_NUMBER = { 4 };

    const CITED_LINES: u8 = 2;

    ghost CITED_LINES = { 2 };

    ghost schema = { λ _. disjunction };

    ghost has_number = { λ _. refl };

    ghost has_count = { λ _. refl };

    ghost lawful = { λ r. disjunction_lawful };

    fn applies(&self, at: &Premise) -> bool {
        matches!(at.sole_principal(), Some(Concept::Or(_, _)))
    }

    fn conclusion(&self, at: &Premise, i: u8) -> [u64; 16] {
        match at.sole_principal() {
            Some(Concept::Or(c, d)) if i < Self::CITED_LINES => {
                let part = if i == 0 { c } else { d };
                extended(at, &[part])
            }
            _ => nothing(),
        }
    }
}
