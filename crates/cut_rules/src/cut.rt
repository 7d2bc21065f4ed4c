ghost use Rattle.std.specs.Prelude.{refl};
ghost use Rattle.schemas.specs.House.{cut};
ghost use Rattle.schemas.proofs.Agreement.{cut_lawful};

use calculus::premise::Premise;
use calculus::rule::Rule;
use schemas::conclusion::{extended, nothing};

/// Rule 7: p and q are mates. Conclusions: the label and p; the label and q.
#[derive(Default, Drop)]
pub struct CutRule;

impl Rule for CutRule {
    const RULE_NUMBER: u16 = 7;

    ghost RULE_NUMBER = { 7 };

    const CITED_LINES: u8 = 2;

    ghost CITED_LINES = { 2 };

    ghost schema = { λ _. cut };

    ghost has_number = { λ _. refl };

    ghost has_count = { λ _. refl };

    ghost lawful = { λ r. cut_lawful };

    fn applies(&self, at: &Premise) -> bool {
        at.mates() && at.on.s == 0
    }

    fn conclusion(&self, at: &Premise, i: u8) -> [u64; 16] {
        if self.has_conclusion(at, i) {
            let mate = if i == 0 { at.on.p } else { at.on.q };
            extended(at, &[mate])
        } else {
            nothing()
        }
    }
}
