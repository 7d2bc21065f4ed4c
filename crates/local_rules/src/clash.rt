ghost use Rattle.std.specs.Prelude.{refl};
ghost use Rattle.schemas.specs.House.{clash};
ghost use Rattle.schemas.proofs.Agreement.{clash_lawful};

use calculus::premise::Premise;
use calculus::rule::Rule;
use schemas::conclusion::nothing;

/// Rule 2: p and q are in the label and are mates. No conclusion: no element lies in both.
#[derive(Default, Drop)]
pub struct ClashRule;

impl Rule for ClashRule {
    const RULE_NUMBER: u16 = 2;

    ghost RULE_NUMBER = { 2 };

    const CITED_LINES: u8 = 0;

    ghost CITED_LINES = { 0 };

    ghost schema = { λ _. clash };

    ghost has_number = { λ _. refl };

    ghost has_count = { λ _. refl };

    ghost lawful = { λ r. clash_lawful };

    fn applies(&self, at: &Premise) -> bool {
        at.has(at.on.p) && at.has(at.on.q) && at.mates() && at.on.s == 0
    }

    fn conclusion(&self, at: &Premise, i: u8) -> [u64; 16] {
        nothing()
    }
}
