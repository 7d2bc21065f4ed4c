ghost use Rattle.std.specs.Prelude.{refl};
ghost use Rattle.guest_rules.specs.Guests.{forgetting};
ghost use Rattle.guest_rules.specs.Laws.{forgetting_lawful};

use calculus::premise::Premise;
use calculus::rule::Rule;
use labels::rows::cut_to;
use schemas::conclusion::nothing;

/// A rule of the number N: it names no concept. Conclusion: the label without the concepts from `from` upward. The house's rules have
/// nothing to choose; what this one says depends on its value, and its conclusion has less than the label and nothing else.
#[derive(Drop)]
pub struct ForgettingRule<const N: u16> {
    pub from: u16,
}

impl<const N: u16> Rule for ForgettingRule<N> {
    const RULE_NUMBER: u16 = N;

    ghost RULE_NUMBER = { N };

    const CITED_LINES: u8 = 1;

    ghost CITED_LINES = { 1 };

    ghost schema = { λ r. forgetting N r.from };

    ghost has_number = { λ _. refl };

    ghost has_count = { λ _. refl };

    ghost lawful = { λ r. forgetting_lawful N r.from };

    fn applies(&self, at: &Premise) -> bool {
        at.on.p == 0 && at.on.p_alone()
    }

    fn conclusion(&self, at: &Premise, i: u8) -> [u64; 16] {
        if self.has_conclusion(at, i) {
            let kept = cut_to(at.label, self.from as usize);
            cut_to(&kept, at.vocabulary.len())
        } else {
            nothing()
        }
    }
}
