ghost use Rattle.std.specs.Prelude.{◌≡◌};
ghost use Rattle.bits.specs.Bits.{has};
ghost use Rattle.labels.specs.Labels.{Row};
ghost use Rattle.vocabulary.specs.Vocabularies.{theory};
ghost use Rattle.calculus.specs.Calculi.{Calculus, LawfulCalculus, alone, beside};
ghost use Rattle.calculus.specs.Banks.{alone_lawful, beside_lawful};

use crate::premise::Premise;
use crate::rule::Rule;

/// A bank of rules: one rule, or two banks side by side. It answers by the leftmost rule with the
/// step's number; with a number that no rule has, no step applies. It is lent to the calls that
/// need one.
pub trait Bank {
    // what its rules say
    ghost calculus: { Self → Calculus };

    /// Whether some rule has this number.
    fn has(&self, rule: u16) -> bool
        ensures { result ≡ (calculus self.now).has rule };

    /// How many lines a step by this rule cites.
    fn cites(&self, rule: u16) -> u8
        ensures { result ≡ (calculus self.now).cites rule };

    /// Whether the step applies.
    fn applies(&self, rule: u16, at: &Premise) -> bool
        ensures { result ≡ (calculus self.now).applies rule (theory at.now.vocabulary.now) at.now.on (has at.now.label.now) };

    /// Conclusion `i`, as a row.
    fn conclusion(&self, rule: u16, at: &Premise, i: u8) -> [u64; 16]
        ensures { Row result ((calculus self.now).concludes rule (theory at.now.vocabulary.now) at.now.on (has at.now.label.now) i) };

    ghost lawful: { (b : Self) → LawfulCalculus (calculus b) };
}

/// One rule as a bank.
#[derive(Default, Drop)]
pub struct Single<R> {
    pub rule: R,
}

impl<R: Rule> Bank for Single<R> {
    ghost calculus = { λ b. alone (R.Rule.schema b.rule) };

    ghost lawful = { λ b. alone_lawful (R.Rule.schema b.rule) (R.Rule.lawful b.rule) };

    fn has(&self, rule: u16) -> bool {
        rule == R::RULE_NUMBER
    }

    fn cites(&self, rule: u16) -> u8 {
        R::CITED_LINES
    }

    fn applies(&self, rule: u16, at: &Premise) -> bool {
        self.has(rule) && self.rule.applies(at)
    }

    fn conclusion(&self, rule: u16, at: &Premise, i: u8) -> [u64; 16] {
        if self.has(rule) {
            self.rule.conclusion(at, i)
        } else {
            [0; 16]
        }
    }
}

/// Two banks side by side. Each question asks the side that has the rule; to pick that side once
/// would take a `dyn Bank`, which is no plainer for three questions.
#[derive(Default, Drop)]
pub struct Pair<L, R> {
    pub left: L,
    pub right: R,
}

impl<L: Bank, R: Bank> Bank for Pair<L, R> {
    ghost calculus = { λ b. beside (L.Bank.calculus b.left) (R.Bank.calculus b.right) };

    ghost lawful = { λ b. beside_lawful (L.Bank.calculus b.left) (R.Bank.calculus b.right)
        (L.Bank.lawful b.left) (R.Bank.lawful b.right) };

    fn has(&self, rule: u16) -> bool {
        self.left.has(rule) || self.right.has(rule)
    }

    fn cites(&self, rule: u16) -> u8 {
        if self.left.has(rule) {
            self.left.cites(rule)
        } else {
            self.right.cites(rule)
        }
    }

    fn applies(&self, rule: u16, at: &Premise) -> bool {
        if self.left.has(rule) {
            self.left.applies(rule, at)
        } else {
            self.right.applies(rule, at)
        }
    }

    fn conclusion(&self, rule: u16, at: &Premise, i: u8) -> [u64; 16] {
        if self.left.has(rule) {
            self.left.conclusion(rule, at, i)
        } else {
            self.right.conclusion(rule, at, i)
        }
    }
}
