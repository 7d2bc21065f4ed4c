ghost use Rattle.schemas.specs.House.{house};
ghost use Rattle.schemas.proofs.HouseLaws.{house_lawful};

use calculus::bank::{Bank, Pair, Single};
use calculus::premise::Premise;
use cut_rules::cut::CutRule;
use cut_rules::inverse_cut::InverseCutRule;
use cut_rules::transitive_cut::TransitiveCutRule;
use local_rules::bottom::BottomRule;
use local_rules::clash::ClashRule;
use local_rules::conjunction::ConjunctionRule;
use local_rules::disjunction::DisjunctionRule;
use local_rules::general::GeneralRule;
use role_rules::narrower::NarrowerRule;
use role_rules::neighbour::NeighbourRule;

// Rules 1 to 5 and rules 6 to 10, side by side. The nesting is balanced, since a proof about a bank
// costs more the deeper it is.
type FirstFive = Pair<
    Pair<Single<BottomRule>, Single<ClashRule>>,
    Pair<Single<ConjunctionRule>, Pair<Single<DisjunctionRule>, Single<NarrowerRule>>>,
>;

type LastFive = Pair<
    Pair<Single<GeneralRule>, Single<CutRule>>,
    Pair<Single<InverseCutRule>, Pair<Single<TransitiveCutRule>, Single<NeighbourRule>>>,
>;

/// The bank of all ten rules. There is nothing in them to choose, so there is one such bank.
#[derive(Default, Drop)]
pub struct House {
    rules: Pair<FirstFive, LastFive>,
}

impl Bank for House {
    ghost calculus = { λ _. house };

    ghost lawful = { λ b. house_lawful };

    fn has(&self, rule: u16) -> bool {
        self.rules.has(rule)
    }

    fn cites(&self, rule: u16) -> u8 {
        self.rules.cites(rule)
    }

    fn applies(&self, rule: u16, at: &Premise) -> bool {
        self.rules.applies(rule, at)
    }

    fn conclusion(&self, rule: u16, at: &Premise, i: u8) -> [u64; 16] {
        self.rules.conclusion(rule, at, i)
    }
}
