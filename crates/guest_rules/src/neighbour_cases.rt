ghost use Rattle.std.specs.Prelude.{◌≡◌, ◌&&◌, Some, None, cond, ◌==◌, length, nat_lt, refl};
ghost use Rattle.bits.specs.Bits.{has};
ghost use Rattle.labels.specs.Labels.{Row};
ghost use Rattle.vocabulary.specs.Vocabularies.{concepts, theory};
ghost use Rattle.schemas.specs.Tests.{first_of, second_of};
ghost use Rattle.guest_rules.specs.Guests.{asked, asks_for_cases, neighbour_cases};
ghost use Rattle.guest_rules.specs.Laws.{neighbour_cases_lawful};

use bits::insert;
use calculus::premise::Premise;
use calculus::rule::Rule;
use labels::rows::cut_to;
use logic::concept::Concept;
use schemas::conclusion::nothing;

// The two cases, D and E: p is in the label, "some R C", and C is "D or E".
fn cases(at: &Premise) -> Option<(u16, u16)>
    ensures { let t = theory at.now.vocabulary.now in
        let concept = asked t at.now.on in
        result ≡ cond (asks_for_cases t at.now.on (has at.now.label.now))
        (Some (first_of concept, second_of concept)) None }
{
    let Some(Concept::Exists(_, c)) = at.sole_principal() else {
        return None;
    };
    let Some(Concept::Or(d, e)) = at.concept(c) else {
        return None;
    };
    Some((d, e))
}

// Concept `c` alone, if it stands.
fn alone(at: &Premise, c: u16) -> [u64; 16]
    ensures { Row result (λ k. nat_lt k (length (concepts at.now.vocabulary.now)) && c == k) }
{
    let mut row = nothing();
    insert(&mut row, c as usize);
    cut_to(&row, at.vocabulary.len())
}

/// Rule 11: p is in the label, "some R C", where C is "D or E". Conclusions, each of a neighbour by R: D; E. The house splits on
/// what the element itself has, and its only conclusion of a neighbour doesn't split.
#[derive(Default, Drop)]
pub struct NeighbourCasesRule;

impl Rule for NeighbourCasesRule {
    const RULE_NUMBER: u16 = 11;

    ghost RULE_NUMBER = { 11 };

    const CITED_LINES: u8 = 2;

    ghost CITED_LINES = { 2 };

    ghost schema = { λ _. neighbour_cases };

    ghost has_number = { λ _. refl };

    ghost has_count = { λ _. refl };

    ghost lawful = { λ _. neighbour_cases_lawful };

    fn applies(&self, at: &Premise) -> bool {
        cases(at).is_some()
    }

    fn conclusion(&self, at: &Premise, i: u8) -> [u64; 16] {
        match cases(at) {
            Some((d, e)) if i < Self::CITED_LINES => {
                let part = if i == 0 { d } else { e };
                alone(at, part)
            }
            _ => nothing(),
        }
    }
}
