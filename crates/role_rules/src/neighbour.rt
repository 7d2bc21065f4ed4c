ghost use Rattle.std.specs.Prelude.{◌≡◌, ℕ, ◌&&◌, ◌||◌, ◌==◌, length, nat_lt, refl};
ghost use Rattle.bits.specs.Among.{among};
ghost use Rattle.bits.specs.Below.{some_below};
ghost use Rattle.bits.specs.Bits.{has};
ghost use Rattle.labels.specs.Labels.{Row};
ghost use Rattle.vocabulary.specs.Vocabularies.{theory};
ghost use Rattle.schemas.specs.House.{passes, carries, gives, neighbour};
ghost use Rattle.schemas.proofs.Agreement.{neighbour_lawful};

use crate::members::Members;
use bits::insert;
use calculus::premise::Premise;
use calculus::rule::Rule;
use labels::rows::cut_to;
use logic::concept::Concept;
use schemas::conclusion::nothing;
use vocabulary::Vocabulary;

// Puts into the row the concept that concept `d` of a label passes to every neighbour by role `r`,
// if it does.
fn pass(v: &Vocabulary, r: u16, d: u16, row: &mut [u64; 16])
    ensures { (c : ℕ) → has row.new c
        ≡ (has row.old c || (nat_lt c 1024 && passes (theory v.now) r d c)) }
{
    if let Some(Concept::Only(s, e)) = v.concept(d)
        && s == r
    {
        insert(row, e as usize);
    }
}

// Whether concept `d` of a label is carried to every neighbour by role `r`.
fn carries(v: &Vocabulary, r: u16, d: u16) -> bool
    ensures { result ≡ carries (theory v.now) r d }
{
    matches!(v.concept(d), Some(Concept::Only(s, _)) if v.is_below(r, s) && v.is_transitive(s))
}

// Puts into the row what concept `d` of a label gives to every neighbour by role `r`.
fn give(v: &Vocabulary, r: u16, d: u16, row: &mut [u64; 16])
    ensures { (c : ℕ) → has row.new c
        ≡ (has row.old c || (nat_lt c 1024 && gives (theory v.now) r d c)) }
{
    pass(v, r, d, row);
    if carries(v, r, d) {
        insert(row, d as usize);
    }
}

// What a neighbour by role `r` has, if it is asked to have concept `c`: that, the axioms, and what
// the label gives.
fn given(at: &Premise, r: u16, c: u16) -> [u64; 16]
    ensures { let t = theory at.now.vocabulary.now in
        Row result (λ k. (c == k || among t.axioms k)
        || some_below (length t.concepts) (λ d. has at.now.label.now d && gives t r d k)) }
{
    let mut row = at.vocabulary.axiom_row();
    insert(&mut row, c as usize);
    let members = Members {
        row: *at.label,
        from: 0,
    };
    for d in members {
        give(at.vocabulary, r, d, &mut row);
    }
    row
}

/// Rule 10: p is in the label, "some R C". Conclusion, of a neighbour by R: C; all D with "only R
/// D" in the label; all "only S D" in the label where R is below S and S is transitive; and all
/// axioms.
#[derive(Default, Drop)]
pub struct NeighbourRule;

impl Rule for NeighbourRule {
    const RULE_NUMBER: u16 = 10;

    ghost RULE_NUMBER = { 10 };

    const CITED_LINES: u8 = 1;

    ghost CITED_LINES = { 1 };

    ghost schema = { λ _. neighbour };

    ghost has_number = { λ _. refl };

    ghost has_count = { λ _. refl };

    ghost lawful = { λ r. neighbour_lawful };

    fn applies(&self, at: &Premise) -> bool {
        matches!(at.sole_principal(), Some(Concept::Exists(_, _)))
    }

    fn conclusion(&self, at: &Premise, i: u8) -> [u64; 16] {
        match at.sole_principal() {
            Some(Concept::Exists(r, c)) if i < Self::CITED_LINES => {
                cut_to(&given(at, r, c), at.vocabulary.len())
            }
            _ => nothing(),
        }
    }
}
