ghost use Rattle.std.specs.Prelude.{◌≡◌, false, ◌&&◌, ◌||◌, length, nat_lt};
ghost use Rattle.bits.specs.Bits.{has};
ghost use Rattle.bits.specs.Among.{among};
ghost use Rattle.labels.specs.Labels.{Row, filled};
ghost use Rattle.vocabulary.specs.Vocabularies.{concepts};

use bits::insert;
use calculus::premise::Premise;
use labels::rows::cut_to;

// Conclusions as rows.

/// No concept.
pub fn nothing() -> [u64; 16]
    ensures { Row result (λ c. false) }
{
    [0; 16]
}

// The row with the numbers in `added`.
fn filled(row: &[u64; 16], added: &[u16]) -> [u64; 16]
    ensures { result ≡ filled row.now added.now }
{
    let mut all = *row;
    for c in added {
        insert(&mut all, *c as usize);
    }
    all
}

/// The standing concepts of the label, with those in `added`.
pub fn extended(at: &Premise, added: &[u16]) -> [u64; 16]
    ensures { Row result (λ c. nat_lt c (length (concepts at.now.vocabulary.now))
        && (has at.now.label.now c || among added.now c)) }
{
    cut_to(&filled(at.label, added), at.vocabulary.len())
}
