ghost use Rattle.std.specs.Prelude.{◌&&◌, ◌||◌, length, nat_lt};
ghost use Rattle.bits.specs.Bits.{has};
ghost use Rattle.bits.specs.Among.{among};
ghost use Rattle.labels.specs.Labels.{Row};
ghost use Rattle.vocabulary.specs.Vocabularies.{concepts};
ghost use Rattle.schemas.specs.House.{p_or_q_s};

use calculus::premise::Premise;
use schemas::conclusion::extended;

// The conclusions of rules 8 and 9: the label and p; the label, q and s.
pub(crate) fn split(at: &Premise, i: u8) -> [u64; 16]
    ensures { Row result (λ c. nat_lt c (length (concepts at.now.vocabulary.now))
        && (has at.now.label.now c || among (p_or_q_s at.now.on i) c)) }
{
    if i == 0 {
        extended(at, &[at.on.p])
    } else {
        extended(at, &[at.on.q, at.on.s])
    }
}
