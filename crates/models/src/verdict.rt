ghost use Rattle.std.specs.Prelude.{◌≡◌, ◌*◌, ◌<◌, ◌≤◌, true, T, ◌↔◌, length, slice_index};
ghost use Rattle.bits.specs.Bits.{has};
ghost use Rattle.rows.specs.Rows.{contains};
ghost use Rattle.models.specs.Firsts.{First};
ghost use Rattle.models.specs.Evaluation.{RowIsFull, IsFullRow};

use crate::pairs::{is_within, is_word_within};
use bits::{has, low_bits};
use labels::rows::next_from;
use rows::{contains, row};
use std::array;
use vocabulary::MOST_CONCEPTS;

// The extensions of the first `count` concepts in a model of `size` elements: row c has the
// elements of concept c. The count is not the memory's, which may be longer.
#[derive(Clone, Copy)]
pub(crate) struct Extensions<'r> {
    pub(crate) rows: &'r [u64],
    pub(crate) count: usize,
    pub(crate) size: u16,
    ghost room: { 4 * count ≤ length rows.now },
    ghost few: { size ≤ 256 },
}

// The row of the first `n` elements.
fn full_row(n: usize) -> [u64; 4]
    ensures { IsFullRow n result }
{
    array::from_fn(|w| low_bits(n.saturating_sub(64 * w)))
}

impl Extensions<'_> {
    // Whether row `c` has every element, by its words; the row `full` has all of them.
    fn is_full(&self, full: [u64; 4], c: usize) -> bool
        requires all { IsFullRow self.now.size full }
        requires stands { c < self.now.count }
        ensures { T result ↔ RowIsFull self.now.rows.now self.now.size c }
    {
        if self.size <= 64 {
            is_word_within(full[0], self.rows[4 * c])
        } else {
            is_within(full, row(self.rows, c))
        }
    }

    // The first axiom that some element misses. Every element misses one that does not stand.
    pub(crate) fn first_missed(&self, axioms: &[u16]) -> Option<usize>
        ensures { First (λ k. (slice_index axioms.now k < self.now.count)
            × RowIsFull self.now.rows.now self.now.size (slice_index axioms.now k))
            (length axioms.now) result }
    {
        if axioms.is_empty() {
            return None;
        }
        let full = full_row(self.size as usize);
        axioms.iter().position(|c| *c as usize >= self.count || !self.is_full(full, *c as usize))
    }

    // The least concept of the label that the point misses, among the first `n`, which stand.
    fn least_missed_of(&self, n: u16, label: &[u64], point: u16) -> Option<u16>
        requires stand { n ≤ self.now.count }
        requires point { point < self.now.size }
        ensures { First (λ c. has label.now c ≡ true → T (contains self.now.rows.now c point)) n result }
    {
        (0..n).find(|c| has(label, *c as usize)
            && !contains(self.rows, *c as usize, point as usize))
    }

    // The least concept of the label that the point misses. It misses each that does not stand.
    pub(crate) fn least_missed(&self, label: &[u64; 16], point: u16) -> Option<u16>
        requires { point < self.now.size }
        ensures { First (λ c. has label.now c ≡ true
            → (c < self.now.count) × T (contains self.now.rows.now c point)) 1024 result }
    {
        let standing = self.count.min(MOST_CONCEPTS) as u16;
        if let Some(c) = self.least_missed_of(standing, label, point) {
            return Some(c);
        }
        next_from(label, standing)
    }
}
