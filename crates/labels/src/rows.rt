ghost use Rattle.std.specs.Prelude.{◌≡◌, ◌*◌, ◌/◌, ◌^◌, ◌<◌, ◌&&◌, IfSome, nat_lt};
ghost use Rattle.bits.specs.Bits.{bit, has};
ghost use Rattle.labels.specs.Labels.{Row, outside, next_from};
ghost use Rattle.labels.specs.Least.{least};

use bits::low_bits;
use std::array;

// A label as it is kept: a row of sixteen words, which is a plain array, so that rows copy and
// compare by words. It is looked through word by word, never bit by bit.

// The lowest bit of a word.
fn lowest(word: u64) -> Option<u16>
    ensures is { result ≡ least 64 (bit word) }
    ensures below { IfSome result (λ j. j < 64) }
{
    if word == 0 {
        None
    } else {
        Some(word.trailing_zeros() as u16)
    }
}

/// The least concept of row `y` that is not in row `x`.
pub fn first_outside(y: &[u64; 16], x: &[u64; 16]) -> Option<u16>
    ensures { result ≡ outside y.now x.now }
{
    // by index: a word is read from each of two rows, and its place is part of the answer
    for w in 0..16 {
        if let Some(j) = lowest(y[w] ^ (y[w] & x[w])) {
            return Some(64 * w as u16 + j);
        }
    }
    None
}

// The word without its `k` low bits.
fn without_low(word: u64, k: usize) -> u64
    ensures { result ≡ word / 2 ^ k * 2 ^ k }
{
    if k < 64 { word >> k << k } else { 0 }
}

/// The least concept of the row from `c` upward.
pub fn next_from(row: &[u64; 16], c: u16) -> Option<u16>
    ensures { result ≡ next_from row.now c }
{
    let from = c as usize;
    // by index: it begins in the middle of the row, and the place is part of the answer
    for w in from / 64..16 {
        // most words of most labels are empty
        if row[w] == 0 {
            continue;
        }
        if let Some(j) = lowest(without_low(row[w], from.saturating_sub(64 * w))) {
            return Some(64 * w as u16 + j);
        }
    }
    None
}

/// The row without the concepts from the count upward.
pub fn cut_to(row: &[u64; 16], count: usize) -> [u64; 16]
    ensures { Row result (λ c. nat_lt c count && has row.now c) }
{
    array::from_fn(|w| row[w] & low_bits(count.saturating_sub(64 * w)))
}
