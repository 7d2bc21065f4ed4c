#![tactic(auto)]

ghost use Rattle.std.specs.Prelude.{◌≡◌, ◌<◌, false, ◌&&◌, ◌||◌, ◌==◌, nat_lt};
ghost use Rattle.rows.specs.Rows.{HasRow, contains, turned, IsRow, RowBecomes, RowWritten};

use bits::{bit, low_bits};
use std::array;

// Sets of elements, each in a row of four words. Row c has the words 4c to 4c + 3, and the elements
// are 0 to 255: element e is bit e mod 64 of word 4c + e div 64. The words lie in one slice, and
// one row is made of others of the same slice, so a row is a place in it.

/// The words of row `c`.
pub fn row(rows: &[u64], c: usize) -> [u64; 4]
    requires { HasRow rows.now c }
    ensures { IsRow rows.now c result }
{
    array::from_fn(|w| rows[4 * c + w])
}

// Row `c` becomes these words.
fn write(rows: &mut [u64], c: usize, row: [u64; 4])
    requires { HasRow rows.old c }
    ensures { RowWritten rows.old rows.new c row }
{
    rows[4 * c..4 * c + 4].copy_from_slice(&row);
}

/// Whether row `c` contains the element.
pub fn contains(rows: &[u64], c: usize, element: usize) -> bool
    requires { (HasRow rows.now c) × (element < 256) }
    ensures { result ≡ contains rows.now c element }
{
    bit(rows[4 * c + element / 64], element % 64)
}

/// Puts the element into row `c`.
pub fn insert(rows: &mut [u64], c: usize, element: usize)
    requires { (HasRow rows.old c) × (element < 256) }
    ensures { RowBecomes rows.old rows.new c (λ e. (element == e) || contains rows.old c e) }
{
    rows[4 * c + element / 64] |= 1 << (element % 64);
}

/// Row `c` becomes empty.
pub fn clear(rows: &mut [u64], c: usize)
    requires { HasRow rows.old c }
    ensures { RowBecomes rows.old rows.new c (λ _. false) }
{
    write(rows, c, [0; 4]);
}

/// Row `c` becomes what the earlier rows `a` and `b` share.
pub fn intersect(rows: &mut [u64], c: usize, a: usize, b: usize)
    requires { (HasRow rows.old c) × ((a < c) × (b < c)) }
    ensures { RowBecomes rows.old rows.new c (λ e. contains rows.old a e && contains rows.old b e) }
{
    let (x, y) = (row(rows, a), row(rows, b));
    write(rows, c, array::from_fn(|w| x[w] & y[w]));
}

/// Row `c` becomes what the earlier rows `a` and `b` have together. One function over both
/// operations would be a trait with an operation and its law, and longer than the two.
pub fn unite(rows: &mut [u64], c: usize, a: usize, b: usize)
    requires { (HasRow rows.old c) × ((a < c) × (b < c)) }
    ensures { RowBecomes rows.old rows.new c (λ e. contains rows.old a e || contains rows.old b e) }
{
    let (x, y) = (row(rows, a), row(rows, b));
    write(rows, c, array::from_fn(|w| x[w] | y[w]));
}

/// Row `c` becomes its complement among the first `n` elements; the others stay as they were.
pub fn complement(rows: &mut [u64], c: usize, n: usize)
    requires { HasRow rows.old c }
    ensures { RowBecomes rows.old rows.new c (λ e. turned (nat_lt e n) (contains rows.old c e)) }
{
    let x = row(rows, c);
    write(
        rows,
        c,
        array::from_fn(|w| x[w] ^ low_bits(n.saturating_sub(64 * w))),
    );
}
