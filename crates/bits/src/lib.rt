#![tactic(auto)]

ghost use Rattle.std.specs.Prelude.{◌≡◌, ◌-◌, ◌^◌, min};
ghost use Rattle.bits.specs.Bits.{bit, has, inserted};

/// Whether bit `j` of the word is set; a word has 64.
pub fn bit(word: u64, j: usize) -> bool
    ensures { result ≡ bit word j }
{
    j < 64 && (word >> j) % 2 == 1
}

/// The word whose `k` low bits are set; a word has 64.
pub fn low_bits(k: usize) -> u64
    ensures { result ≡ 2 ^ (min 64 k) - 1 }
{
    if k < 64 { (1 << k) - 1 } else { u64::MAX }
}

/// Whether the number `c` is in the row.
pub fn has(row: &[u64], c: usize) -> bool
    ensures { result ≡ has row.now c }
{
    row.get(c / 64).is_some_and(|word| bit(*word, c % 64))
}

/// Puts the number `c` into the row, if the row has a place for it.
pub fn insert(row: &mut [u64], c: usize)
    ensures { row.new ≡ inserted row.old c }
{
    if c / 64 < row.len() {
        row[c / 64] |= 1 << (c % 64);
    }
}
