#![tactic(auto)]

pub mod iter;

ghost use Rattle.std.specs.Prelude.{◌≡◌, slice_index};
ghost use Rattle.file_bytes.specs.Bytes.{word, field};

// The byte at this place; 0 after the end.
fn byte(bytes: &[u8], at: usize) -> u8
    ensures { result ≡ slice_index bytes.now at }
{
    bytes.get(at).copied().unwrap_or(0)
}

/// The number in the two bytes from this place on, the low byte first.
pub fn word(bytes: &[u8], at: usize) -> u16
    ensures { result ≡ word bytes.now at }
{
    u16::from_le_bytes([byte(bytes, at), byte(bytes, at.saturating_add(1))])
}

/// The two-byte number with this index. Bytes that the part doesn't have count as 0.
pub fn field(bytes: &[u8], index: usize) -> u16
    ensures { result ≡ field bytes.now index }
{
    word(bytes, index.saturating_mul(2))
}
