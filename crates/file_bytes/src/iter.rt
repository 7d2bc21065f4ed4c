ghost use Rattle.std.specs.Prelude.{◌≡◌};
ghost use Rattle.std.specs.Iterator.{YieldsFirst, item_count};
ghost use Rattle.file_bytes.specs.Bytes.{numbers};

/// The two-byte numbers of a part, one after another; a lone last byte is none.
#[derive(Drop)]
pub struct Numbers<'b> {
    rest: &'b [u8],
}

impl<'b> Numbers<'b> {
    /// The numbers of these bytes.
    pub fn of(bytes: &'b [u8]) -> Numbers<'b>
        ensures { result.rest ≡ bytes.entry }
    {
        Numbers { rest: bytes }
    }
}

impl<'b> Iterator for Numbers<'b> {
    type Item = u16;

    ghost next_gives = { YieldsFirst (λ n. numbers n.rest.now) };

    ghost remaining = { item_count (λ n. numbers n.rest.now) };

    fn next(&mut self) -> Option<u16> {
        let (pair, rest) = self.rest.split_first_chunk::<2>()?;
        self.rest = rest;
        Some(u16::from_le_bytes(*pair))
    }
}
