ghost use Rattle.std.specs.Prelude.{◌≡◌, ◌^◌, ◌<◌};
ghost use Rattle.std.specs.Option.{ForSome};
ghost use Rattle.file_bytes.specs.Bytes.{numbers};
ghost use Rattle.labels.specs.Labels.{absent_at, falling_at, row};
ghost use Rattle.labels.specs.Least.{found_or};

use bits::insert;
use file_bytes::iter::Numbers;

// A label as it is given: its members, two bytes for each.

/// What one look through the members of a label shows.
#[derive(Clone, Copy, Debug, PartialEq, Eq)]
pub struct Reading {
    /// the first position whose member does not stand
    pub absent: Option<usize>,
    /// the first position whose member is not above the one before it
    pub falling: Option<usize>,
    /// the members as a row; those past 1,023 are left out
    pub row: [u64; 16],
    ghost absent_fits: { ForSome absent (λ i. i < 2 ^ 63) },
    ghost falling_fits: { ForSome falling (λ i. i < 2 ^ 63) },
}

// The position that was found before, or else this one, if it is such a one.
fn or_here(found: Option<usize>, is_such: bool, position: usize) -> Option<usize>
    ensures { result ≡ found_or found is_such position }
{
    if found.is_none() && is_such {
        Some(position)
    } else {
        found
    }
}

/// Looks at every member of a label once, in rising order of positions, where `count` concepts
/// stand. A lone last byte is no member.
pub fn read(members: &[u8], count: usize) -> Reading
    ensures absent { result.absent ≡ absent_at count (numbers members.now) }
    ensures falling { result.falling ≡ falling_at (numbers members.now) }
    ensures row { result.row ≡ row (numbers members.now) }
{
    let mut absent = None;
    let mut falling = None;
    let mut row = [0; 16];
    // what the next member has to reach
    let mut floor = 0;
    for (i, member) in Numbers::of(members).enumerate() {
        absent = or_here(absent, member as usize >= count, i);
        falling = or_here(falling, (member as u32) < floor, i);
        floor = member as u32 + 1;
        insert(&mut row, member as usize);
    }
    Reading {
        absent,
        falling,
        row,
    }
}
