ghost use Rattle.std.specs.Prelude.{[], ◌∷◌, nat_le};
ghost use Rattle.refusals.specs.Checks.{when, Passed};

use crate::Refusal;

/// Whether a concept, a line or a claim stands, where `count` of them do; its number has this
/// position in its call.
pub fn check_stands(number: u16, count: usize, position: u8) -> Result<(), Refusal>
    ensures { Passed (when (nat_le count number) (4, position) ∷ []) result }
{
    if (number as usize) < count {
        Ok(())
    } else {
        Err(Refusal::Absent(position as usize))
    }
}
