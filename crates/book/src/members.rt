ghost use Rattle.std.specs.Prelude.{ℕ, ◌+◌, ◌/◌, [], ◌∷◌, length};
ghost use Rattle.labels.specs.Labels.{is_cut};
ghost use Rattle.refusals.specs.Checks.{when, with, Passed};
ghost use Rattle.book.specs.Drafts.{principal_checks};

use calculus::rule::Principals;
use labels::members::Reading;
use refusals::Refusal;
use refusals::checks::check_stands;

// The checks of a label's members are apart, since calls ask for other things between them. A label
// begins at position `from` of its call, and what was found in it is told by one reading of its
// members (`labels::members::read`).

/// Whether the concepts that a step names stand, where `count` concepts do; they have the positions
/// 1 to 3 of their call.
pub fn check_principals(on: Principals, count: usize) -> Result<(), Refusal>
    ensures { Passed (principal_checks count on) result }
{
    check_stands(on.p, count, 1)?;
    check_stands(on.q, count, 2)?;
    check_stands(on.s, count, 3)
}

/// Whether the last member of a label has both of its bytes; else the memory is too short at its
/// position.
pub fn check_whole(members: &[u8], from: u8) -> Result<(), Refusal>
    ensures { Passed (when (is_cut members.now) (3, length members.now / 2 + from) ∷ []) result }
{
    if members.len() % 2 == 1 {
        Err(Refusal::Range(members.len() / 2 + from as usize))
    } else {
        Ok(())
    }
}

/// Whether all members of a label stand.
pub fn check_standing(reading: &Reading, from: u8) -> Result<(), Refusal>
    ensures { Passed (with (λ i. (4, i + from)) reading.now.absent ∷ []) result }
{
    reading
        .absent
        .map_or(Ok(()), |i| Err(Refusal::Absent(i + from as usize)))
}

/// Whether each member of a label is above the one before it.
pub fn check_rising(reading: &Reading, from: u8) -> Result<(), Refusal>
    ensures { Passed (with (λ i. (6, i + from)) reading.now.falling ∷ []) result }
{
    reading
        .falling
        .map_or(Ok(()), |i| Err(Refusal::Order(i + from as usize)))
}
