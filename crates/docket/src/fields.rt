ghost use Rattle.std.specs.Prelude.{[], ◌∷◌, nat_le};
ghost use Rattle.refusals.specs.Checks.{when, Passed};
ghost use Rattle.docket.specs.Fields.{out_of_range, part_absent, Read};

use crate::tag::Tag;
use logic::concept::{Concept, NAMES};
use logic::role::ROLES;
use refusals::Refusal;
use refusals::checks::check_stands;

/// What one of the two numbers after a tag is.
#[derive(Clone, Copy, Debug, PartialEq, Eq)]
pub enum Use {
    /// nothing that the tag uses: the number is 0
    Unused,
    /// a name, 0 to 1,023
    Name,
    /// a role, 0 to 127
    Role,
    /// a concept that stands
    Concept,
}

impl Use {
    // Whether the number at this position is in its range, whatever stands.
    fn check_range(self, number: u16, position: u8) -> Result<(), Refusal>
        ensures { Passed (when (out_of_range self number) (3, position) ∷ []) result }
    {
        let fits = match self {
            Use::Unused => number == 0,
            Use::Name => number < NAMES,
            Use::Role => (number as usize) < ROLES,
            Use::Concept => true,
        };
        if fits {
            Ok(())
        } else {
            Err(Refusal::Range(position as usize))
        }
    }

    // Whether the number at this position, if it names a concept, names one of the `count` that
    // stand.
    fn check_stands(self, number: u16, count: usize, position: u8) -> Result<(), Refusal>
        ensures { Passed (when (part_absent self count number) (4, position) ∷ []) result }
    {
        match self {
            Use::Concept => check_stands(number, count, position),
            Use::Unused | Use::Name | Use::Role => Ok(()),
        }
    }
}

// Whether this is a role; its number has this position in its call.
pub(crate) fn check_role(role: u16, position: u8) -> Result<(), Refusal>
    ensures { Passed (when (nat_le 128 role) (3, position) ∷ []) result }
{
    Use::Role.check_range(role, position)
}

/// The concept that a tag and two numbers write, where `count` concepts stand; or the first of the
/// three that is out of range (refusal 3), or does not stand (refusal 4).
pub fn read_concept(count: usize, tag: u16, a: u16, b: u16) -> Result<Concept, Refusal>
    ensures { Read count tag a b result }
{
    let tag = Tag::try_from(tag).map_err(|_| Refusal::Range(0))?;
    let (first, second) = (tag.first(), tag.second());
    first.check_range(a, 1)?;
    second.check_range(b, 2)?;
    first.check_stands(a, count, 1)?;
    second.check_stands(b, count, 2)?;
    Ok(match tag {
        Tag::Top => Concept::Top,
        Tag::Bottom => Concept::Bottom,
        Tag::Name => Concept::Name(a),
        Tag::NotName => Concept::NotName(a),
        Tag::And => Concept::And(a, b),
        Tag::Or => Concept::Or(a, b),
        Tag::Only => Concept::Only(a, b),
        Tag::Exists => Concept::Exists(a, b),
    })
}
