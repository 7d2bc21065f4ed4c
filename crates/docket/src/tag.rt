ghost use Rattle.std.specs.Prelude.{◌≡◌};
ghost use Rattle.docket.specs.Tags.{DecodesTag, tag_number};
ghost use Rattle.docket.specs.Fields.{use_of_first, use_of_second};

use crate::fields::Use;

// The tag of a concept as it is filed: its outermost constructor.
#[derive(Clone, Copy, Debug, PartialEq, Eq)]
pub(crate) enum Tag {
    Top,
    Bottom,
    Name,
    NotName,
    And,
    Or,
    Only,
    Exists,
}

// No tag has this number.
#[derive(Clone, Copy, Debug, PartialEq, Eq)]
pub(crate) struct UnknownTag(pub(crate) u16);

impl TryFrom<u16> for Tag {
    type Error = UnknownTag;

    ghost try_from_gives = { DecodesTag };

    fn try_from(number: u16) -> Result<Tag, UnknownTag> {
        match number {
            0 => Ok(Tag::Top),
            1 => Ok(Tag::Bottom),
            2 => Ok(Tag::Name),
            3 => Ok(Tag::NotName),
            4 => Ok(Tag::And),
            5 => Ok(Tag::Or),
            6 => Ok(Tag::Only),
            7 => Ok(Tag::Exists),
            _ => Err(UnknownTag(number)),
        }
    }
}

impl Tag {
    // What the first number after the tag is.
    pub(crate) fn first(self) -> Use
        ensures { result ≡ use_of_first (tag_number self) }
    {
        match self {
            Tag::Top | Tag::Bottom => Use::Unused,
            Tag::Name | Tag::NotName => Use::Name,
            Tag::And | Tag::Or => Use::Concept,
            Tag::Only | Tag::Exists => Use::Role,
        }
    }

    // What the second number after the tag is.
    pub(crate) fn second(self) -> Use
        ensures { result ≡ use_of_second (tag_number self) }
    {
        match self {
            Tag::Top | Tag::Bottom | Tag::Name | Tag::NotName => Use::Unused,
            Tag::And | Tag::Or | Tag::Only | Tag::Exists => Use::Concept,
        }
    }
}
