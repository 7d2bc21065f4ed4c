ghost use Rattle.std.specs.Prelude.{◌↔◌, IsTrue};
ghost use Rattle.records.specs.Kinds.{DecodesKind, CanHave};

/// The kinds of records.
#[derive(Clone, Copy, Debug, PartialEq, Eq)]
pub enum Kind {
    Inclusion,
    Transitivity,
    Concept,
    Pair,
    Axiom,
    Seal,
    Line,
    Claim,
    CloseEmpty,
    CloseInhabited,
}

/// No kind has this number.
#[derive(Clone, Copy, Debug, PartialEq, Eq)]
pub struct UnknownKind(pub u16);

impl TryFrom<u16> for Kind {
    type Error = UnknownKind;

    ghost try_from_gives = { DecodesKind };

    fn try_from(number: u16) -> Result<Kind, UnknownKind> {
        match number {
            1 => Ok(Kind::Inclusion),
            2 => Ok(Kind::Transitivity),
            3 => Ok(Kind::Concept),
            4 => Ok(Kind::Pair),
            5 => Ok(Kind::Axiom),
            6 => Ok(Kind::Seal),
            7 => Ok(Kind::Line),
            8 => Ok(Kind::Claim),
            9 => Ok(Kind::CloseEmpty),
            10 => Ok(Kind::CloseInhabited),
            _ => Err(UnknownKind(number)),
        }
    }
}

impl Kind {
    /// Whether the body of a record of this kind can have so many bytes.
    pub fn can_have(self, size: usize) -> bool
        ensures { IsTrue result ↔ CanHave self size }
    {
        match self {
            Kind::Inclusion | Kind::Pair | Kind::CloseEmpty => size == 4,
            Kind::Transitivity | Kind::Axiom => size == 2,
            Kind::Concept => size == 6,
            Kind::Seal => size == 0,
            Kind::Line => size >= 12 && size % 2 == 0,
            Kind::Claim => size % 2 == 0,
            Kind::CloseInhabited => size >= 8 && size % 2 == 0,
        }
    }
}
