ghost use Rattle.std.specs.Prelude.{◌≡◌};
ghost use Rattle.calculus.specs.Calculi.{LawfulCalculus};
ghost use Rattle.schemas.specs.House.{house};
ghost use Rattle.schemas.specs.Laws.{HouseIsTheTable};
ghost use Rattle.rules.specs.contracts.house.HouseBank.TheImpl.{ghosts as members};

use crate::house::House;

/// The bank of the ten rules. It says exactly what the table of the rules says, and it is lawful.
pub fn house() -> House
    ensures calculus { members.calculus result ≡ house }
    ensures table { HouseIsTheTable }
    ensures lawful { LawfulCalculus house }
{
    House::default()
}
