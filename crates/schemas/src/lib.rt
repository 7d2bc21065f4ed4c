#![tactic(auto)]

pub mod conclusion;

ghost use Rattle.calculus.specs.Calculi.{LawfulCalculus};
ghost use Rattle.schemas.specs.House.{house};
ghost use Rattle.schemas.specs.Laws.{HouseIsTheTable};

/// The laws of the ten rules. A call of it does nothing; that it is proved says that the laws hold.
pub fn laws_hold()
    ensures table { HouseIsTheTable }
    ensures lawful { LawfulCalculus house }
{}
