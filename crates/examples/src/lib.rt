#![tactic(auto)]

ghost use Rattle.examples.specs.Cases.{AllHold};
ghost use Rattle.examples.specs.Table.{cases};
ghost use Rattle.examples.specs.SmallTree.{SmallTree};

/// The worked examples. A call of it does nothing; that it is proved says that every row of the
/// table holds, and so does what is said of the small tree.
pub fn examples_hold()
    ensures table { AllHold cases }
    ensures tree { SmallTree }
{}
