#![tactic(auto)]

ghost use Rattle.docket.specs.Runs.{BanksWiden};
ghost use Rattle.facts.specs.Answers.{CallsHaveOneAnswer};
ghost use Rattle.facts.specs.Claims.{ClaimsAreRight};
ghost use Rattle.facts.specs.Facts.{ThreeFacts};
ghost use Rattle.facts.specs.Filing.{ClosedTreesAreTaken};
ghost use Rattle.facts.specs.Keeping.{VocabulariesAreKept};

/// THE THREE FACTS of every docket that is reached by calls and questions: if only sound banks of
/// rules were lent, no standing line's label is inhabited, and where a claim is inhabited, no
/// standing line's label lies within its label; and whatever banks were lent, once the docket is
/// sealed, every tree that is closed by the table of rules, and for which there is room, is taken,
/// if children are filed before their parents, parents cite what was answered to them, and nothing
/// else is filed between. Trees that are closed by any other calculus of proper rules are taken
/// too. A call does nothing; that it is proved says that the facts hold.
pub fn three_facts_hold()
    ensures facts { ThreeFacts }
    ensures every_calculus { ClosedTreesAreTaken }
{}

/// THE CLAIMS ARE RIGHT in every docket that is reached: a label of a claim is of standing
/// concepts; some finite interpretation that meets the axioms has an element in all of the label of
/// a claim that is closed as inhabited; and, if only sound banks were lent, none has one in all of
/// the label of a claim that is closed as empty. A call does nothing; that it is proved says that
/// the claims are right.
pub fn claims_are_right()
    ensures { ClaimsAreRight }
{}

/// A CALL HAS ONE ANSWER in every docket: the contract of a call leaves no answer open.
/// A call does nothing; that it is proved says that it holds.
pub fn calls_have_one_answer()
    ensures { CallsHaveOneAnswer }
{}

/// THE VOCABULARY IS KEPT in every docket that is reached: its theory is one that filing and
/// pairing make, as the soundness law of the rules asks. A call does nothing; that it is proved
/// says that it holds.
pub fn vocabularies_are_kept()
    ensures { VocabulariesAreKept }
{}

/// WHAT IS REACHED WITH SOME BANKS is reached with any, and by the rules of one sound calculus with
/// sound banks. A call does nothing; that it is proved says that it holds.
pub fn banks_widen()
    ensures { BanksWiden }
{}
