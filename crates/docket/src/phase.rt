ghost use Rattle.docket.specs.Dockets.{Entered};

use crate::Docket;
use refusals::Refusal;

/// A docket is open until it is sealed.
#[derive(Clone, Copy, Debug, PartialEq, Eq)]
pub enum Phase {
    Open,
    Sealed,
}

/// What a call is about, as far as the phase is concerned.
#[derive(Clone, Copy, Debug, PartialEq, Eq)]
pub enum Subject {
    RoleAxiom,
    Concept,
    Pair,
    Axiom,
    Seal,
    Line,
    Claim,
    Closing,
}

impl Docket<'_> {
    // Whether a call about this is taken in the docket's phase. A seal that is taken seals the
    // docket.
    pub(crate) fn enter(&mut self, subject: Subject) -> Result<(), Refusal>
        ensures { Entered self.old subject result self.new }
    {
        // by a match on both, so that every pair of phase and subject is seen to be listed
        match (self.phase, subject) {
            (_, Subject::Concept | Subject::Pair) => Ok(()),
            (Phase::Open, Subject::RoleAxiom | Subject::Axiom) => Ok(()),
            (Phase::Open, Subject::Seal) => {
                self.phase = Phase::Sealed;
                Ok(())
            }
            (Phase::Sealed, Subject::Line | Subject::Claim | Subject::Closing) => Ok(()),
            (Phase::Sealed, Subject::RoleAxiom | Subject::Axiom | Subject::Seal)
            | (Phase::Open, Subject::Line | Subject::Claim | Subject::Closing) => Err(
                Refusal::Phase,
            ),
        }
    }
}
