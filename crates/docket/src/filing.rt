ghost use Rattle.docket.specs.Calls.{Acts, inclusion, transitivity, concept, pair, «axiom», seal, line};
ghost use Rattle.docket.specs.Questions.{PairingIsRight, MeansTheSame};
ghost use Rattle.docket.specs.Runs.{StaysReached};

use crate::fields::{check_role, read_concept};
use crate::phase::Subject;
use crate::{Answer, Docket};
use book::filing::{Draft, check};
use calculus::bank::Bank;
use logic::role::RoleAxiom;
use refusals::Refusal;
use refusals::checks::check_stands;
use vocabulary::MOST_AXIOMS;

impl Docket<'_> {
    /// Files that role `r` is below role `s`.
    pub fn file_inclusion(&mut self, r: u16, s: u16) -> Answer
        ensures acts { Acts (inclusion r s) self.old result self.new }
        ensures reached { StaysReached (inclusion r s) self.old result self.new }
    {
        self.enter(Subject::RoleAxiom)?;
        check_role(r, 0)?;
        check_role(s, 1)?;
        self.vocabulary
            .file_role_axiom(RoleAxiom::Inclusion(r, s))
            .ok_or(Refusal::Full(MOST_AXIOMS))
    }

    /// Files that role `r` is transitive.
    pub fn file_transitivity(&mut self, r: u16) -> Answer
        ensures acts { Acts (transitivity r) self.old result self.new }
        ensures reached { StaysReached (transitivity r) self.old result self.new }
    {
        self.enter(Subject::RoleAxiom)?;
        check_role(r, 0)?;
        self.vocabulary
            .file_role_axiom(RoleAxiom::Transitivity(r))
            .ok_or(Refusal::Full(MOST_AXIOMS))
    }

    /// Files the concept that a tag and two numbers write.
    pub fn file_concept(&mut self, tag: u16, a: u16, b: u16) -> Answer
        ensures acts { Acts (concept tag a b) self.old result self.new }
        ensures reached { StaysReached (concept tag a b) self.old result self.new }
        ensures stays { MeansTheSame self.old.vocabulary self.new.vocabulary }
    {
        self.enter(Subject::Concept)?;
        let k = read_concept(self.vocabulary.len(), tag, a, b)?;
        let room = self.vocabulary.room();
        match self.vocabulary.file_concept(k) {
            Ok(number) => Ok(number),
            Err(_) => Err(Refusal::Full(room)),
        }
    }

    /// Pairs two concepts as mates.
    pub fn pair(&mut self, c: u16, d: u16) -> Answer
        ensures acts { Acts (pair c d) self.old result self.new }
        ensures reached { StaysReached (pair c d) self.old result self.new }
        ensures right { PairingIsRight self.old c d result }
    {
        self.enter(Subject::Pair)?;
        check_stands(c, self.vocabulary.len(), 0)?;
        check_stands(d, self.vocabulary.len(), 1)?;
        // by a match: the clause on what pairing means is proved arm by arm; with `ok_or` it was
        // not
        match self.vocabulary.pair(c, d) {
            Some(()) => Ok(0),
            None => Err(Refusal::Unpaired),
        }
    }

    /// Files a concept as one that holds of every element.
    pub fn file_axiom(&mut self, c: u16) -> Answer
        ensures acts { Acts («axiom» c) self.old result self.new }
        ensures reached { StaysReached («axiom» c) self.old result self.new }
    {
        self.enter(Subject::Axiom)?;
        check_stands(c, self.vocabulary.len(), 0)?;
        self.vocabulary
            .file_axiom(c)
            .ok_or(Refusal::Full(MOST_AXIOMS))
    }

    /// Ends the filing of axioms.
    pub fn seal(&mut self) -> Answer
        ensures acts { Acts seal self.old result self.new }
        ensures reached { StaysReached seal self.old result self.new }
    {
        self.enter(Subject::Seal)?;
        Ok(0)
    }

    /// Files a line, if the rules of the bank license it.
    pub fn file_line<B: Bank>(&mut self, bank: &B, draft: &Draft) -> Answer
        ensures acts { Acts (line (B.Bank.calculus bank.now) draft.now) self.old result self.new }
        ensures reached { StaysReached (line (B.Bank.calculus bank.now) draft.now) self.old result self.new }
    {
        self.enter(Subject::Line)?;
        let line = check(
            bank,
            &self.vocabulary,
            self.book.entries(),
            self.book.room(),
            draft,
        )?;
        // by a match: a line that was checked always fits, as the arm of the error shows
        match self.book.push(line) {
            Ok(number) => Ok(number),
            Err(_) => Err(Refusal::Full(self.book.room())),
        }
    }
}
