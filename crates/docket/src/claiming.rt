ghost use Rattle.std.specs.Prelude.{◌≡◌};
ghost use Rattle.claims.specs.Claiming.{filed, tallied};
ghost use Rattle.claims.specs.declared.Status.TheVariants.{Open, Empty, Inhabited};
ghost use Rattle.docket.specs.Runs.{StaysReached};
ghost use Rattle.docket.specs.Calls.{Acts, claim, close_empty, close_inhabited};

use crate::phase::Subject;
use crate::{Answer, Docket};
use book::members::{check_rising, check_standing, check_whole};
use claims::{MOST_CLAIMS, Status};
use labels::members::read;
use labels::rows::first_outside;
use models::{Model, judge};
use refusals::Refusal;

impl Docket<'_> {
    /// Files a claim of the label with these members.
    pub fn file_claim(&mut self, members: &[u8]) -> Answer
        ensures acts { Acts (claim members.now) self.old result self.new }
        ensures reached { StaysReached (claim members.now) self.old result self.new }
    {
        self.enter(Subject::Claim)?;
        check_whole(members, 0)?;
        let reading = read(members, self.vocabulary.len());
        check_standing(&reading, 0)?;
        if self.claims.is_full() {
            return Err(Refusal::Full(MOST_CLAIMS));
        }
        check_rising(&reading, 0)?;
        self.claims
            .add(reading.row)
            .ok_or(Refusal::Full(MOST_CLAIMS))
    }

    /// Closes a claim as empty by a standing line whose label lies within its own.
    pub fn close_empty(&mut self, claim: u16, line: u16) -> Answer
        ensures acts { Acts (close_empty claim line) self.old result self.new }
        ensures reached { StaysReached (close_empty claim line) self.old result self.new }
    {
        self.enter(Subject::Closing)?;
        let claimed = self.claims.get(claim).ok_or(Refusal::Absent(0))?;
        let cited = self.book.get(line as usize).ok_or(Refusal::Absent(1))?;
        if !claimed.is_open() {
            return Err(Refusal::Closed(claim));
        }
        // what is found is the refusal
        if let Some(c) = first_outside(&cited.label, &claimed.label) {
            return Err(Refusal::Outside(c));
        }
        self.claims
            .settle(claim, Status::Empty)
            .map(|()| 0)
            .ok_or(Refusal::Absent(0))
    }

    /// Closes a claim as inhabited by a model that meets the axioms and whose point lies in all of
    /// its label. The rows are working memory, four words for each standing concept.
    pub fn close_inhabited(&mut self, claim: u16, model: &Model, rows: &mut [u64]) -> Answer
        ensures acts { Acts (close_inhabited claim model.now rows.old rows.new) self.old result self.new }
        ensures reached { StaysReached (close_inhabited claim model.now rows.old rows.new) self.old result self.new }
    {
        self.enter(Subject::Closing)?;
        if rows.len() / 4 < self.vocabulary.len() {
            return Err(Refusal::Range(4 + (model.marks.len() + model.edges.len()) / 2));
        }
        let claimed = self.claims.get(claim).ok_or(Refusal::Absent(0))?;
        if !claimed.is_open() {
            return Err(Refusal::Closed(claim));
        }
        judge(&self.vocabulary, &claimed.label, model, rows)?;
        self.claims
            .settle(claim, Status::Inhabited)
            .map(|()| 0)
            .ok_or(Refusal::Absent(0))
    }

    /// The open, the empty and the inhabited claims.
    pub fn tally(&self) -> (usize, usize, usize)
        ensures { result ≡ (tallied Open (filed self.now.claims), tallied Empty (filed self.now.claims), tallied Inhabited (filed self.now.claims)) }
    {
        self.claims.tally()
    }
}
