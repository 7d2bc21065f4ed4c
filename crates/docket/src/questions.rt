ghost use Rattle.std.specs.Prelude.{◌≡◌};
ghost use Rattle.refusals.specs.Checks.{Passed, Answered};
ghost use Rattle.file_bytes.specs.Bytes.{numbers};
ghost use Rattle.labels.specs.Labels.{row};
ghost use Rattle.vocabulary.specs.Vocabularies.{theory};
ghost use Rattle.book.specs.Lines.{first_line_within};
ghost use Rattle.docket.specs.Dockets.{lines};
ghost use Rattle.docket.specs.Questions.{OfValue, sealed_checks, below_checks, transitive_checks, mate_checks, label_checks, SaysBelow, SaysTransitive, SaysMate};
ghost use Rattle.docket.specs.Runs.{Reached, any};

use crate::Docket;
use crate::fields::check_role;
use crate::phase::Phase;
use book::members::{check_rising, check_standing, check_whole};
use book::search::find_within;
use labels::members::read;
use refusals::Refusal;
use refusals::checks::check_stands;

impl Docket<'_> {
    // Whether the docket is sealed, as the questions on roles and on conclusions ask.
    pub(crate) fn check_sealed(&self) -> Result<(), Refusal>
        ensures { Passed (sealed_checks self.now) result }
    {
        match self.phase {
            Phase::Open => Err(Refusal::Phase),
            Phase::Sealed => Ok(()),
        }
    }

    /// Whether role `r` is below role `s`.
    pub fn is_below(&self, r: u16, s: u16) -> Result<bool, Refusal>
        ensures { Answered (below_checks self.now r s) (SaysBelow self.now r s) result }
    {
        self.check_sealed()?;
        check_role(r, 0)?;
        check_role(s, 1)?;
        Ok(self.vocabulary.is_below(r, s))
    }

    /// Whether role `r` is transitive.
    pub fn is_transitive(&self, r: u16) -> Result<bool, Refusal>
        ensures { Answered (transitive_checks self.now r) (SaysTransitive self.now r) result }
    {
        self.check_sealed()?;
        check_role(r, 0)?;
        Ok(self.vocabulary.is_transitive(r))
    }

    /// The mate of a concept, or that there is none.
    pub fn mate(&self, c: u16) -> Result<Option<u16>, Refusal>
        ensures answered { Answered (mate_checks self.now c) (λ m. m
            ≡ (theory self.now.vocabulary).mates c) result }
        ensures means { Reached any self.now → OfValue (SaysMate self.now c) result }
    {
        check_stands(c, self.vocabulary.len(), 0)?;
        Ok(self.vocabulary.mate(c))
    }

    /// The first standing line whose label lies within the label with these members. The checks of
    /// a label are two, since filing a claim asks for room between them.
    pub fn first_line(&self, members: &[u8]) -> Result<Option<usize>, Refusal>
        ensures { Answered (label_checks self.now members.now) (λ k. k
            ≡ first_line_within (lines self.now) (row (numbers members.now))) result }
    {
        check_whole(members, 0)?;
        let reading = read(members, self.vocabulary.len());
        check_standing(&reading, 0)?;
        check_rising(&reading, 0)?;
        Ok(find_within(self.book.entries(), &reading.row))
    }
}
