ghost use Rattle.std.specs.Prelude.{◌≡◌, ◌≤◌, ◌++◌, length, drop};
ghost use Rattle.docket.specs.Conclusions.{Inquired, Concluded};

use crate::Docket;
use book::members::{check_principals, check_rising, check_standing, check_whole};
use calculus::bank::Bank;
use calculus::premise::Premise;
use calculus::rule::Principals;
use labels::members::read;
use refusals::Refusal;

/// Which conclusion is asked for: of a rule at its principals, the one with this index, for the
/// label with these members.
#[derive(Clone, Copy)]
pub struct Inquiry<'m> {
    pub rule: u16,
    pub on: Principals,
    pub index: u16,
    pub members: &'m [u8],
}

// How many words a row has.
const WORDS: usize = 16;

// Writes a row to the beginning of the memory.
fn write_row(memory: &mut [u64], row: &[u64; 16])
    requires { 16 ≤ length memory.old }
    ensures { memory.new ≡ row.now ++ drop 16 memory.old }
{
    memory[..WORDS].copy_from_slice(row);
}

impl Docket<'_> {
    // What the question checks before it looks at the step.
    fn check_inquiry<B: Bank>(&self, bank: &B, asked: &Inquiry, words: usize) -> Result<u8, Refusal>
        ensures { Inquired (B.Bank.calculus bank.now) self.now asked.now words result }
    {
        self.check_sealed()?;
        if !bank.has(asked.rule) {
            return Err(Refusal::Range(0));
        }
        if asked.index >= bank.cites(asked.rule) as u16 {
            return Err(Refusal::Range(4));
        }
        check_whole(asked.members, 5)?;
        if words < WORDS {
            return Err(Refusal::Range(5 + asked.members.len() / 2));
        }
        let count = self.vocabulary.len();
        check_principals(asked.on, count)?;
        Ok(asked.index as u8)
    }

    /// Writes a conclusion into the first sixteen words of the memory: concept c is bit c mod 64 of
    /// word c div 64.
    pub fn conclusion<B: Bank>(
        &self,
        bank: &B,
        asked: &Inquiry,
        memory: &mut [u64],
    ) -> Result<(), Refusal>
        ensures { Concluded (B.Bank.calculus bank.now) self.now asked.now memory.old result memory.new }
    {
        let index = self.check_inquiry(bank, asked, memory.len())?;
        let reading = read(asked.members, self.vocabulary.len());
        check_standing(&reading, 5)?;
        check_rising(&reading, 5)?;
        let label = reading.row;
        let at = Premise {
            vocabulary: &self.vocabulary,
            on: asked.on,
            label: &label,
        };
        if !bank.applies(asked.rule, &at) {
            return Err(Refusal::Inapplicable(asked.rule));
        }
        write_row(memory, &bank.conclusion(asked.rule, &at, index));
        Ok(())
    }
}
