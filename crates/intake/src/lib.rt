#![tactic(auto)]

pub mod show;

ghost use Rattle.docket.specs.Runs.{Banks, Lends, Reached};
ghost use Rattle.facts.specs.Claims.{ClaimsAreRight};
ghost use Rattle.facts.specs.Facts.{ThreeFacts};
ghost use Rattle.intake.specs.Joining.{FiledTreesAreTaken};
ghost use Rattle.intake.specs.Taking.{Takes, FileTaken};

use book::filing::Draft;
use calculus::bank::Bank;
use calculus::rule::Principals;
use docket::{Answer, Docket};
use file_bytes::field;
use models::Model;
use records::reader::{Reader, count};
use records::record::{Frame, Record};
use refusals::Refusal;

/// What a docket answered to a record of this kind, a number as the frame has it.
#[derive(Clone, Copy)]
pub struct Reply {
    pub kind: u16,
    pub answer: Answer,
}

/// Hands a record to the docket, with a bank of rules and working rows for models.
pub fn take<B: Bank>(docket: &mut Docket, bank: &B, frame: &Frame, rows: &mut [u64]) -> Answer
    ensures takes { Takes (B.Bank.calculus bank.now) frame.now docket.old rows.old result docket.new rows.new }
    ensures reached { (b : Banks) → Lends b (B.Bank.calculus bank.now) → Reached b docket.old
        → Reached b docket.new }
{
    match frame.content? {
        Record::Inclusion { body } => docket.file_inclusion(field(body, 0), field(body, 1)),
        Record::Transitivity { body } => docket.file_transitivity(field(body, 0)),
        Record::Concept { body } => docket.file_concept(
            field(body, 0),
            field(body, 1),
            field(body, 2),
        ),
        Record::Pair { body } => docket.pair(field(body, 0), field(body, 1)),
        Record::Axiom { body } => docket.file_axiom(field(body, 0)),
        Record::Seal => docket.seal(),
        Record::Line { body, members } => {
            let on = Principals {
                p: field(body, 1),
                q: field(body, 2),
                s: field(body, 3),
            };
            docket.file_line(
                bank,
                &Draft {
                    rule: field(body, 0),
                    on,
                    m: field(body, 4),
                    n: field(body, 5),
                    members,
                },
            )
        }
        Record::Claim { members } => docket.file_claim(members),
        Record::CloseEmpty { body } => docket.close_empty(field(body, 0), field(body, 1)),
        Record::CloseInhabited { body, marks, edges } => {
            let model = Model {
                size: field(body, 2),
                point: field(body, 1),
                mark_count: field(body, 3),
                marks,
                edges,
            };
            docket.close_inhabited(field(body, 0), &model, rows)
        }
    }
}

/// Hands a whole file to the docket, record by record, and writes the reply to each. Answers how
/// many records there are; with fewer places for replies than that, it refuses and changes nothing.
pub fn take_file<B: Bank>(
    docket: &mut Docket,
    bank: &B,
    file: &[u8],
    rows: &mut [u64],
    replies: &mut [Reply],
) -> Answer
    ensures taken { FileTaken (B.Bank.calculus bank.now) file.now docket.old rows.old replies.old result docket.new rows.new replies.new }
    ensures reached { (b : Banks) → Lends b (B.Bank.calculus bank.now) → Reached b docket.old
        → Reached b docket.new }
    ensures facts { ThreeFacts }
    ensures trees { FiledTreesAreTaken }
    ensures claims { ClaimsAreRight }
{
    let total = count(file);
    if replies.len() < total {
        return Err(Refusal::Range(1));
    }
    // not zipped with `replies.iter_mut()`: of what is written through an adapter of it no proof
    // knows anything
    for (i, frame) in Reader::new(file).enumerate() {
        replies[i] = Reply {
            kind: frame.kind,
            answer: take(docket, bank, &frame, rows),
        };
    }
    Ok(total)
}
